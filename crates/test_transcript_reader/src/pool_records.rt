use std::alloc::{AllocError, Global};

/// What a store keeps of a pool.
#[derive(Drop)]
pub struct PoolRecords {
    /// The line of the text at which they begin.
    pub line: usize,
    pub folder: String,
    pub pool: String,
    /// How many entries came before the base.
    pub count: u64,
    /// The lines of the base.
    pub base: Vec<String>,
    /// The lines of the log since.
    pub lines: Vec<String>,
}

impl PoolRecords {
    /// Records without lines.
    pub fn new(
        alloc: Global,
        line: usize,
        folder: &str,
        pool: &str,
        count: u64,
    ) -> Result<PoolRecords, AllocError> {
        Ok(PoolRecords {
            line,
            folder: String::from_str(alloc, folder)?,
            pool: String::from_str(alloc, pool)?,
            count,
            base: Vec::new(alloc),
            lines: Vec::new(alloc),
        })
    }

    /// The same with the first lines of the log alone, so many of them.
    pub fn first(&self, alloc: Global, count: usize) -> Result<PoolRecords, AllocError> {
        let folder = self.folder.as_str();
        let pool = self.pool.as_str();
        let mut first = PoolRecords::new(alloc, self.line, folder, pool, self.count)?;
        for line in self.base.iter() {
            first.base.push(String::from_str(alloc, line.as_str())?)?;
        }
        for line in self.lines.iter().take(count) {
            first.lines.push(String::from_str(alloc, line.as_str())?)?;
        }
        Ok(first)
    }

    /// The count and the lines, as one text.
    pub(crate) fn text(&self, alloc: Global) -> Result<String, AllocError> {
        let count = self.count;
        let mut text = format!(in alloc; "count {count}\n")?;
        for line in self.base.iter() {
            write!(text, "base {line}\n")?;
        }
        for line in self.lines.iter() {
            write!(text, "line {line}\n")?;
        }
        Ok(text)
    }
}
