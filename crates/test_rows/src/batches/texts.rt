use crate::fault::{Fault, fault_at};
use std::alloc::{AllocError, Global};

/// The names that were given so far, with what they stand for.
#[derive(Drop)]
pub(crate) struct Texts {
    names: Vec<(String, Vec<u8>)>,
}

fn repeat(bytes: &[u8], times: u32, into: &mut Vec<u8>) -> Result<(), AllocError> {
    for _ in 0..times {
        into.extend_from_slice(bytes)?;
    }
    Ok(())
}

impl Texts {
    pub(crate) fn new(alloc: Global) -> Texts {
        Texts {
            names: Vec::new(alloc),
        }
    }

    /// Lets a name stand for a text from here on.
    pub(crate) fn give(&mut self, alloc: Global, line: usize, entry: &str) -> Result<(), Fault> {
        let (name, text) = entry.split_once(' ').unwrap_or((entry, ""));
        let text = self.filled(alloc, line, text)?;
        self.names.push((String::from_str(alloc, name)?, text))?;
        Ok(())
    }

    /// The bytes of a text.
    pub(crate) fn filled(&self, alloc: Global, line: usize, text: &str) -> Result<Vec<u8>, Fault> {
        let mut bytes = Vec::new(alloc);
        let mut parts = text.split("${");
        if let Some(first) = parts.next() {
            bytes.extend_from_slice(first.as_bytes())?;
        }
        for part in parts {
            let Some((word, rest)) = part.split_once('}') else {
                return Err(fault_at(
                    line,
                    format!(in alloc; "a closing brace is wanted in `{part}`"),
                ));
            };
            self.put(alloc, line, word, &mut bytes)?;
            bytes.extend_from_slice(rest.as_bytes())?;
        }
        Ok(bytes)
    }

    /// Adds what a word stands for.
    fn put(&self, alloc: Global, line: usize, word: &str, into: &mut Vec<u8>) -> Result<(), Fault> {
        if let Some(digits) = word.strip_prefix("0x") {
            if let Ok(byte) = u8::from_str_radix(digits, 16) {
                into.push(byte)?;
                return Ok(());
            }
        }
        let (name, times) = word.split_once('*').unwrap_or((word, "1"));
        let given = self.names.iter().find(|it| it.0.as_str() == name);
        match (given, times.parse::<u32>()) {
            (Some(given), Ok(times)) => Ok(repeat(given.1.as_slice(), times, into)?),
            _ => Err(fault_at(line, format!(in alloc; "`{word}` stands for nothing"))),
        }
    }
}
