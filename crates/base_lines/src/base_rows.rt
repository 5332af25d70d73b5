//! The rows of a base, read line by line.
ghost use Rattle.std.specs.Prelude.{◌≡◌, ◌+◌, ◌≤◌, Some, OnOk, OnErr};
ghost use Rattle.swarm_model.specs.Effects.{idle_bot};
ghost use Rattle.line_parts.specs.Finding.{FindsValue};
ghost use Rattle.base_lines.specs.Reading.{nothing_read, comes_next, with_row, take_row, with_line, AreRead, lines_in, most_lines, base_of};

use crate::line::read_line;
use crate::runs::give_runs;
use crate::{BaseRow, PoolLine};
use dimensions::Seq;
use line_parts::LineFault;
use std::alloc::Global;
use swarm_model::{BlobRow, BotRow, PoolSettings, PoolState, TaskRow};

/// The rows that the lines of a base told so far, each line behind those before it.
#[derive(Drop)]
pub struct BaseRows {
    pub pool: Option<PoolLine>,
    pub tasks: Seq<TaskRow>,
    /// As yet without the tasks that they run.
    pub bots: Seq<BotRow>,
    pub blobs: Seq<BlobRow>,
    /// The greatest number of these blobs, or 0.
    pub newest: u32,
}

fn idle(bot: BotRow) -> BotRow
    ensures { result ≡ idle_bot bot }
{
    let mut bot = bot;
    bot.task = None;
    bot
}

impl BaseRows {
    /// No rows, before the first line.
    #[tactic(auto, using(crate::proofs::Reading::nothing_is_read))]
    pub fn new(alloc: Global) -> BaseRows
        ensures rows { result ≡ nothing_read }
        ensures read { AreRead result }
    {
        BaseRows {
            pool: None,
            tasks: Seq::new(alloc),
            bots: Seq::new(alloc),
            blobs: Seq::new(alloc),
            newest: 0,
        }
    }

    /// How many lines told the rows.
    pub fn line_count(&self) -> u64
        requires { AreRead self.now }
        ensures { result ≡ lines_in self.now }
    {
        let pool_lines = match self.pool {
            None => 0,
            Some(_) => 1,
        };
        let tasks = self.tasks.as_slice().len() as u64;
        let bots = self.bots.as_slice().len() as u64;
        let blobs = self.blobs.as_slice().len() as u64;
        pool_lines + (tasks + (bots + blobs))
    }

    fn is_next(&self, row: &BaseRow) -> bool
        ensures { result ≡ comes_next self.now row.now }
    {
        let next_task = self.tasks.as_slice().len() + 1;
        let next_bot = self.bots.as_slice().len() + 1;
        let no_bots = self.bots.as_slice().len() == 0;
        let no_blobs = self.blobs.as_slice().len() == 0;
        match row {
            BaseRow::Pool(_) => self.pool.is_none(),
            BaseRow::Task(task) => {
                self.pool.is_some() && (task.no as usize == next_task && (no_bots && no_blobs))
            }
            BaseRow::Bot(bot) => {
                self.pool.is_some() && (bot.no as usize == next_bot && no_blobs)
            }
            BaseRow::Blob(blob) => self.pool.is_some() && self.newest < blob.no,
        }
    }

    fn put(&mut self, row: BaseRow) -> Result<(), LineFault>
        ensures told { FindsValue (λ _. self.new) result (Some (with_row self.old row)) }
        ensures stays { OnErr result (self.new ≡ self.old) }
    {
        match row {
            BaseRow::Pool(pool) => self.pool = Some(pool),
            BaseRow::Task(task) => self.tasks.try_push(task)?,
            BaseRow::Bot(bot) => self.bots.try_push(idle(bot))?,
            BaseRow::Blob(blob) => {
                self.blobs.try_push(blob)?;
                self.newest = blob.no;
            }
        }
        Ok(())
    }

    fn add_row(&mut self, row: BaseRow) -> Result<(), LineFault>
        ensures told { FindsValue (λ _. self.new) result (take_row self.old row) }
        ensures stays { OnErr result (self.new ≡ self.old) }
    {
        if self.is_next(&row) {
            self.put(row)
        } else {
            Err(LineFault::NotALine)
        }
    }

    /// Adds the row of the next line.
    ///
    /// # Errors
    ///
    /// [`LineFault::NotALine`] exactly where the text is none of its place: the line of no row, or of
    /// a row that does not come next. [`LineFault::Memory`]. Both leave the rows.
    pub fn add_line(&mut self, alloc: Global, text: &str) -> Result<(), LineFault>
        ensures told { FindsValue (λ _. self.new) result (with_line self.old text.now) }
        ensures stays { OnErr result (self.new ≡ self.old) }
        ensures read { AreRead self.old → AreRead self.new }
        ensures counted { OnOk result (lines_in self.new ≡ lines_in self.old + 1) }
        ensures few { AreRead self.old → lines_in self.new ≤ most_lines }
    {
        let row = read_line(alloc, text)?;
        self.add_row(row)
    }

    /// The rows as those of a pool, each bot with the task that runs on it. Whether a pool may have
    /// such rows is not asked.
    pub fn into_pool(self, settings: PoolSettings) -> PoolState
        requires { AreRead self }
        ensures { result ≡ base_of settings self }
    {
        let pool = self.pool.unwrap_or(PoolLine { last: 0, placed: 0 });
        let mut bots = self.bots.into_vec();
        give_runs(&mut bots, self.tasks.as_slice());
        PoolState {
            settings,
            last: pool.last,
            tasks: self.tasks,
            bots: Seq::from_vec(bots),
            blobs: self.blobs,
            placed: pool.placed,
        }
    }
}
