ghost use Rattle.std.specs.Prelude.{◌≡◌, ◌+◌, ◌<◌, [], ◌∷◌, ◌++◌, length, Some, None, OnOk, OnErr};
ghost use Rattle.std.specs.List.{list_any};
ghost use Rattle.std.specs.Option.{option_copied, option_map};
ghost use Rattle.swarm_model.specs.Slices.{could_run};
ghost use Rattle.swarm_model.specs.Effects.{no_of_bot};
ghost use Rattle.row_changes.specs.Parts.{bot_parts};
ghost use Rattle.bot_registry.specs.Acting.{row_of, row_named, IsNextAfter, IsAfter, Follows};

use crate::demand::Demands;
use crate::names;
use dimensions::{DimSet, Text};
use row_changes::{BotParts, change_bots, row_of};
use std::alloc::{AllocError, Global};
use std::marker::Model;
use std::mem;
use swarm_model::{BotRow, Entry};

/// The rows of a pool's bots. Bots are numbered from 1 in the order in which they came.
#[derive(Drop)]
pub struct Registry {
    alloc: Global,
    most: u32,
    rows: Vec<BotRow>,
    /// The numbers of the rows, sorted by name.
    by_name: Vec<u32>,
    /// The sets that tasks asked for, each with the number of fit bots that match it.
    demands: Demands,
    /// What the entry that was reserved moves into a row.
    ready: Option<BotParts>,
}

impl Model for Registry {
    ghost use Rattle.bot_registry.specs.Plain.{RegistryState};

    ghost Value = { RegistryState };

    ghost use Rattle.bot_registry.specs.Inside.{kept_of, IsKept};

    ghost view = { kept_of };

    ghost invariant = { IsKept };
}

impl Registry {
    /// No bot yet, of at most `most`. It takes no memory.
    pub fn new(alloc: Global, most: u32) -> Registry
        ensures { result ≡ record { rows = []; ready = None; most = most } }
    {
        Registry {
            alloc,
            most,
            rows: Vec::new(alloc),
            by_name: Vec::new(alloc),
            demands: Demands::new(alloc),
            ready: None,
        }
    }

    /// How many bots there are, at a constant cost.
    pub fn count(&self) -> usize
        ensures { result ≡ length self.now.rows }
    {
        self.rows.len()
    }

    /// The rows, in the order of their numbers.
    pub fn as_slice(&self) -> &[BotRow]
        ensures { result.now ≡ self.now.rows }
    {
        self.rows.as_slice()
    }

    /// The number of the bot of a name. It costs a bisection over the bots.
    pub fn number(&self, name: &Text) -> Option<u32>
        ensures { result ≡ option_map no_of_bot (row_named self.now.rows name.now) }
    {
        self.named(name).map(|bot| bot.no)
    }

    /// The row of the bot of a name. It costs a bisection over the bots.
    pub fn named(&self, name: &Text) -> Option<&BotRow>
        ensures { option_copied result ≡ row_named self.now.rows name.now }
    {
        names::row_named(&self.rows, &self.by_name, name)
    }

    /// The row of the bot whose name comes next after a name, in the order of bytes. It costs a
    /// bisection over the bots.
    pub fn next_after(&self, name: &Text) -> Option<&BotRow>
        ensures { IsNextAfter self.now.rows name.now (option_copied result) }
    {
        names::row_after(&self.rows, &self.by_name, name)
    }

    /// The row of the bot of a number, which stands at its place, at a constant cost.
    pub fn bot(&self, no: u32) -> Option<&BotRow>
        ensures { option_copied result ≡ row_of self.now.rows no }
    {
        row_of(&self.rows, no)
    }

    /// Whether some fit bot, busy or not, has the dimensions. For a set that a task asked for it
    /// costs a search among those that are known, which are 1,024 at most, and for any other a pass
    /// over the bots too.
    pub fn capable(&self, dims: &DimSet) -> bool
        ensures { result ≡ list_any (could_run dims.now) self.now.rows }
    {
        self.demands.is_capable(&self.rows, dims)
    }

    /// Makes ready all that the entry's change of the rows needs, so that `apply` takes no memory.
    /// It costs the copy of what the entry moves into a row. A new task's sets of dimensions are
    /// known from here on, also where the entry is never applied: each costs a search among those
    /// that are known, and where it isn't, a pass over the bots. Of 1,024 sets, one more takes the
    /// place of the next in turn.
    ///
    /// # Errors
    ///
    /// Where memory is wanting, nothing is ready.
    pub fn reserve(&mut self, entry: &Entry) -> Result<(), AllocError>
        ensures ok { OnOk result (self.new ≡ record self.old { ready = Some (bot_parts entry.now.kind) }) }
        ensures err { OnErr result (self.new ≡ record self.old { ready = None }) }
    {
        drop(self.ready.take());
        if self.rows.len() < self.most as usize {
            self.rows.reserve(1)?;
            self.by_name.reserve(1)?;
        }
        self.demands.add_sets(self.alloc, &self.rows, &entry.kind)?;
        let parts = BotParts::copied(self.alloc, &entry.kind)?;
        drop(mem::replace(&mut self.ready, Some(parts)));
        Ok(())
    }

    /// Adds the next row, as it was kept, with a name that no other has. What was made ready is
    /// dropped, and the sets that are known are forgotten: each is counted again at the next new
    /// task that asks for it. It costs a bisection over the bots and the move of the numbers behind
    /// its own.
    ///
    /// # Errors
    ///
    /// Where memory is wanting, the rows are as they were.
    pub fn load(&mut self, row: BotRow) -> Result<(), AllocError>
        requires room { length self.old.rows < self.old.most }
        requires next { row.no ≡ length self.old.rows + 1 }
        requires fresh { row_named self.old.rows row.name ≡ None }
        ensures ok { OnOk result (self.new ≡ record self.old { rows = self.old.rows ++ row ∷ []; ready = None }) }
        ensures err { OnErr result (self.new ≡ record self.old { ready = None }) }
    {
        drop(self.ready.take());
        self.rows.reserve(1)?;
        self.by_name.reserve(1)?;
        drop(mem::replace(&mut self.demands, Demands::new(self.alloc)));
        names::add(&self.rows, &mut self.by_name, row.no, &row.name);
        self.rows.push_reserved(row);
        Ok(())
    }

    /// Does to the rows what the entry does that was reserved just before. It takes no memory.
    /// Where it changes the dimensions of a bot, or whether it is fit, it costs a pass over the sets
    /// that are known; a sign of life costs none. A bot that comes for the first time costs a
    /// bisection and the move of the numbers behind its own. A silent run costs a pass over the
    /// bots.
    pub fn apply(&mut self, entry: &Entry)
        requires ready { self.old.ready ≡ Some (bot_parts entry.now.kind) }
        requires follows { Follows self.old entry.now.kind }
        ensures rows { IsAfter self.old.rows entry.now self.new.rows }
        ensures rest { self.new ≡ record self.old { rows = self.new.rows; ready = None } }
    {
        match self.ready.take() {
            None => unreachable!(),
            Some(parts) => {
                names::follow(&self.rows, &mut self.by_name, &entry.kind);
                let included = self.demands.remove_changing(&self.rows, &entry.kind);
                change_bots(&mut self.rows, self.alloc, entry.moment, &entry.kind, parts);
                self.demands
                    .count_changed(&self.rows, &entry.kind, included);
            }
        }
    }
}
