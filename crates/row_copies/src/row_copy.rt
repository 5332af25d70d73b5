//! A copy of the rows of a pool, which follows its log.
ghost use Rattle.std.specs.Prelude.{◌≡◌};

use crate::Kept;
use bot_registry::Registry;
use common_rows::{change_rows, load_bots, load_tasks, suits_bots, suits_tasks};
use dimensions::TryCopy;
use left_right::Absorb;
use std::alloc::{AllocError, Global};
use std::snapshot::Snapshot;
use swarm_model::{Entry, PoolSettings, PoolState};
use task_rows::TaskRows;

/// The tasks and bots of a pool. Of what it began with and of the entries it keeps only what proofs
/// see, which takes no memory.
#[derive(Drop)]
pub struct RowCopy {
    pub(crate) settings: PoolSettings,
    pub(crate) last: u64,
    pub(crate) tasks: TaskRows,
    pub(crate) bots: Registry,
    base: Snapshot<PoolState>,
    log: Vec<Snapshot<Entry>>,
    ghost retries: { tasks.retries ≡ settings.retries },
    ghost most: { bots.most ≡ settings.most_bots },
}

impl RowCopy {
    ghost use Rattle.std.specs.Prelude.{◌^◌, length, IsTrue, IfOk, OnOk};
    ghost use Rattle.swarm_model.specs.BaseRules.{IsBase};
    ghost use Rattle.row_copies.specs.Kept.{begun, followed, kept_of};
    ghost use Rattle.row_copies.specs.Inside.{Suits, IsReadyFor};

    /// The rows of a base, before any entry.
    pub fn new(alloc: Global, base: &PoolState) -> Result<RowCopy, AllocError>
        requires { IsBase base.now.settings (2 ^ 31) base.now }
        ensures { IfOk result (λ copy. kept_of copy ≡ begun base.now) }
    {
        let settings = base.settings.try_copy(alloc)?;
        let tasks = load_tasks(alloc, settings.retries, base.tasks.as_slice())?;
        let bots = load_bots(alloc, settings.most_bots, base.bots.as_slice())?;
        Ok(RowCopy {
            settings,
            last: base.last,
            tasks,
            bots,
            base: Snapshot::of(base),
            log: Vec::new(alloc),
        })
    }

    /// How many entries it has followed.
    pub fn length(&self) -> u64
        ensures { result ≡ length (kept_of self.now).log }
    {
        self.log.len() as u64
    }

    /// Whether the rows can take the entry.
    fn suits(&self, entry: &Entry) -> bool
        ensures { IsTrue result → Suits self.now entry.now.kind }
    {
        suits_tasks(&self.tasks, entry) && suits_bots(&self.bots, self.settings.most_bots, entry)
    }

    /// Makes ready all that it takes to follow the entry.
    fn reserve(&mut self, entry: &Entry) -> Result<(), AllocError>
        ensures kept { kept_of self.new ≡ kept_of self.old }
        ensures suits { Suits self.old entry.now.kind → Suits self.new entry.now.kind }
        ensures ready { OnOk result (IsReadyFor self.new entry.now.kind) }
    {
        self.tasks.reserve(entry)?;
        self.bots.reserve(entry)?;
        self.log.reserve(1)
    }

    /// Follows an entry that was made ready just before. It takes no memory.
    fn follow(&mut self, entry: &Entry)
        requires suits { Suits self.old entry.now.kind }
        requires ready { IsReadyFor self.old entry.now.kind }
        ensures { kept_of self.new ≡ followed (kept_of self.old) entry.now }
    {
        change_rows(&mut self.tasks, &mut self.bots, entry);
        self.last = entry.moment;
        self.log.push_reserved(Snapshot::of(entry));
    }
}

impl Absorb<Entry> for RowCopy {
    ghost use Rattle.row_copies.specs.Kept.{followed, kept_of};

    type State = Kept;

    ghost state = { kept_of };

    ghost applied = { followed };

    /// An entry that the rows can't take is refused as want of memory. A log of the pool has none.
    fn absorb_first(&mut self, operation: &Entry, _other: &RowCopy) -> Result<(), AllocError> {
        if !self.suits(operation) {
            return Err(AllocError);
        }
        self.reserve(operation)?;
        self.follow(operation);
        Ok(())
    }
}
