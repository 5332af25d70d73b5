//! The rows of a pool, which follow its log.
ghost use Rattle.std.specs.Prelude.{◌≡◌, ◌+◌, ◌<◌, ◌≤◌, ◌^◌, IfOk, OnOk, IfSome};
ghost use Rattle.std.specs.Option.{option_map, option_copied};
ghost use Rattle.swarm_model.specs.BaseRules.{IsBase};
ghost use Rattle.swarm_model.specs.Bytes.{nothing_held};
ghost use Rattle.swarm_model.specs.Deadlines.{runner_of, bot_end};
ghost use Rattle.swarm_model.specs.Effects.{run_of_bot};
ghost use Rattle.swarm_model.specs.Finding.{bot_of};
ghost use Rattle.swarm_model.specs.History.{MayFollow};
ghost use Rattle.swarm_model.specs.Soundness.{IsSound};
ghost use Rattle.row_changes.specs.Rows.{IsHeard};
ghost use Rattle.pool_changes.specs.Blobs.{AreBrought, fresh_in, held_in};
ghost use Rattle.common_rows.specs.Rows.{state_of, IsReadyFor, IsOfSettings, IsAfter};

use crate::changing::{self, change_rows};
use crate::loading::{load_bots, load_tasks};
use bot_registry::Registry;
use content_store::Blobs;
use dimensions::TryCopy;
use pool_changes::{blob_effect, change_blobs, load_blobs};
use row_changes::death_of;
use std::alloc::{AllocError, Global};
use swarm_model::{BotRow, Chunk, Deadline, Entry, EntryKind, PoolSettings, PoolState, TaskRow};
use task_rows::TaskRows;

/// The rows of a pool.
#[derive(Drop)]
pub struct Rows {
    pub settings: PoolSettings,
    pub last: u64,
    pub tasks: TaskRows,
    pub bots: Registry,
    pub blobs: Blobs,
}

impl Rows {
    /// The rows of a base. Of their blobs no bytes are held.
    pub fn of_base(alloc: Global, base: &PoolState) -> Result<Rows, AllocError>
        requires { IsBase base.now.settings (2 ^ 31) base.now }
        ensures state { IfOk result (λ rows. state_of rows ≡ base.now) }
        ensures of_settings { IfOk result IsOfSettings }
        ensures held { IfOk result (λ rows. held_in rows.blobs ≡ nothing_held) }
    {
        let settings = base.settings.try_copy(alloc)?;
        let tasks = load_tasks(alloc, settings.retries, base.tasks.as_slice())?;
        let bots = load_bots(alloc, settings.most_bots, base.bots.as_slice())?;
        let blobs = load_blobs(alloc, base)?;
        Ok(Rows {
            settings,
            last: base.last,
            tasks,
            bots,
            blobs,
        })
    }

    /// Makes ready all that the entry's change of the rows needs.
    pub fn reserve(&mut self, entry: &Entry) -> Result<(), AllocError>
        ensures same { state_of self.new ≡ state_of self.old }
        ensures settings { self.new.settings ≡ self.old.settings }
        ensures retries { self.new.tasks.retries ≡ self.old.tasks.retries }
        ensures blobs { self.new.blobs ≡ self.old.blobs }
        ensures most { self.new.bots.most ≡ self.old.bots.most }
        ensures ready { OnOk result (IsReadyFor self.new entry.now.kind) }
    {
        self.tasks.reserve(entry)?;
        self.bots.reserve(entry)
    }

    /// The chunk of the entry, where it goes on from the output that is kept.
    pub fn fresh_in(&self, kind: &EntryKind) -> Option<Chunk>
        ensures { result ≡ fresh_in (state_of self.now) kind.now }
    {
        match kind {
            EntryKind::Update { t, chunk, .. } => self.tasks.fresh_chunk(*t, *chunk),
            _ => None,
        }
    }

    /// The bot of a number.
    pub fn bot_of(&self, number: u32) -> Option<&BotRow>
        requires { IsSound (state_of self.now) }
        ensures value { option_copied result ≡ bot_of (state_of self.now) number }
        ensures heard { IfSome (option_copied result) IsHeard }
    {
        self.bots.bot(number)
    }

    /// The bot of a run.
    pub fn runner_of(&self, task: &TaskRow) -> Option<&BotRow>
        requires { IsSound (state_of self.now) }
        ensures value { option_copied result ≡ runner_of (state_of self.now) task.now }
        ensures heard { IfSome (option_copied result) IsHeard }
    {
        self.bot_of(task.attempt.as_ref()?.bot)
    }

    /// When a bot counts as dead, if it stays silent.
    pub fn bot_end(&self, bot: &BotRow) -> Option<Deadline>
        requires { IsHeard bot.now }
        ensures { result ≡ bot_end (state_of self.now) bot.now }
    {
        death_of(self.settings.death_timeout_secs, bot)
    }

    /// The task that the bot of a number runs.
    pub fn run_of_bot(&self, b: u32) -> Option<u32>
        ensures { result ≡ run_of_bot (state_of self.now) b }
    {
        changing::run_of_bot(&self.bots, b)
    }

    /// How many seconds a blob is kept.
    fn blob_life(&self) -> u64
        ensures value { result ≡ self.now.settings.blob_life_secs }
        ensures short { result ≤ 2 ^ 32 }
    {
        u64::from(self.settings.blob_life_secs)
    }

    /// What the entry does, which was made ready just before; the bytes of a blob that it places are
    /// held. It takes no memory.
    pub fn apply(&mut self, entry: &Entry, bytes: Option<&[u8]>)
        requires sound { IsSound (state_of self.old) }
        requires follows { MayFollow (state_of self.old) entry.now }
        requires ready { IsReadyFor self.old entry.now.kind }
        requires of_settings { IsOfSettings self.old }
        requires number { self.old.blobs.placed + 1 < 2 ^ 32 }
        requires bytes { AreBrought entry.now.kind (option_map (λ b. b.now) bytes) }
        ensures { IsAfter self.old self.new entry.now.moment entry.now.kind (option_map (λ b. b.now) bytes.entry) }
    {
        let effect = blob_effect(&entry.kind, self.fresh_in(&entry.kind));
        let life = self.blob_life();
        change_rows(&mut self.tasks, &mut self.bots, entry);
        change_blobs(&mut self.blobs, life, entry.moment, effect, bytes);
        self.last = entry.moment;
    }
}
