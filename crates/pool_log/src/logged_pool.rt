ghost use Rattle.std.specs.Prelude.{◌≡◌, ◌≤◌, ◌+◌, ◌-◌, ◌^◌, [], nat_le, if◌then◌else◌, None, IfOk, IsTrue, slice_get};
ghost use Rattle.std.specs.Option.{option_map, option_copied};
ghost use Rattle.swarm_model.specs.Answers.{entry_at};
ghost use Rattle.swarm_model.specs.BaseRules.{IsBase};
ghost use Rattle.swarm_model.specs.Bytes.{nothing_held};
ghost use Rattle.swarm_model.specs.Settings.{keeps_rules};
ghost use Rattle.pool_log.specs.Plain.{machine_of};

use crate::PoolRows;
use blob_rows::Filled;
use dimensions::Text;
use pool_rules::{decide, due_entry};
use std::alloc::{AllocError, Global};
use std::marker::Model;
use std::sync::ledger::Ledger;
use swarm_model::{
    Answer, BlobRow, BotRow, Decision, Entry, EntryKind, Machine, PoolSettings, PoolState, Request,
    ReserveFault, Steps, TaskRow, rows_weight, weight,
};
use task_props::Digest;

/// A pool that keeps its log, and rows that are the replay of that log from a base.
#[derive(Drop)]
pub struct LoggedPool<R: PoolRows> {
    alloc: Global,
    rows: R,
    /// The rows from which the log begins.
    base: PoolState,
    /// How many entries led to these.
    count: u64,
    log: Vec<Entry>,
    /// The weight of the base and the log.
    weight: u64,
    /// The weight of the entry for which all lies ready, where there is one.
    added: u64,
}

impl<R: PoolRows> Model for LoggedPool<R> {
    ghost use Rattle.pool_log.specs.Plain.{KeptPool};

    ghost Value = { KeptPool };

    ghost use Rattle.pool_log.specs.Invariant.{kept_of, IsKept};

    ghost view = { λ pool. kept_of (R.state pool.rows) (R.ready pool.rows) (R.held pool.rows) pool };

    ghost invariant = { λ pool. IsKept (R.state pool.rows) (R.ready pool.rows) pool };
}

fn entry_of(moment: u64, pass: u32, entry: Option<EntryKind>) -> Option<Entry>
    ensures { result ≡ option_map (entry_at moment pass) entry }
{
    match entry {
        None => None,
        Some(kind) => Some(Entry { moment, pass, kind }),
    }
}

/// The entry of a log that begins after so many entries.
fn entry_in(log: &[Entry], count: u64, at: u64) -> Option<&Entry>
    ensures { option_copied result ≡ if nat_le count at then slice_get log.now (at - count) else None }
{
    if at < count {
        return None;
    }
    log.get((at - count) as usize)
}

/// A pool without an entry of its own, which begins from the base after so many entries.
fn opened<R: PoolRows>(
    alloc: Global,
    base: PoolState,
    count: u64,
) -> Result<LoggedPool<R>, AllocError>
    requires rules { IsTrue (keeps_rules base.settings) }
    requires base { IsBase base.settings count base }
    ensures { IfOk result (λ pool. machine_of pool ≡ record { start = record { rows = base; count = count }; pool = base; log = []; ready = None; held = nothing_held }) }
{
    let rows = R::of_rows(alloc, &base)?;
    let weight = rows_weight(&base);
    Ok(LoggedPool {
        alloc,
        rows,
        base,
        count,
        log: Vec::new(alloc),
        weight,
        added: 0,
    })
}

impl<R: PoolRows> Machine for LoggedPool<R> {
    ghost use Rattle.std.specs.Prelude.{IfSome};
    ghost use Rattle.swarm_model.specs.Fits.{fits};
    ghost use Rattle.swarm_model.specs.Answers.{answer};
    ghost use Rattle.swarm_model.specs.Deadlines.{due_entry};
    ghost use Rattle.swarm_model.specs.MachineState.{ShowsVerdict, ShowsOutput, ActsOnce, TakesOutcome};
    ghost use Rattle.pool_rules.specs.Costs.{asks_for_work};

    ghost kept = { machine_of };

    fn new(alloc: Global, settings: PoolSettings) -> Result<LoggedPool<R>, AllocError> {
        opened(alloc, PoolState::opening(alloc, settings), 0)
    }

    fn of_rows(alloc: Global, base: PoolState, count: u64) -> Result<LoggedPool<R>, AllocError> {
        opened(alloc, base, count)
    }

    /// At most one task row is read.
    fn due<L: Ledger>(&self, moment: u64, pass: u32, steps: &mut Steps<L>) -> Option<Entry>
        ensures entry { result ≡ due_entry self.now.pool moment pass }
        ensures cost { steps.new ≤ steps.old + 1 }
    {
        due_entry(&self.rows, moment, pass, steps)
    }

    /// For a bot that asks what to do, or for a task, at most one task row is read.
    fn answer<L: Ledger>(
        &self,
        who: &Text,
        moment: u64,
        pass: u32,
        request: &Request,
        steps: &mut Steps<L>,
    ) -> Result<Answer, AllocError>
        requires fits { IsTrue (fits self.now.pool.settings request.now) }
        requires not_before { self.now.pool.last ≤ moment }
        requires not_late { moment ≤ 2 ^ 40 }
        requires nothing_due { due_entry self.now.pool moment pass ≡ None }
        ensures exact { IfOk result (λ a. a ≡ answer self.now.pool who.now moment pass request.now) }
        ensures verdict { IfOk result (λ a. ShowsVerdict (machine_of self.now) request.now a.reply) }
        ensures repeats { IfOk result (λ a. ActsOnce (machine_of self.now) who.now request.now a.entry) }
        ensures output { IfOk result (λ a. ShowsOutput (machine_of self.now) request.now a.reply) }
        ensures outcome { IfOk result (λ a. IfSome a.entry (TakesOutcome (machine_of self.now))) }
        ensures cost { IsTrue (asks_for_work request.now) → steps.new ≤ steps.old + 1 }
    {
        let Decision { reply, entry } = decide(
            self.alloc, &self.rows, who, moment, request, steps,
        )?;
        Ok(Answer {
            reply,
            entry: entry_of(moment, pass, entry),
        })
    }

    fn reserve(&mut self, entry: &Entry) -> Result<(), ReserveFault> {
        self.rows.release();
        let weight = weight(entry);
        let settings = &self.base.settings;
        if self.log.len() >= settings.most_entries as usize
            || weight > u64::from(settings.most_weight) - self.weight
        {
            return Err(ReserveFault::LogFull);
        }
        if self.log.reserve(1).is_err() || self.rows.reserve(entry).is_err() {
            return Err(ReserveFault::Memory);
        }
        self.added = weight;
        Ok(())
    }

    fn commit(&mut self, entry: Entry, bytes: Option<&[u8]>) {
        // For the proof: the limits of the settings.
        let _most = self.base.settings.most_weight;
        self.rows.apply(&entry, bytes);
        self.weight += self.added;
        self.log.push_reserved(entry);
    }

    fn fill(&mut self, digest: &Digest, bytes: &[u8]) -> Filled {
        self.rows.fill(digest, bytes)
    }

    fn bytes(&self, digest: &Digest) -> Option<&[u8]> {
        self.rows.bytes(digest)
    }

    fn length(&self) -> u64 {
        self.count + self.log.len() as u64
    }

    fn entry(&self, at: u64) -> Option<&Entry> {
        entry_in(self.log.as_slice(), self.count, at)
    }

    fn tally(&self) -> [u64; 9] {
        self.rows.tally()
    }

    fn last(&self) -> u64 {
        self.rows.last()
    }

    fn placed(&self) -> u32 {
        self.rows.placed()
    }

    fn base(&self) -> &PoolState {
        &self.base
    }

    fn count(&self) -> u64 {
        self.count
    }

    fn blob(&self, no: u32) -> Option<&BlobRow> {
        self.rows.blob_numbered(no)
    }

    fn blob_at(&self, at: u32) -> Option<&BlobRow> {
        self.rows.blob_at(at)
    }

    fn task<L: Ledger>(&self, no: u32, steps: &mut Steps<L>) -> Option<&TaskRow> {
        self.rows.task_of(no, steps)
    }

    fn bot(&self, no: u32) -> Option<&BotRow> {
        self.rows.bot_of(no)
    }
}
