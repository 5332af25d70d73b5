ghost use Rattle.std.specs.Prelude.{◌≡◌, ◌≤◌, ◌^◌, ◌↔◌, ◌++◌, ◌∷◌, [], length, true, false, None, Some, Ok, IsTrue, IfSome, IfOk, OnOk, OnErr, IsErrOf, option_map};
ghost use Rattle.std.specs.List.{sum_by};
ghost use Rattle.std.specs.Option.{option_copied};
ghost use Rattle.sha2.specs.Sha256.{sha256};
ghost use Rattle.swarm_model.specs.Settings.{keeps_rules};
ghost use Rattle.swarm_model.specs.Finding.{task_of, bot_of, blob_numbered, blob_placed, has_blob};
ghost use Rattle.swarm_model.specs.Fits.{fits};
ghost use Rattle.swarm_model.specs.Answers.{answer};
ghost use Rattle.swarm_model.specs.Bytes.{nothing_held, brings, held_after};
ghost use Rattle.swarm_model.specs.BaseRules.{IsBase};
ghost use Rattle.swarm_model.specs.Before.{HasRightRunsSince, accepted_since, verdict_tally_since};
ghost use Rattle.swarm_model.specs.Effects.{opening, after};
ghost use Rattle.swarm_model.specs.Bases.{empty_base, front, entry_from};
ghost use Rattle.swarm_model.specs.Deadlines.{due_entry};
ghost use Rattle.swarm_model.specs.History.{MayFollow, has_room, tally};
ghost use Rattle.swarm_model.specs.MachineState.{IsHistory, IsRight, KeepsFinals, ShowsVerdict, ShowsOutput, ActsOnce, TakesOutcome, Fills};

use crate::{Answer, BlobRow, BotRow, Entry, PoolSettings, PoolState, Request, Steps, TaskRow};
use blob_rows::Filled;
use dimensions::Text;
use std::alloc::{AllocError, Global};
use std::sync::ledger::Ledger;
use task_props::Digest;

/// Why an entry isn't made ready.
#[derive(Clone, Copy, Debug, PartialEq, Eq)]
pub enum ReserveFault {
    Memory,
    /// The log has as many entries, or weighs as much with the rows from which it begins, as it may.
    LogFull,
}

/// A pool that keeps its log, and its rows as the replay of that log from the base on which it was
/// opened.
///
/// Only `new`, `of_rows`, `answer` and `reserve` take memory.
pub trait Machine: Sized {
    ghost use Rattle.swarm_model.specs.MachineState.{MachineState};

    /// What the machine keeps.
    ghost kept: { Self → MachineState };

    /// A machine to which nothing led.
    fn new(alloc: Global, settings: PoolSettings) -> Result<Self, AllocError>
        requires { IsTrue (keeps_rules settings) }
        ensures { IfOk result (λ m. kept m ≡ record { start = empty_base settings; pool = opening settings; log = []; ready = None; held = nothing_held }) };

    /// A machine whose log begins from these rows, after so many entries. No bytes are held: `fill`
    /// brings them.
    fn of_rows(alloc: Global, base: PoolState, count: u64) -> Result<Self, AllocError>
        requires rules { IsTrue (keeps_rules base.settings) }
        requires base { IsBase base.settings count base }
        ensures { IfOk result (λ m. kept m ≡ record { start = record { rows = base; count = count }; pool = base; log = []; ready = None; held = nothing_held }) };

    /// The entry of the first deadline that has come by the moment.
    fn due<L: Ledger>(&self, moment: u64, pass: u32, steps: &mut Steps<L>) -> Option<Entry>
        ensures { result ≡ due_entry (kept self.now).pool moment pass };

    /// The reply to a request, and the entry that it adds.
    fn answer<L: Ledger>(
        &self,
        who: &Text,
        moment: u64,
        pass: u32,
        request: &Request,
        steps: &mut Steps<L>,
    ) -> Result<Answer, AllocError>
        requires fits { IsTrue (fits (kept self.now).pool.settings request.now) }
        requires not_before { (kept self.now).pool.last ≤ moment }
        requires not_late { moment ≤ 2 ^ 40 }
        requires nothing_due { due_entry (kept self.now).pool moment pass ≡ None }
        ensures exact { IfOk result (λ a. a ≡ answer (kept self.now).pool who.now moment pass request.now) }
        ensures verdict { IfOk result (λ a. ShowsVerdict (kept self.now) request.now a.reply) }
        ensures repeats { IfOk result (λ a. ActsOnce (kept self.now) who.now request.now a.entry) }
        ensures output { IfOk result (λ a. ShowsOutput (kept self.now) request.now a.reply) }
        ensures outcome { IfOk result (λ a. IfSome a.entry (TakesOutcome (kept self.now))) };

    /// Makes ready all that the entry's change needs, so that `commit` takes no memory.
    fn reserve(&mut self, entry: &Entry) -> Result<(), ReserveFault>
        ensures ok { OnOk result (kept self.new ≡ record (kept self.old) { ready = Some entry.now }) }
        ensures err { OnErr result (kept self.new ≡ record (kept self.old) { ready = None }) }
        ensures room { OnOk result (IsTrue (has_room (kept self.old).start.rows (kept self.old).log entry.now)) }
        ensures full { IsErrOf result ReserveFault.LogFull ↔ (has_room (kept self.old).start.rows (kept self.old).log entry.now ≡ false) };

    /// Adds the entry that was reserved just before. `bytes` are those of the content that is put, or
    /// of the chunk that is reported; they are held where the entry places a blob. In a replay there
    /// are none, and `fill` brings them afterwards.
    fn commit(&mut self, entry: Entry, bytes: Option<&[u8]>)
        requires ready { (kept self.old).ready ≡ Some entry }
        requires follows { MayFollow (kept self.old).pool entry }
        requires room { IsTrue (has_room (kept self.old).start.rows (kept self.old).log entry) }
        requires bytes { IfSome bytes (λ b. brings entry.kind ≡ Some (sha256 b.now, length b.now)) }
        ensures right { IsRight (kept self.old) entry }
        ensures finals { KeepsFinals (kept self.old) (kept self.new) }
        ensures added { kept self.new ≡ record (kept self.old) { pool = after (kept self.old).pool entry; log = (kept self.old).log ++ entry ∷ []; ready = None; held = held_after (kept self.old).pool entry.kind (option_map (λ b. b.now) bytes.entry) (kept self.old).held } };

    /// Brings the bytes of a blob.
    fn fill(&mut self, digest: &Digest, bytes: &[u8]) -> Filled
        ensures fills { Fills (kept self.old) (kept self.new) digest.now bytes.now result };

    /// The bytes that are held under the digest.
    fn bytes(&self, digest: &Digest) -> Option<&[u8]>
        ensures held { option_map (λ b. b.now) result ≡ (kept self.now).held digest.now }
        ensures named { IfSome result (λ b. sha256 b.now ≡ digest.now) }
        ensures sized { IfSome result (λ b. IsTrue (has_blob (kept self.now).pool digest.now (length b.now))) };

    /// The length of the log, with the entries that led to its base.
    fn length(&self) -> u64
        ensures length { result ≡ front (kept self.now).start (kept self.now).log }
        ensures history { IsHistory (kept self.now) };

    /// The entry at a place that counts from the first entry of all. None of those that led to the base is
    /// there.
    fn entry(&self, at: u64) -> Option<&Entry>
        ensures { option_copied result ≡ entry_from (kept self.now).start (kept self.now).log at };

    /// How many tasks are in each of the nine states, in the order of [`TaskState`](crate::TaskState).
    fn tally(&self) -> [u64; 9]
        ensures tally { result ≡ tally (kept self.now).pool }
        ensures verdicts { result ≡ verdict_tally_since (kept self.now).start.rows (kept self.now).log }
        ensures total { sum_by (λ count. count) result ≡ accepted_since (kept self.now).start.rows (kept self.now).log };

    /// The moment of the last entry; where there is none, that of the base.
    fn last(&self) -> u64
        ensures last { result ≡ (kept self.now).pool.last };

    /// How many blobs were ever placed.
    fn placed(&self) -> u32
        ensures { result ≡ (kept self.now).pool.placed };

    /// The rows from which the log begins.
    fn base(&self) -> &PoolState
        ensures { result.now ≡ (kept self.now).start.rows };

    /// How many entries led to these.
    fn count(&self) -> u64
        ensures { result ≡ (kept self.now).start.count };

    /// The blob row of this number.
    fn blob(&self, no: u32) -> Option<&BlobRow>
        ensures { option_copied result ≡ blob_numbered (kept self.now).pool no };

    /// The blob row at this place of the rows, from 0.
    fn blob_at(&self, at: u32) -> Option<&BlobRow>
        ensures { option_copied result ≡ blob_placed (kept self.now).pool at };

    fn task<L: Ledger>(&self, no: u32, steps: &mut Steps<L>) -> Option<&TaskRow>
        ensures row { option_copied result ≡ task_of (kept self.now).pool no }
        ensures runs { IfSome (option_copied result) (HasRightRunsSince (kept self.now).start.rows (kept self.now).pool (kept self.now).log) };

    fn bot(&self, no: u32) -> Option<&BotRow>
        ensures { option_copied result ≡ bot_of (kept self.now).pool no };
}
