ghost use Rattle.std.specs.Prelude.{◌≡◌, ◌≤◌, ◌↔◌, ◌^◌, ℕ, None, Some, Option, false, length, IsTrue, is_some, OnOk, OnErr, IfOk, IfSome, IsErrOf};
ghost use Rattle.sha2.specs.Sha256.{sha256};
ghost use Rattle.sw_base.specs.Faults.{Rose};
ghost use Rattle.swarm_keeper.specs.Tables.{Tables};
ghost use Rattle.swarm_model.specs.Answers.{answer};
ghost use Rattle.swarm_model.specs.Bases.{front};
ghost use Rattle.swarm_model.specs.Bytes.{brings, new_digest};
ghost use Rattle.swarm_model.specs.Deadlines.{due_entry};
ghost use Rattle.swarm_model.specs.Fits.{fits};
ghost use Rattle.swarm_model.specs.History.{MayFollow, has_room};
ghost use Rattle.swarm_model.specs.MachineState.{MachineState, IsHistory};
ghost use Rattle.pool_doors.specs.Doors.{ArePieces};
ghost use Rattle.pool_laws.specs.NamedBlobs.{HasNamed};
ghost use Rattle.swarm_history.specs.Records.{HoldsNoOthers};
ghost use Rattle.swarm_history.specs.Settling.{IsUnchanged, Adds};

use dimensions::{Seq, Text};
use pool_doors::CallFault;
use std::alloc::{AllocError, Global};
use swarm_model::{Answer, Entry, Reply, Request};

/// A machine with its keeper, which is read, and to which entries of one number are added.
pub trait Desk {
    /// What stays as entries are added.
    type Rest;

    /// What holds between two calls.
    ghost ready: { Self → Type 0 };

    /// What the machine keeps.
    ghost kept: { Self → MachineState };

    /// What the keeper tells.
    ghost records: { Self → Option Tables };

    /// How often the keeper failed.
    ghost faults: { Self → ℕ };

    /// The number that its entries bear.
    ghost number: { Self → ℕ };

    ghost rest: { Self → Self.Rest };

    /// The length of the log, with the entries that led to its base.
    fn length(&mut self) -> u64
        requires ready { ready self.old }
        ensures same { self.new ≡ self.old }
        ensures length { result ≡ front (kept self.old).start (kept self.old).log }
        ensures history { IsHistory (kept self.old) };

    /// The moment of the last entry; where there is none, that of the base.
    fn last(&mut self) -> u64
        requires ready { ready self.old }
        ensures same { self.new ≡ self.old }
        ensures last { result ≡ (kept self.old).pool.last };

    /// The entry of the first deadline that has come by the moment.
    fn due(&mut self, moment: u64) -> Option<Entry>
        requires ready { ready self.old }
        ensures same { self.new ≡ self.old }
        ensures due { result ≡ due_entry (kept self.old).pool moment (number self.old) };

    /// The reply to a request, and the entry that it adds.
    fn answer(&mut self, who: &Text, moment: u64, request: &Request) -> Result<Answer, AllocError>
        requires ready { ready self.old }
        requires fits { IsTrue (fits (kept self.old).pool.settings request.now) }
        requires not_before { (kept self.old).pool.last ≤ moment }
        requires not_late { moment ≤ 2 ^ 40 }
        requires nothing_due { due_entry (kept self.old).pool moment (number self.old) ≡ None }
        ensures same { self.new ≡ self.old }
        ensures exact { IfOk result (λ a. a ≡ answer (kept self.old).pool who.now moment (number self.old) request.now) };

    /// Copies of the blobs that a reply names, in their order.
    fn pieces(&mut self, alloc: Global, reply: &Reply) -> Result<Seq<Seq<u8>>, AllocError>
        requires ready { ready self.old }
        requires present { HasNamed (kept self.old).pool reply.now }
        ensures same { self.new ≡ self.old }
        ensures pieces { IfOk result (ArePieces reply.now) };

    /// Adds an entry, with the bytes that it brings. Where it stops, the log and the records stay.
    fn add(&mut self, alloc: Global, entry: Entry, bytes: Option<&[u8]>) -> Result<(), CallFault>
        requires ready { ready self.old }
        requires number { entry.pass ≡ number self.old }
        requires follows { MayFollow (kept self.old).pool entry }
        requires history { IsHistory (kept self.old) }
        requires brings { IfSome bytes (λ b. brings entry.kind ≡ Some (sha256 b.now, length b.now)) }
        requires whole { IsTrue (is_some (new_digest (kept self.old).pool entry.kind)) → IsTrue (is_some bytes) }

        ensures ready { ready self.new }
        ensures no_other_blobs { HoldsNoOthers (records self.old) (kept self.old) → HoldsNoOthers (records self.new) (kept self.new) }

        ensures added { OnOk result (Adds (kept self.old) (kept self.new) entry) }
        ensures stays { OnErr result (IsUnchanged (kept self.old) (kept self.new)) }
        ensures full { IsErrOf result CallFault.LogFull ↔ (has_room (kept self.old).start.rows (kept self.old).log entry ≡ false) }

        ensures grows { faults self.old ≤ faults self.new }
        ensures failed { IsErrOf result CallFault.Keeper → Rose (faults self.old) (faults self.new) }

        ensures number { number self.new ≡ number self.old }
        ensures rest { rest self.new ≡ rest self.old };
}
