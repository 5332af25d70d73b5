ghost use Rattle.std.specs.Prelude.{◌≡◌, ◌<◌, ◌↔◌, ◌^◌, Some, false, length, IsTrue, is_some, OnOk, OnErr, IfSome, IsErrOf};
ghost use Rattle.sha2.specs.Sha256.{sha256};
ghost use Rattle.swarm_model.specs.Bytes.{brings, new_digest};
ghost use Rattle.swarm_model.specs.History.{MayFollow, has_room};
ghost use Rattle.swarm_model.specs.MachineState.{IsHistory};
ghost use Rattle.swarm_history.specs.Settling.{IsUnchanged, Adds};
ghost use Rattle.shared_doors.specs.Lasting.{lasting_of, IsStanding};

use crate::view::Lasting;
use pool_doors::CallFault;
use std::alloc::Global;
use swarm_history::add_entry;
use swarm_keeper::Keeper;
use swarm_model::{Entry, Machine};
use turnstile::Counted;

/// A machine with its keeper.
#[derive(Drop)]
pub struct Kept<M: Machine + Drop, K: Keeper + Drop> {
    pub machine: M,
    pub keeper: K,
}

impl<M: Machine + Drop, K: Keeper + Drop> Counted for Kept<M, K> {
    type Item = Entry;

    type Fixed = Lasting;

    ghost log = { λ k. (M.kept k.machine).log };

    ghost by = { λ e. e.pass };

    ghost fixed = { λ k. lasting_of (M.kept k.machine) };

    fn count(&self) -> u64 {
        self.machine.length() - self.machine.count()
    }
}

impl<M: Machine + Drop, K: Keeper + Drop> Kept<M, K> {
    /// Adds an entry, with the bytes that it brings. Where it stops, the log stays.
    pub(crate) fn add(
        &mut self,
        alloc: Global,
        entry: Entry,
        bytes: Option<&[u8]>,
    ) -> Result<(), CallFault>
        requires sure { IsTrue K.SURE }
        requires standing { IsStanding (lasting_of (M.kept self.old.machine)) }
        requires follows { MayFollow (M.kept self.old.machine).pool entry }
        requires history { IsHistory (M.kept self.old.machine) }
        requires brings { IfSome bytes (λ b. brings entry.kind ≡ Some (sha256 b.now, length b.now)) }
        requires whole { IsTrue (is_some (new_digest (M.kept self.old.machine).pool entry.kind)) → IsTrue (is_some bytes) }

        ensures lasting { lasting_of (M.kept self.new.machine) ≡ lasting_of (M.kept self.old.machine) }

        ensures added { OnOk result (Adds (M.kept self.old.machine) (M.kept self.new.machine) entry) }
        ensures short { OnOk result (length (M.kept self.old.machine).log < 2 ^ 32) }
        ensures stays { OnErr result (IsUnchanged (M.kept self.old.machine) (M.kept self.new.machine)) }
        ensures full { IsErrOf result CallFault.LogFull ↔ (has_room (M.kept self.old.machine).start.rows (M.kept self.old.machine).log entry ≡ false) }
        ensures no_fault { ¬ IsErrOf result CallFault.Keeper }
    {
        add_entry(alloc, &mut self.machine, &mut self.keeper, entry, bytes)
    }
}
