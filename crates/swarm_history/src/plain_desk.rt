use crate::adding::add_entry;
use crate::desk::Desk;
use crate::pieces::pieces_of;
use dimensions::{Seq, Text};
use pool_doors::CallFault;
use std::alloc::{AllocError, Global};
use swarm_keeper::Keeper;
use swarm_model::{Answer, Entry, Machine, Reply, Request, answer_uncounted, due_uncounted};

/// A machine and a keeper that no other writes to. Its entries bear the number 0.
pub(crate) struct PlainDesk<'a, M: Machine, K: Keeper> {
    pub(crate) machine: &'a mut M,
    pub(crate) keeper: &'a mut K,
}

impl<'a, M: Machine, K: Keeper> Desk for PlainDesk<'a, M, K> {
    ghost use Rattle.pool_doors.specs.Doors.{base_told};
    ghost use Rattle.pool_loading.specs.Records.{AreFilled};
    ghost use Rattle.swarm_history.specs.Records.{AreMachineRecords};

    /// The names of the two references, and what the keeper tells of where the log begins.
    type Rest = (u64, u64, Option<(Seq<Text>, u64)>);

    ghost ready = { λ d. AreFilled (M.kept d.machine.now) × AreMachineRecords (K.tables d.keeper.now) (M.kept d.machine.now) };

    ghost kept = { λ d. M.kept d.machine.now };

    ghost records = { λ d. K.tables d.keeper.now };

    ghost faults = { λ d. K.faults d.keeper.now };

    ghost number = { λ d. 0 };

    ghost rest = { λ d. (d.machine.ghost_name, d.keeper.ghost_name, base_told (K.tables d.keeper.now)) };

    fn length(&mut self) -> u64 {
        self.machine.length()
    }

    fn last(&mut self) -> u64 {
        self.machine.last()
    }

    fn due(&mut self, moment: u64) -> Option<Entry> {
        due_uncounted(self.machine, moment, 0)
    }

    fn answer(&mut self, who: &Text, moment: u64, request: &Request) -> Result<Answer, AllocError> {
        answer_uncounted(self.machine, who, moment, 0, request)
    }

    fn pieces(&mut self, alloc: Global, reply: &Reply) -> Result<Seq<Seq<u8>>, AllocError> {
        pieces_of(alloc, self.machine, reply)
    }

    fn add(&mut self, alloc: Global, entry: Entry, bytes: Option<&[u8]>) -> Result<(), CallFault> {
        add_entry(alloc, self.machine, self.keeper, entry, bytes)
    }
}
