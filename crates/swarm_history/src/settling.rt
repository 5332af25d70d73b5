ghost use Rattle.std.specs.Prelude.{◌≡◌, ◌≤◌, ◌^◌, None, OnOk, IfErr, IsErrOf};
ghost use Rattle.std.specs.Bool.{OnTrue};
ghost use Rattle.sw_base.specs.Faults.{Rose};
ghost use Rattle.swarm_model.specs.Deadlines.{due_entry};
ghost use Rattle.swarm_model.specs.MachineState.{IsHistory};
ghost use Rattle.swarm_model.specs.Points.{LacksRoom};
ghost use Rattle.pool_doors.specs.Doors.{is_log_full};
ghost use Rattle.swarm_history.specs.Records.{HoldsNoOthers};
ghost use Rattle.swarm_history.specs.Settling.{Settles};

use crate::desk::Desk;
use pool_doors::CallFault;
use std::alloc::Global;

/// Adds the entry of each deadline that has come by the moment, one after another. Where it
/// stops, those that were added stay.
pub(crate) fn settle<D: Desk>(alloc: Global, desk: &mut D, moment: u64) -> Result<(), CallFault>
    requires ready { D.ready desk.old }
    requires history { IsHistory (D.kept desk.old) }
    requires not_before { (D.kept desk.old).pool.last ≤ moment }
    requires not_late { moment ≤ 2 ^ 40 }

    ensures ready { D.ready desk.new }
    ensures no_other_blobs { HoldsNoOthers (D.records desk.old) (D.kept desk.old) → HoldsNoOthers (D.records desk.new) (D.kept desk.new) }

    ensures settles { Settles (D.number desk.old) moment (D.kept desk.old) (D.kept desk.new) }
    ensures nothing_due { OnOk result (due_entry (D.kept desk.new).pool moment (D.number desk.old) ≡ None) }
    ensures full { IfErr result (λ f. OnTrue (is_log_full f) (LacksRoom (D.kept desk.new).start.rows (D.kept desk.new).log (due_entry (D.kept desk.new).pool moment (D.number desk.old)))) }

    ensures grows { D.faults desk.old ≤ D.faults desk.new }
    ensures failed { IsErrOf result CallFault.Keeper → Rose (D.faults desk.old) (D.faults desk.new) }

    // What the desk was made of can be taken out of it again.
    ensures number { D.number desk.new ≡ D.number desk.old }
    ensures rest { D.rest desk.new ≡ D.rest desk.old }
{
    while let Some(entry) = desk.due(moment) {
        desk.add(alloc, entry, None)?;
    }
    Ok(())
}
