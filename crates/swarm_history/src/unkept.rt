ghost use Rattle.std.specs.Prelude.{◌≡◌, IsTrue, IfOk, IfErr, IsErrOf};
ghost use Rattle.swarm_model.specs.Bytes.{Carries};
ghost use Rattle.swarm_model.specs.Fits.{fits};
ghost use Rattle.swarm_model.specs.MachineState.{IsHistory};
ghost use Rattle.pool_doors.specs.Doors.{is_log_full};
ghost use Rattle.pool_loading.specs.Records.{AreFilled};
ghost use Rattle.swarm_history.specs.Calls.{first_call};
ghost use Rattle.swarm_history.specs.Settling.{HasFrontAndPieces, IsPointAlone, IsOwnStop};

use crate::plain_desk::PlainDesk;
use crate::serving::serve;
use dimensions::Text;
use pool_doors::{Answered, CallFault, PoolCall};
use std::alloc::Global;
use swarm_keeper::NoKeeper;
use swarm_model::{Machine, Request};

/// Settles what is due in a machine that nobody keeps records of, and answers a request at the end
/// of its log. Where it stops, no entry of the request's own is added.
pub fn serve_unkept<M: Machine>(
    alloc: Global,
    machine: &mut M,
    moment: u64,
    who: &Text,
    request: &Request,
    bytes: &[u8],
) -> Result<Answered, CallFault>
    requires filled { AreFilled (M.kept machine.old) }
    requires fits { IsTrue (fits (M.kept machine.old).pool.settings request.now) }
    requires carries { Carries request.now bytes.now }

    ensures filled { AreFilled (M.kept machine.new) }

    ensures history { IsHistory (M.kept machine.old) }
    ensures start { (M.kept machine.new).start ≡ (M.kept machine.old).start }
    ensures settings { (M.kept machine.new).pool.settings ≡ (M.kept machine.old).pool.settings }
    ensures point { IfOk result (λ a. IsPointAlone (M.kept machine.old).start (first_call who.now moment request.now) (M.kept machine.old).log (M.kept machine.new).log a.reply) }
    ensures shows { IfOk result (HasFrontAndPieces (M.kept machine.new)) }

    // What was settled before it stopped stays in the log.
    ensures stopped { IfErr result (λ f. IsOwnStop (M.kept machine.old).start (first_call who.now moment request.now) (M.kept machine.old).log (M.kept machine.new).log (is_log_full f)) }

    // There is no keeper that fails.
    ensures sure { ¬ IsErrOf result CallFault.Keeper }
{
    let mut keeper = NoKeeper;
    let mut desk = PlainDesk {
        machine,
        keeper: &mut keeper,
    };
    let call = PoolCall {
        moment,
        after: None,
        who,
        request,
        bytes,
    };
    let result = serve(alloc, &mut desk, &call);
    let PlainDesk {
        machine: _,
        keeper: _,
    } = desk;
    result
}
