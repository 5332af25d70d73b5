ghost use Rattle.std.specs.Prelude.{◌≡◌, ◌≤◌, ◌^◌, None, Some, length, is_some, IsTrue, IfOk, IfErr, IfSome, OnErr};
ghost use Rattle.std.specs.Bool.{OnTrue};
ghost use Rattle.sha2.specs.Sha256.{sha256};
ghost use Rattle.swarm_model.specs.Bytes.{Carries, brings};
ghost use Rattle.swarm_model.specs.Fits.{fits};
ghost use Rattle.swarm_model.specs.Answers.{answer};
ghost use Rattle.swarm_model.specs.Deadlines.{due_entry};
ghost use Rattle.swarm_model.specs.MachineState.{IsHistory};
ghost use Rattle.swarm_model.specs.Points.{LacksRoom};
ghost use Rattle.pool_doors.specs.Calls.{call_of};
ghost use Rattle.pool_doors.specs.Doors.{is_log_full, CountsKeeper};
ghost use Rattle.swarm_history.specs.Records.{HoldsNoOthers};
ghost use Rattle.swarm_history.specs.Settling.{IsUnchanged, Responds, HasFrontAndPieces, IsPointAlone, IsOwnStop};

use crate::desk::Desk;
use crate::settling::settle;
use dimensions::Seq;
use pool_doors::{Answered, CallFault, PoolCall};
use std::alloc::Global;
use swarm_model::{Answer, Entry, EntryKind, Reply, Rule, is_ahead};

/// The greatest moment of an entry.
const MOST_MOMENT: u64 = 1 << 40;

/// The request's bytes, where the entry brings them.
fn brought_by<'a>(entry: &Entry, bytes: &'a [u8]) -> Option<&'a [u8]>
    requires carried { IfSome (brings entry.now.kind) (λ b. b ≡ (sha256 bytes.now, length bytes.now)) }
    ensures brings { IfSome result (λ b. brings entry.now.kind ≡ Some (sha256 b.now, length b.now)) }
    ensures whole { is_some result ≡ is_some (brings entry.now.kind) }
{
    match &entry.kind {
        EntryKind::Put { .. } | EntryKind::Update { chunk: Some(_), .. } => Some(bytes),
        _ => None,
    }
}

/// Answers a request at this moment, where nothing is due. Where it stops, the log stays.
fn respond<D: Desk>(
    alloc: Global,
    desk: &mut D,
    moment: u64,
    call: &PoolCall,
) -> Result<Answered, CallFault>
    requires ready { D.ready desk.old }
    requires fits { IsTrue (fits (D.kept desk.old).pool.settings call.now.request.now) }
    requires carries { Carries call.now.request.now call.now.bytes.now }
    requires history { IsHistory (D.kept desk.old) }
    requires not_before { (D.kept desk.old).pool.last ≤ moment }
    requires not_late { moment ≤ 2 ^ 40 }
    requires nothing_due { due_entry (D.kept desk.old).pool moment (D.number desk.old) ≡ None }

    ensures ready { D.ready desk.new }
    ensures no_other_blobs { HoldsNoOthers (D.records desk.old) (D.kept desk.old) → HoldsNoOthers (D.records desk.new) (D.kept desk.new) }

    ensures answers { IfOk result (λ a. Responds (D.number desk.old) call.now.who.now moment call.now.request.now (D.kept desk.old) (D.kept desk.new) a.reply) }
    ensures shows { IfOk result (HasFrontAndPieces (D.kept desk.new)) }
    ensures stays { OnErr result (IsUnchanged (D.kept desk.old) (D.kept desk.new)) }
    ensures full { IfErr result (λ f. OnTrue (is_log_full f) (LacksRoom (D.kept desk.old).start.rows (D.kept desk.old).log (answer (D.kept desk.old).pool call.now.who.now moment (D.number desk.old) call.now.request.now).entry)) }

    ensures grows { D.faults desk.old ≤ D.faults desk.new }
    ensures failed { CountsKeeper result (D.faults desk.old) (D.faults desk.new) }

    // What the desk was made of can be taken out of it again.
    ensures number { D.number desk.new ≡ D.number desk.old }
    ensures rest { D.rest desk.new ≡ D.rest desk.old }
{
    let Ok(answer) = desk.answer(call.who, moment, call.request) else {
        return Err(CallFault::Memory);
    };
    let Answer { reply, entry } = answer;
    let Ok(pieces) = desk.pieces(alloc, &reply) else {
        return Err(CallFault::Memory);
    };
    if let Some(entry) = entry {
        let brought = brought_by(&entry, call.bytes);
        desk.add(alloc, entry, brought)?;
    }
    Ok(Answered {
        front: desk.length(),
        reply,
        pieces,
    })
}

/// Settles what is due, and answers a request at the end of the log. Where it stops, no entry of
/// the request's own is added.
pub fn serve<D: Desk>(alloc: Global, desk: &mut D, call: &PoolCall) -> Result<Answered, CallFault>
    requires ready { D.ready desk.old }
    requires fits { IsTrue (fits (D.kept desk.old).pool.settings call.now.request.now) }
    requires carries { Carries call.now.request.now call.now.bytes.now }

    ensures ready { D.ready desk.new }
    ensures no_other_blobs { HoldsNoOthers (D.records desk.old) (D.kept desk.old) → HoldsNoOthers (D.records desk.new) (D.kept desk.new) }

    ensures history { IsHistory (D.kept desk.old) }
    ensures start { (D.kept desk.new).start ≡ (D.kept desk.old).start }
    ensures settings { (D.kept desk.new).pool.settings ≡ (D.kept desk.old).pool.settings }
    ensures point { IfOk result (λ a. IsPointAlone (D.kept desk.old).start (call_of (D.number desk.old) call.now) (D.kept desk.old).log (D.kept desk.new).log a.reply) }
    ensures shows { IfOk result (HasFrontAndPieces (D.kept desk.new)) }

    // What was settled before it stopped stays in the log.
    ensures stopped { IfErr result (λ f. IsOwnStop (D.kept desk.old).start (call_of (D.number desk.old) call.now) (D.kept desk.old).log (D.kept desk.new).log (is_log_full f)) }

    ensures grows { D.faults desk.old ≤ D.faults desk.new }
    ensures failed { CountsKeeper result (D.faults desk.old) (D.faults desk.new) }

    // What the desk was made of can be taken out of it again.
    ensures number { D.number desk.new ≡ D.number desk.old }
    ensures rest { D.rest desk.new ≡ D.rest desk.old }
{
    let length = desk.length();
    if is_ahead(length, call.after) {
        return Ok(Answered {
            front: length,
            reply: Reply::No(Rule::FrontAhead { length }),
            pieces: Seq::new(alloc),
        });
    }
    let moment = desk.last().max(call.moment.min(MOST_MOMENT));
    settle(alloc, desk, moment)?;
    respond(alloc, desk, moment, call)
}
