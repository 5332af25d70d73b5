ghost use Rattle.std.specs.Prelude.{◌≡◌, ◌≤◌, ◌+◌, IfOk, IsTrue};
ghost use Rattle.swarm_model.specs.Fits.{fits};
ghost use Rattle.swarm_model.specs.Answers.{decide};
ghost use Rattle.pool_rules.specs.Costs.{asks_for_work};

use crate::canceling::cancel;
use crate::claiming::claim;
use crate::events::event;
use crate::handshakes::handshake;
use crate::new_tasks::new_task;
use crate::polling::poll;
use crate::putting::put_blob;
use crate::terminating::terminate;
use crate::updating::update;
use dimensions::Text;
use pool_queries::{
    PoolQueries, find_missing, get_blob, list_bots, list_tasks, show_bot, stdout, task_count,
    task_result,
};
use std::alloc::{AllocError, Global};
use std::sync::ledger::Ledger;
use swarm_model::{Decision, Request, Steps};

/// The reply to a request at a moment, and the entry that it adds. A bot that asks for work costs
/// at most one step.
pub fn decide<P: PoolQueries, L: Ledger>(
    alloc: Global,
    pool: &P,
    who: &Text,
    moment: u64,
    request: &Request,
    steps: &mut Steps<L>,
) -> Result<Decision, AllocError>
    requires { IsTrue (fits (P.state pool.now).settings request.now) }
    ensures value { IfOk result (λ decision. decision ≡ decide (P.state pool.now) who.now moment request.now) }
    ensures cost { IsTrue (asks_for_work request.now) → steps.new ≤ steps.old + 1 }
{
    match request {
        Request::New(task) => new_task(alloc, pool, who, moment, task, steps),
        Request::Cancel { task, try_no, kill } => {
            cancel(alloc, pool, who, *task, *try_no, *kill, steps)
        }
        Request::Result { task, try_no } => task_result(alloc, pool, who, *task, *try_no, steps),
        Request::Stdout {
            task,
            try_no,
            offset,
            length,
        } => stdout(alloc, pool, who, *task, *try_no, *offset, *length, steps),
        Request::List {
            state,
            limit,
            below,
        } => list_tasks(alloc, pool, *state, *limit, *below, steps),
        Request::Count { state } => Ok(task_count(pool, *state)),
        Request::Handshake {
            bot,
            session,
            dims,
            quarantined,
        } => handshake(alloc, pool, bot, session, dims, quarantined),
        Request::Poll {
            bot,
            dims,
            quarantined,
        } => poll(alloc, pool, bot, dims, quarantined, steps),
        Request::Claim { bot, claim: id } => claim(alloc, pool, bot, id, steps),
        Request::Event { bot, kind, message } => event(alloc, pool, bot, *kind, message),
        Request::Update {
            bot,
            task,
            try_no,
            chunk,
            last,
        } => update(alloc, pool, bot, *task, *try_no, *chunk, last, steps),
        Request::Terminate { bot } => Ok(terminate(pool, bot)),
        Request::Bots { limit, after } => list_bots(alloc, pool, *limit, after, steps),
        Request::Bot { bot } => show_bot(alloc, pool, bot, steps),
        Request::PutBlob {
            named,
            actual,
            size,
        } => Ok(put_blob(pool, named, actual, *size)),
        Request::GetBlob { digest } => Ok(get_blob(pool, digest)),
        Request::FindMissing { blobs } => find_missing(alloc, pool, blobs.as_slice()),
    }
}
