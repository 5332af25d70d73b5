//! A line or a request comes to the pool.
ghost use Rattle.std.specs.Prelude.{◌≡◌, ◌∷◌, [], Some, IsTrue, IfOk, OnErr};
ghost use Rattle.swarm_model.specs.Bytes.{Carries};
ghost use Rattle.swarm_model.specs.Fits.{fits};
ghost use Rattle.pool_loading.specs.Records.{AreFilled};
ghost use Rattle.swarm_history.specs.Calls.{first_call};
ghost use Rattle.server_calls.specs.declared.told.Told.TheVariants.{No as SpecNo};
ghost use Rattle.swarm_batch.specs.Batches.{next_line};
ghost use Rattle.batch_plays.specs.Asking.{told_of as spec_told_of};
ghost use Rattle.batch_plays.specs.Turns.{IsCalled, Settles, SendsLine};

use crate::asking::{Asking, asking_of};
use dimensions::{Seq, Text};
use pool_doors::CallFault;
use refusal_codes::RefusalCode;
use reply_bodies::code_of;
use server_calls::Told;
use std::alloc::{AllocError, Global};
use swarm_batch::Batch;
use swarm_history::serve_unkept;
use swarm_model::{Machine, Reply, Request, Rule, Settings};

fn refused(alloc: Global, code: RefusalCode) -> Told
    ensures { result ≡ SpecNo code [] }
{
    Told::No {
        code,
        body: Seq::new(alloc),
    }
}

/// What a reply of the only pool tells.
fn told_of(alloc: Global, reply: Reply) -> Told
    ensures { result ≡ spec_told_of reply }
{
    match reply {
        Reply::No(why) => refused(alloc, code_of(&why)),
        reply => Told::Good {
            place: 0,
            reply,
            bytes: Seq::new(alloc),
        },
    }
}

/// What the pool replies to a request. At a full log it refuses it.
pub(crate) fn ask_pool<M: Machine>(
    alloc: Global,
    machine: &mut M,
    moment: u64,
    who: &Text,
    request: &Request,
    bytes: &[u8],
) -> Result<Reply, AllocError>
    requires filled { AreFilled (M.kept machine.old) }
    requires fits { IsTrue (fits (M.kept machine.old).pool.settings request.now) }
    requires carries { Carries request.now bytes.now }

    ensures filled { AreFilled (M.kept machine.new) }
    ensures start { (M.kept machine.new).start ≡ (M.kept machine.old).start }
    ensures settings { (M.kept machine.new).pool.settings ≡ (M.kept machine.old).pool.settings }
    ensures called { IfOk result (IsCalled (M.kept machine.old).start (first_call who.now moment request.now) (M.kept machine.old).log (M.kept machine.new).log) }
    ensures settled { OnErr result (Settles (M.kept machine.old).log (M.kept machine.new).log) }
{
    match serve_unkept(alloc, machine, moment, who, request, bytes) {
        Ok(answered) => Ok(answered.reply),
        Err(CallFault::LogFull) => Ok(Reply::No(Rule::LogFull)),
        Err(CallFault::Memory) => Err(AllocError),
        Err(CallFault::Keeper) => unreachable!(),
    }
}

/// What the line that comes next is told, once it came to the pool.
pub(crate) fn ask_line<M: Machine>(
    alloc: Global,
    settings: &Settings,
    machine: &mut M,
    batch: &Batch,
    who: &Text,
    line: u32,
    moment: u64,
) -> Result<Told, AllocError>
    requires one { settings.now.pools ≡ (M.kept machine.old).pool.settings ∷ [] }
    requires filled { AreFilled (M.kept machine.old) }
    requires next { next_line batch.now ≡ Some line }

    ensures filled { AreFilled (M.kept machine.new) }
    ensures start { (M.kept machine.new).start ≡ (M.kept machine.old).start }
    ensures settings { (M.kept machine.new).pool.settings ≡ (M.kept machine.old).pool.settings }
    ensures sent { IfOk result (SendsLine settings.now who.now (M.kept machine.old).start batch.now line moment (M.kept machine.old).log (M.kept machine.new).log) }
    ensures settled { OnErr result (Settles (M.kept machine.old).log (M.kept machine.new).log) }
{
    let body = batch.body(alloc, line)?;
    match asking_of(alloc, settings, who, body)? {
        Asking::Asks(asked) => {
            let reply = ask_pool(
                alloc,
                machine,
                moment,
                who,
                &asked.request,
                asked.bytes.as_slice(),
            )?;
            Ok(told_of(alloc, reply))
        }
        Asking::Refused(code) => Ok(refused(alloc, code)),
    }
}
