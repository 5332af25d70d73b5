//! What a copy answers to the requests that only read.
ghost use Rattle.std.specs.Prelude.{◌≡◌, ◌<◌, None, IfOk, IsTrue};
ghost use Rattle.swarm_model.specs.Answers.{decide};
ghost use Rattle.swarm_model.specs.Fits.{fits};
ghost use Rattle.swarm_model.specs.Soundness.{IsSound};
ghost use Rattle.pool_views.specs.Views.{reads_rows, reply_of};
ghost use Rattle.row_copies.specs.Kept.{now_of};

use crate::RowCopy;
use crate::sound_copy::SoundCopy;
use dimensions::Text;
use pool_queries::{list_bots, list_tasks, show_bot, task_count, task_result};
use std::alloc::{AllocError, Global};
use std::marker::Brand;
use std::sync::ledger::{Blank, Ledger};
use swarm_model::{Decision, Reply, Request, Steps};

/// What is decided of a request that only reads, at the moment of the last entry.
fn decide_read<L: Ledger>(
    alloc: Global,
    rows: &SoundCopy<'_>,
    who: &Text,
    request: &Request,
    steps: &mut Steps<L>,
) -> Result<Decision, AllocError>
    requires reads { IsTrue (reads_rows request.now) }
    requires fits { IsTrue (fits rows.now.settings request.now) }
    ensures { IfOk result (λ decision. decision ≡ decide rows.now who.now rows.now.last request.now) }
{
    match request {
        Request::Result { task, try_no } => task_result(alloc, rows, who, *task, *try_no, steps),
        Request::List {
            state,
            limit,
            below,
        } => list_tasks(alloc, rows, *state, *limit, *below, steps),
        Request::Count { state } => Ok(task_count(rows, *state)),
        Request::Bots { limit, after } => list_bots(alloc, rows, *limit, after, steps),
        Request::Bot { bot } => show_bot(alloc, rows, bot, steps),
        _ => unreachable!(),
    }
}

/// The reply alone: a request that only reads adds no entry.
fn reply_alone(decision: Decision) -> Reply
    ensures { result ≡ decision.reply }
{
    let Decision { reply, .. } = decision;
    reply
}

fn reply_by<L: Ledger>(
    alloc: Global,
    copy: &RowCopy,
    who: &Text,
    request: &Request,
    blank: Blank,
) -> Result<Reply, AllocError>
    requires sound { IsSound (now_of copy.now) }
    requires reads { IsTrue (reads_rows request.now) }
    requires fits { IsTrue (fits (now_of copy.now).settings request.now) }
    requires name { blank.name ≡ L.name }
    requires parts { blank.parts ≡ L.parts }
    requires some { 0 < blank.parts }
    ensures { IfOk result (λ reply. reply ≡ (decide (now_of copy.now) who.now (now_of copy.now).last request.now).reply) }
{
    let rows = SoundCopy::of(copy);
    let mut steps = Steps::<L>::open(blank);
    Ok(reply_alone(decide_read(alloc, &rows, who, request, &mut steps)?))
}

impl RowCopy {
    /// What a machine with these rows answers at the moment of their last entry. No deadline is
    /// settled before, and the rows that are read are not counted.
    ///
    /// # Errors
    ///
    /// Want of memory for the reply.
    pub fn reply(&self, alloc: Global, who: &Text, request: &Request) -> Result<Reply, AllocError>
        requires sound { IsSound (now_of self.now) }
        requires reads { IsTrue (reads_rows request.now) }
        requires fits { IsTrue (fits (now_of self.now).settings request.now) }
        ensures { IfOk result (λ reply. reply ≡ reply_of (now_of self.now) (record { caller = who.now; after = None; request = request.now })) }
    {
        reply_by::<Brand>(alloc, self, who, request, Blank::new(1))
    }
}
