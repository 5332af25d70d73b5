//! What a bot does with an event.
ghost use Rattle.std.specs.Prelude.{◌≡◌, ◌≤◌, ◌<◌, List, length, vec_len, vec_capacity, IfOk, IfSome, OnOk, OnErr};
ghost use Rattle.bot_core.specs.declared.bot_state.BotState.{BotState};
ghost use Rattle.bot_core.specs.Output.{waiting_after as spec_waiting_after, waiting_at};
ghost use Rattle.bot_core.specs.Table.{action_of};
ghost use Rattle.swarm_model.specs.declared.entry.Entry.{Entry};
ghost use Rattle.swarm_model.specs.Bases.{Base};
ghost use Rattle.bot_worlds.specs.declared.sent.Sent.{Sent};
ghost use Rattle.bot_worlds.specs.World.{asking_after as spec_asking_after, fed, newest, sent_after};
ghost use Rattle.two_ends.specs.Ends.{world_with};

use crate::bot_end::BotEnd;
use crate::requests::{first_bytes, request_by};
use crate::runs::{change_runs, run_after};
use bot_core::{Action, BotEvent};
use bot_worlds::{ChildRun, Sent};
use std::alloc::{AllocError, Global};

/// How many bytes may wait to be sent.
const MOST_PENDING: u32 = 16384;

/// The bytes that wait after an event. A look cuts them first, to those that are pending.
fn waiting_after(
    alloc: Global,
    action: &Action,
    event: &BotEvent,
    bytes: &[u8],
    waiting: &[u8],
) -> Result<Vec<u8>, AllocError>
    ensures { IfOk result (λ after. after.items ≡ spec_waiting_after event.now bytes.now (waiting_at action.now waiting.now)) }
{
    let kept = match action {
        Action::Look { room } => first_bytes(waiting, MOST_PENDING.saturating_sub(*room)),
        _ => waiting,
    };
    let mut after = Vec::from_slice(alloc, kept)?;
    if let BotEvent::Output { .. } = event {
        after.extend_from_slice(bytes)?;
    }
    Ok(after)
}

/// The place of the present request: that of one that is sent again, or behind all that were sent. A bot
/// that sleeps keeps it.
pub(crate) fn asking_after(
    request: &Option<Sent>,
    action: &Action,
    again: Option<usize>,
    count: usize,
) -> Option<usize>
    ensures { (s : BotState) (sent : List Sent) → action.now ≡ action_of s → count ≡ length sent → result ≡ spec_asking_after request.now s.awaited again sent }
{
    match request {
        Some(_) => match again {
            None => Some(count),
            Some(place) => Some(place),
        },
        None => match action {
            Action::Sleep { .. } => again,
            _ => None,
        },
    }
}

/// A request that is sent again is at its place; any other stands behind all.
pub(crate) fn add_request(sent: &mut Vec<Sent>, request: Option<Sent>, again: Option<usize>)
    requires { vec_len sent.old < vec_capacity sent.old }
    ensures { sent.new.items ≡ sent_after request again sent.old.items }
{
    if let Some(request) = request {
        if again.is_none() {
            sent.push_reserved(request);
        }
    }
}

impl BotEnd {
    /// The bot takes an event, where it can come, and its action sends the next request. `bytes` are
    /// those of an output, `told` is the run that a claim was answered with, and `again` the place of
    /// the present request where it is to be sent again. Where memory is wanted, all stays.
    pub(crate) fn feed(
        &mut self,
        alloc: Global,
        event: BotEvent,
        moment: u64,
        bytes: &[u8],
        told: Option<ChildRun>,
        again: Option<usize>,
    ) -> Result<(), AllocError>
        requires action { self.old.action ≡ action_of self.old.bot }
        requires once { IfSome (newest self.old.runs.items) (λ run. run.started ≤ 1) }
        ensures action { self.new.action ≡ action_of self.new.bot }
        ensures fed { OnOk result ((start : Base) (log : List Entry) → world_with start log self.new ≡ fed (world_with start log self.old) event moment bytes.now told again) }
        ensures kept { OnErr result ((start : Base) (log : List Entry) → world_with start log self.new ≡ world_with start log self.old) }
    {
        if !self.bot.expects(&event) {
            return Ok(());
        }
        let mut bot = self.bot.copied();
        let action = bot.step(event, moment);
        let pending = waiting_after(alloc, &self.action, &event, bytes, self.pending.as_slice())?;
        let run = run_after(self.runs.as_slice(), &event, &told);
        let waiting = pending.as_slice();
        let request = request_by(alloc, &self.name, &self.dims, run, waiting, &action)?;
        self.sent.reserve(1)?;
        change_runs(alloc, &mut self.runs, &event, bytes, told)?;
        self.asking = asking_after(&request, &action, again, self.sent.len());
        add_request(&mut self.sent, request, again);
        self.bot = bot;
        self.action = action;
        self.pending = pending;
        Ok(())
    }
}
