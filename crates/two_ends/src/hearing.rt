//! The turns of a bot: it takes a reply or gets none, wakes, or hears of its command.
ghost use Rattle.std.specs.Prelude.{◌≡◌, ◌≤◌, [], List, None, IfOk, IfSome, OnOk, OnErr};
ghost use Rattle.bot_core.specs.Table.{action_of};
ghost use Rattle.swarm_model.specs.declared.entry.Entry.{Entry};
ghost use Rattle.swarm_model.specs.Bases.{Base};
ghost use Rattle.bot_worlds.specs.Turns.{answered, heard_child, told_by as spec_told_by, is_present as spec_is_present};
ghost use Rattle.bot_worlds.specs.World.{fed, newest};
ghost use Rattle.two_ends.specs.Ends.{world_with};

use crate::bot_end::BotEnd;
use crate::events::{asked_again, child_bytes, child_event, reply_event, told_run};
use bot_core::BotEvent;
use bot_worlds::{ChildRun, ChildTurn, Got};
use std::alloc::{AllocError, Global};

fn is_present(asking: Option<usize>, place: u32) -> bool
    ensures { result ≡ spec_is_present asking place }
{
    match asking {
        None => false,
        Some(present) => present == place as usize,
    }
}

impl BotEnd {
    /// The run that the reply answers a claim with.
    fn told_by(&self, alloc: Global, got: &Got) -> Result<Option<ChildRun>, AllocError>
        ensures { IfOk result (λ run. (start : Base) (log : List Entry) → run ≡ spec_told_by (world_with start log self.now) got.now) }
    {
        match self.sent.get(got.sent as usize) {
            None => Ok(None),
            Some(sent) => told_run(alloc, &sent.request, &got.reply),
        }
    }

    /// The bot takes a reply, where it is one to its present request.
    pub(crate) fn take_reply(
        &mut self,
        alloc: Global,
        place: u32,
        moment: u64,
    ) -> Result<(), AllocError>
        requires action { self.old.action ≡ action_of self.old.bot }
        requires once { IfSome (newest self.old.runs.items) (λ run. run.started ≤ 1) }
        ensures action { self.new.action ≡ action_of self.new.bot }
        ensures taken { OnOk result ((start : Base) (log : List Entry) → world_with start log self.new ≡ answered (world_with start log self.old) place moment) }
        ensures kept { OnErr result ((start : Base) (log : List Entry) → world_with start log self.new ≡ world_with start log self.old) }
    {
        let Some(got) = self.got.get(place as usize) else {
            return Ok(());
        };
        if !is_present(self.asking, got.sent) {
            return Ok(());
        }
        let Some(event) = reply_event(&got.reply) else {
            return Ok(());
        };
        let told = self.told_by(alloc, got)?;
        let again = asked_again(&event, self.asking);
        self.feed(alloc, event, moment, &[], told, again)
    }

    /// The bot gets no reply.
    pub(crate) fn lose(&mut self, alloc: Global, moment: u64) -> Result<(), AllocError>
        requires action { self.old.action ≡ action_of self.old.bot }
        requires once { IfSome (newest self.old.runs.items) (λ run. run.started ≤ 1) }
        ensures action { self.new.action ≡ action_of self.new.bot }
        ensures lost { OnOk result ((start : Base) (log : List Entry) → world_with start log self.new ≡ fed (world_with start log self.old) BotEvent.Lost moment [] None self.old.asking) }
        ensures kept { OnErr result ((start : Base) (log : List Entry) → world_with start log self.new ≡ world_with start log self.old) }
    {
        self.feed(alloc, BotEvent::Lost, moment, &[], None, self.asking)
    }

    /// A sleep of the bot is over.
    pub(crate) fn wake(&mut self, alloc: Global, moment: u64) -> Result<(), AllocError>
        requires action { self.old.action ≡ action_of self.old.bot }
        requires once { IfSome (newest self.old.runs.items) (λ run. run.started ≤ 1) }
        ensures action { self.new.action ≡ action_of self.new.bot }
        ensures woken { OnOk result ((start : Base) (log : List Entry) → world_with start log self.new ≡ fed (world_with start log self.old) BotEvent.Slept moment [] None self.old.asking) }
        ensures kept { OnErr result ((start : Base) (log : List Entry) → world_with start log self.new ≡ world_with start log self.old) }
    {
        self.feed(alloc, BotEvent::Slept, moment, &[], None, self.asking)
    }

    /// The bot hears of its command.
    pub(crate) fn hear_child(
        &mut self,
        alloc: Global,
        turn: &ChildTurn,
        moment: u64,
    ) -> Result<(), AllocError>
        requires action { self.old.action ≡ action_of self.old.bot }
        requires once { IfSome (newest self.old.runs.items) (λ run. run.started ≤ 1) }
        ensures action { self.new.action ≡ action_of self.new.bot }
        ensures heard { OnOk result ((start : Base) (log : List Entry) → world_with start log self.new ≡ heard_child (world_with start log self.old) turn.now moment) }
        ensures kept { OnErr result ((start : Base) (log : List Entry) → world_with start log self.new ≡ world_with start log self.old) }
    {
        let Some(event) = child_event(turn) else {
            return Ok(());
        };
        self.feed(alloc, event, moment, child_bytes(turn), None, None)
    }
}
