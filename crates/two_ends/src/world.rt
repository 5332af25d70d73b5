ghost use Rattle.std.specs.Prelude.{◌≡◌, ◌<◌, ◌^◌, IfOk, IsTrue, None, OnOk, OnErr};
ghost use Rattle.bot_core.specs.Table.{action_of};
ghost use Rattle.swarm_model.specs.Finding.{bot_named};
ghost use Rattle.swarm_model.specs.Fits.{fits_bot};
ghost use Rattle.pool_loading.specs.Records.{AreFilled};
ghost use Rattle.bot_worlds.specs.Turns.{IsSettledFrom, Turned};
ghost use Rattle.bot_worlds.specs.TwoEnds.{OutputIsPrefix, StartsOnce};
ghost use Rattle.bot_worlds.specs.World.{Begins};

use crate::bot_end::BotEnd;
use crate::feeding::{add_request, asking_after};
use crate::requests::request_by;
use crate::turns::take_turn;
use bot_core::{Action, Bot, BotEvent, BotLimits};
use bot_worlds::{ChildRun, Got, Sent, Turn};
use dimensions::{BotDims, Text};
use std::alloc::{AllocError, Global};
use std::marker::Model;
use swarm_model::Machine;

/// One bot and one pool, with all that lies between them. Contracts see it as a `WorldState` of
/// `bot_worlds`.
#[derive(Drop)]
pub struct World<M: Machine + Drop> {
    alloc: Global,
    machine: M,
    end: BotEnd,
}

impl<M: Machine + Drop> Model for World<M> {
    ghost use Rattle.bot_worlds.specs.World.{WorldState};

    ghost Value = { WorldState };

    ghost use Rattle.two_ends.specs.Ends.{IsWorld, world_of};

    ghost view = { λ w. world_of (M.kept w.machine) w.end };

    ghost invariant = { λ w. IsWorld (M.kept w.machine) w.end };
}

/// A limit is a number of 32 bits.
fn see_steps(limits: &BotLimits)
    ensures { limits.now.steps < 2 ^ 32 }
{
    let _steps = limits.steps;
}

impl<M: Machine + Drop> World<M> {
    /// A world whose bot has begun at the moment. `dims` are what the bot says it has, and no bot of
    /// the pool has its name.
    pub fn new(
        alloc: Global,
        machine: M,
        limits: BotLimits,
        name: Text,
        dims: BotDims,
        moment: u64,
    ) -> Result<World<M>, AllocError>
        requires fits { IsTrue (fits_bot (M.kept machine).pool.settings name dims) }
        requires unknown { bot_named (M.kept machine).pool name ≡ None }
        requires filled { AreFilled (M.kept machine) }
        ensures starts { IfOk result (λ w. Begins limits moment (M.kept machine).start (M.kept machine).log name dims w) }
    {
        // For the proof: the machine keeps a legal log, and the limits are numbers of 32 bits.
        let _length = machine.length();
        see_steps(&limits);
        let mut bot = Bot::new(limits);
        let action = bot.step(BotEvent::Begin, moment);
        let request = request_by(alloc, &name, &dims, None, &[], &action)?;
        let mut sent = Vec::with_capacity(alloc, 1)?;
        let asking = asking_after(&request, &action, None, 0);
        add_request(&mut sent, request, None);
        let end = BotEnd {
            bot,
            action,
            name,
            dims,
            sent,
            got: Vec::new(alloc),
            runs: Vec::new(alloc),
            pending: Vec::new(alloc),
            asking,
        };
        Ok(World {
            alloc,
            machine,
            end,
        })
    }

    /// Does one turn.
    pub(crate) fn turn(&mut self, turn: &Turn) -> Result<(), AllocError>
        ensures turned { OnOk result (Turned self.old turn.now self.new) }
        ensures part { OnErr result (IsSettledFrom self.old self.new) }
    {
        take_turn(self.alloc, &mut self.machine, &mut self.end, turn)
    }

    /// What holds of each world.
    pub(crate) fn agree(&self)
        ensures output { OutputIsPrefix self.now }
        ensures starts { StartsOnce self.now }
    {
        // For the proof: the invariant of the world.
        let _end = &self.end;
    }

    pub fn bot(&self) -> &Bot
        ensures { result.now ≡ self.now.bot }
    {
        &self.end.bot
    }

    /// What the bot asks for.
    pub fn action(&self) -> Action
        ensures { result ≡ action_of self.now.bot }
    {
        self.end.action
    }

    pub fn machine(&self) -> &M
        ensures start { (M.kept result.now).start ≡ self.now.start }
        ensures log { (M.kept result.now).log ≡ self.now.log }
    {
        &self.machine
    }

    pub fn name(&self) -> &Text
        ensures { result.now ≡ self.now.name }
    {
        &self.end.name
    }

    pub fn dims(&self) -> &BotDims
        ensures { result.now ≡ self.now.dims }
    {
        &self.end.dims
    }

    /// The requests that the bot sent, in their order.
    pub fn sent(&self) -> &[Sent]
        ensures { result.now ≡ self.now.sent }
    {
        self.end.sent.as_slice()
    }

    /// The replies that the pool gave, in their order.
    pub fn got(&self) -> &[Got]
        ensures { result.now ≡ self.now.got }
    {
        self.end.got.as_slice()
    }

    /// The runs that the bot was told of, the newest first.
    pub fn runs(&self) -> &[ChildRun]
        ensures { result.now ≡ self.now.runs }
    {
        self.end.runs.as_slice()
    }

    /// The bytes of output that wait to be sent.
    pub fn pending(&self) -> &[u8]
        ensures { result.now ≡ self.now.pending }
    {
        self.end.pending.as_slice()
    }

    /// The place of the bot's present request, also while the bot sleeps before it is sent again.
    pub fn asking(&self) -> Option<usize>
        ensures { result ≡ self.now.asking }
    {
        self.end.asking
    }
}
