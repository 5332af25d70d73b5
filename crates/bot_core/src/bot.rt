ghost use Rattle.std.specs.Prelude.{◌≡◌, ◌+◌, ◌<◌, ◌≤◌, ◌^◌, ◌*◌, ℕ, IsTrue, IsSome, is_some, Some};
ghost use Rattle.bot_core.specs.Table.{opening, stepped, action_of};

use crate::steps::{action_of, issue_action};
use crate::table::{new_bot, next_state};
use crate::{Action, BotEvent, BotLimits, BotState};
use std::marker::Model;

/// A bot, which takes events with their moments. A contract sees it as its `BotState`.
#[derive(Drop)]
pub struct Bot {
    state: BotState,
}

impl Model for Bot {
    ghost use Rattle.bot_core.specs.declared.bot_state.BotState.{BotState};
    ghost use Rattle.bot_core.specs.Bounds.{InBounds};

    ghost Value = { BotState };

    ghost view = { λ b. b.state };

    ghost invariant = { λ b. InBounds b.state };
}

impl Bot {
    /// A bot before its begin.
    pub fn new(limits: BotLimits) -> Bot
        ensures { result ≡ opening limits }
    {
        Bot {
            state: new_bot(limits),
        }
    }

    /// A bot that keeps the same, so that a step can be taken apart.
    pub fn copied(&self) -> Bot
        ensures { result ≡ self.now }
    {
        Bot { state: self.state }
    }

    /// Whether the event can come of the last action: at the start Begin alone, and after Stop none.
    pub fn expects(&self, event: &BotEvent) -> bool
        ensures { (m : ℕ) → result ≡ is_some (stepped self.now event.now m) }
    {
        next_state(self.state, *event, 0).is_some()
    }

    /// Takes what came of the last action, at a moment in seconds, and answers the next action.
    pub fn step(&mut self, event: BotEvent, moment: u64) -> Action
        requires expected { IsTrue (is_some (stepped self.old event moment)) }
        ensures state { stepped self.old event moment ≡ Some self.new }
        ensures action { result ≡ action_of self.new }
    {
        let Some(next) = next_state(self.state, event, moment) else {
            unreachable!()
        };
        self.state = issue_action(next, moment);
        action_of(&self.state)
    }
}
