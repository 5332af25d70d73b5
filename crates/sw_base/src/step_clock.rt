ghost use Rattle.std.specs.Prelude.{◌≡◌, ◌+◌, ◌-◌, ◌^◌, min, Some};
ghost use Rattle.sw_base.specs.Clock.{Waits, steps_from};

use crate::Clock;

/// A clock that answers `at`, and moves on by `step` seconds at each answer. It stays at the last
/// moment of a `u64` once it has come there.
#[derive(Clone, Copy, Debug, PartialEq, Eq)]
pub struct StepClock {
    pub at: u64,
    pub step: u64,
    /// How many seconds were waited, 2^64 - 1 at most.
    pub waited: u64,
}

impl Clock for StepClock {
    ghost ahead = { λ c k. Some (steps_from c.at c.step k) };

    ghost waited = { λ c. Some c.waited };

    fn now(&mut self) -> u64 {
        let moment = self.at;
        self.at = self.at.saturating_add(self.step);
        moment
    }

    /// Moves on by the seconds that are waited.
    fn wait(&mut self, secs: u64)
        ensures waited { Waits (Some self.old.waited) (Some self.new.waited) secs }
        ensures moment { self.new.at ≡ min (self.old.at + secs) (2 ^ 64 - 1) }
        ensures step { self.new.step ≡ self.old.step }
    {
        self.at = self.at.saturating_add(secs);
        self.waited = self.waited.saturating_add(secs);
    }

    fn twin(&self) -> StepClock {
        StepClock {
            at: self.at,
            step: self.step,
            waited: 0,
        }
    }
}
