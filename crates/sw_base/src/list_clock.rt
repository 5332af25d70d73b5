ghost use Rattle.std.specs.Prelude.{◌≡◌, Some};
ghost use Rattle.sw_base.specs.Clock.{Waits, listed_from};

use crate::Clock;

/// A clock that answers the moments of a list in turn, and 0 past the last of them.
#[derive(Clone, Copy, Debug)]
pub struct ListClock<'a> {
    pub moments: &'a [u64],
    /// How often it was asked.
    pub asked: usize,
    /// How many seconds were waited, 2^64 - 1 at most. A wait changes none of its answers.
    pub waited: u64,
}

impl<'a> Clock for ListClock<'a> {
    ghost ahead = { λ c k. Some (listed_from c.moments.now c.asked k) };

    ghost waited = { λ c. Some c.waited };

    fn now(&mut self) -> u64 {
        let moment = self.moments.get(self.asked).copied().unwrap_or(0);
        self.asked = self.asked.saturating_add(1);
        moment
    }

    fn wait(&mut self, secs: u64)
        ensures waited { Waits (Some self.old.waited) (Some self.new.waited) secs }
        ensures moments { self.new.moments ≡ self.old.moments }
        ensures asked { self.new.asked ≡ self.old.asked }
    {
        self.waited = self.waited.saturating_add(secs);
    }

    fn twin(&self) -> ListClock<'a> {
        ListClock {
            moments: self.moments,
            asked: self.asked,
            waited: 0,
        }
    }
}
