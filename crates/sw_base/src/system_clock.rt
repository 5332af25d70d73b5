ghost use Rattle.std.specs.Prelude.{◌≡◌, ℕ, None};

use crate::Clock;
use std::time::{Duration, SystemTime};
use std::{rt, thread};

/// The system's clock, in whole seconds since 1970. Where the system tells no moment, or one
/// before 1970, it answers its last answer again, and 0 if there is none. It tells neither moments
/// nor waits.
#[derive(Drop)]
pub struct SystemClock<'a, T: rt::Clock> {
    time: &'a T,
    last: u64,
}

impl<'a, T: rt::Clock> SystemClock<'a, T> {
    pub fn new(time: &'a T) -> Self
        ensures untold { (k : ℕ) → ⟦<SystemClock<'a, T> as Clock>⟧.ahead result k ≡ None }
        ensures unwaited { ⟦<SystemClock<'a, T> as Clock>⟧.waited result ≡ None }
    {
        SystemClock { time, last: 0 }
    }
}

impl<'a, T: rt::Clock> Clock for SystemClock<'a, T> {
    ghost ahead = { λ c k. None };

    ghost waited = { λ c. None };

    fn now(&mut self) -> u64 {
        if let Ok(now) = SystemTime::now(self.time)
            && let Ok(since) = now.duration_since(SystemTime::UNIX_EPOCH)
        {
            self.last = since.as_secs();
        }
        self.last
    }

    /// Sleeps for so long. What a signal interrupts is slept on to its end.
    fn wait(&mut self, secs: u64) {
        thread::sleep(self.time, Duration::from_secs(secs));
    }

    fn twin(&self) -> SystemClock<'a, T> {
        SystemClock {
            time: self.time,
            last: self.last,
        }
    }
}
