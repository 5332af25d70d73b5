ghost use Rattle.std.specs.Prelude.{◌≡◌, ℕ, List, [], ◌∷◌, Option, option_map};
ghost use Rattle.sw_base.specs.Clock.{HandsIn, Waits};

/// A source of moments, in whole seconds since 1970, at which a caller can also wait. Neither can
/// fail. The moments need not go forward.
pub trait Clock {
    // The list of the next k answers, where the clock tells them.
    ghost ahead: { Self → ℕ → Option (List ℕ) };

    // How many seconds were waited, where the clock tells it.
    ghost waited: { Self → Option ℕ };

    /// The next moment.
    fn now(&mut self) -> u64
        ensures moments { HandsIn (ahead self.old) (ahead self.new) (result ∷ []) }
        ensures waited { waited self.new ≡ waited self.old };

    /// Waits for so many seconds. What a clock tells of its moments may change by that: a clock that
    /// steps goes forward, one that answers a list doesn't.
    ///
    /// The seconds are told as one sum, and not each wait by itself, so that a clock in memory needs
    /// no room for them. The sum stays at 2^64 - 1 once it has come there.
    fn wait(&mut self, secs: u64)
        ensures waited { Waits (waited self.old) (waited self.new) secs };

    /// A clock for another worker: it has the same moments ahead, whatever is asked of this one
    /// afterwards, and nothing was waited at it.
    fn twin(&self) -> Self
    where
        Self: Sized,
        ensures ahead { ahead result ≡ ahead self.now }
        ensures waited { waited result ≡ option_map (λ _. 0) (waited self.now) };
}
