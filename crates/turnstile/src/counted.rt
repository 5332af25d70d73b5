ghost use Rattle.std.specs.Prelude.{◌≡◌, ℕ, List, length};

/// A value with a log that only grows, each entry of which bears the number of the pass that made it.
pub trait Counted {
    type Item;
    /// What never changes of the value, as its settings.
    type Fixed;

    ghost log: { Self → List Self.Item };

    // The number of the pass that made an entry.
    ghost by: { Self.Item → ℕ };

    ghost fixed: { Self → Self.Fixed };

    /// The length of the log. `Turnstile::new` alone calls it.
    fn count(&self) -> u64
        ensures { result ≡ length (log self.now) };
}
