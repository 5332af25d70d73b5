//! Clocks in memory, as a fact that the check computes.
ghost use Rattle.std.specs.Prelude.{◌≡◌, ◌∷◌, []};
ghost use Rattle.sw_base.specs.Clock.{steps_from};

/// A clock that steps stays at the last moment of 64 bits.
pub fn steps_end_at_the_last_moment()
    ensures { steps_from 18446744073709551610 3 4 ≡ 18446744073709551610 ∷ 18446744073709551613 ∷ 18446744073709551615 ∷ 18446744073709551615 ∷ [] }
{}
