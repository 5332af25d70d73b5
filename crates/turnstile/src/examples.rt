//! The definitions at work, as facts that the check computes.
ghost use Rattle.std.specs.Prelude.{◌≡◌, ℕ, [], ◌∷◌, ◌++◌};
ghost use Rattle.turnstile.specs.Numbers.{times, once_below, own, Continues, Adds};
ghost use Rattle.turnstile.specs.Examples.{Entry, by, entry, two_of_zero};

/// Of a log in which number 0 has two entries and number 1 has the one between them.
pub fn entries_of_a_number()
    ensures zero { own by 0 two_of_zero ≡ entry 0 5 ∷ entry 0 7 ∷ [] }
    ensures one { own by 1 two_of_zero ≡ entry 1 6 ∷ [] }
    ensures two { own by 2 two_of_zero ≡ [] }
{}

/// Of three numbers each below 3 stands once in the list.
pub fn numbers_once()
    ensures inside { times 2 (0 ∷ 2 ∷ 1 ∷ []) ≡ once_below 2 3 }
    ensures outside { times 3 (0 ∷ 2 ∷ 1 ∷ []) ≡ once_below 3 3 }
    ensures twice { times 2 (2 ∷ 2 ∷ []) ≡ 2 }
{}

/// A log goes on for number 0 where number 1 made the next entry, and not where it made that itself.
pub fn goes_on_by_others()
    ensures others { Continues by 0 (entry 0 5 ∷ []) (entry 0 5 ∷ entry 1 6 ∷ []) }
    ensures itself { ¬ Continues by 0 (entry 0 5 ∷ []) (entry 0 5 ∷ entry 0 6 ∷ []) }
{}
