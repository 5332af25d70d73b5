//! The rules on dimensions at work, as facts that the check computes.
ghost use Rattle.std.specs.Prelude.{◌≡◌, ◌∷◌, [], Some, true, false, codes};
ghost use Rattle.dimensions.specs.declared.dim_fault.DimRule.TheVariants as dim_rule;
ghost use Rattle.dimensions.specs.Order.{sorted_pairs};
ghost use Rattle.dimensions.specs.Rules.{first_broken, are_checked};

/// A pool is one value: it has no alternatives.
pub fn a_pool_has_no_alternatives()
    ensures { first_broken ((codes "pool", codes "a|b") ∷ []) ≡ Some (dim_rule.Pool, 0) }
{}

/// Pairs are checked only in the order of their keys, and at equal keys of their values.
pub fn checked_pairs_rise()
    ensures rising { are_checked ((codes "os", codes "Linux") ∷ (codes "os", codes "Mac") ∷ (codes "pool", codes "default") ∷ []) ≡ true }
    ensures keys_fall { are_checked ((codes "pool", codes "default") ∷ (codes "os", codes "Mac") ∷ []) ≡ false }
    ensures values_fall { are_checked ((codes "os", codes "Mac") ∷ (codes "os", codes "Linux") ∷ (codes "pool", codes "default") ∷ []) ≡ false }
{}

/// Pairs that are read come into that order, which is that of the bytes.
pub fn pairs_are_sorted()
    ensures { sorted_pairs ((codes "pool", codes "default") ∷ (codes "os", codes "Mac") ∷ (codes "os", codes "Linux|Mac") ∷ [])
        ≡ (codes "os", codes "Linux|Mac") ∷ (codes "os", codes "Mac") ∷ (codes "pool", codes "default") ∷ [] }
{}
