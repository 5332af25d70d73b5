ghost use Rattle.std.specs.Prelude.{◌≡◌, length, MatchBool};
ghost use Rattle.std.specs.List.{AllAdjacentBelow};
ghost use Rattle.base_checks.specs.Keys.{Differ, AreDistinct};

/// Whether two keys that stand side by side are equal.
fn has_equal<K: Ord>(keys: &[K]) -> bool
    ensures { MatchBool result (AreDistinct K.cmp keys.now → ⊥) (AllAdjacentBelow (Differ K.cmp) keys.now (length keys.now)) }
{
    for place in 1..keys.len() {
        if keys[place - 1].cmp(&keys[place]).is_eq() {
            return true;
        }
    }
    false
}

/// Whether two of the keys are equal. It sorts them, in place, and compares neighbours: of n keys
/// that costs some n log n comparisons, whatever the keys are.
pub fn stands_twice<K: Ord>(keys: &mut [K]) -> bool
    ensures { MatchBool result (AreDistinct K.cmp keys.old → ⊥) (AreDistinct K.cmp keys.old) }
{
    keys.sort_unstable();
    has_equal(keys)
}
