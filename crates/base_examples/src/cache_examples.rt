//! Named caches at work, as facts that the check computes.
ghost use Rattle.std.specs.Prelude.{◌≡◌, ◌∷◌, ◌++◌, [], Some, None, IsSorted, codes};
ghost use Rattle.std.specs.Map.{lookup, remove_entry};
ghost use Rattle.std.specs.Str.{bytes_eq};
ghost use Rattle.dimensions.specs.Order.{text_cmp};
ghost use Rattle.named_caches.specs.Caches.{IsWithin, bytes_of, names_of};
ghost use Rattle.base_examples.specs.CacheExamples.{two_caches, limited};

/// A cache that is taken out is told with its size, and is there no longer.
pub fn a_taken_cache_is_gone()
    ensures size { lookup (bytes_eq (codes "go")) two_caches ≡ Some 40 }
    ensures rest { remove_entry (bytes_eq (codes "go")) two_caches ≡ (codes "git", 60) ∷ [] }
    ensures other { lookup (bytes_eq (codes "go")) (remove_entry (bytes_eq (codes "go")) two_caches) ≡ None }
{}

/// A cache that is given back stands first, and only once.
pub fn a_cache_that_is_given_back_stands_first()
    ensures { (codes "go", 45) ∷ remove_entry (bytes_eq (codes "go")) two_caches ≡ (codes "go", 45) ∷ (codes "git", 60) ∷ [] }
{}

/// The cache that is trimmed is the last one, since the last used stands first.
pub fn the_last_cache_is_trimmed()
    ensures { two_caches ≡ ((codes "git", 60) ∷ []) ++ (codes "go", 40) ∷ [] }
{}

/// A table is within its limits where it has as many caches and as many bytes as it may, and not
/// where it has one more of either.
pub fn limits_are_inclusive()
    ensures sum { bytes_of two_caches ≡ 100 }
    ensures within { IsWithin (limited 2 100) }
    ensures too_many { IsWithin (limited 1 100) → ⊥ }
    ensures too_large { IsWithin (limited 2 99) → ⊥ }
{}

/// Names come in the order of their bytes.
pub fn names_are_sorted_by_their_bytes()
    ensures names { names_of two_caches ≡ codes "git" ∷ codes "go" ∷ [] }
    ensures rising { IsSorted text_cmp (codes "git" ∷ codes "go" ∷ []) }
    ensures falling { IsSorted text_cmp (codes "go" ∷ codes "git" ∷ []) → ⊥ }
{}
