//! The definitions of pages at work, as facts that the check computes.
ghost use Rattle.std.specs.Prelude.{◌≡◌, ◌∷◌, [], Some, None, codes};
ghost use Rattle.model_examples.specs.PageExamples.{page};

/// A page shows at most so many bots, by their names, and has a cursor where more are left.
pub fn bots_are_shown_page_by_page()
    ensures first { page 1 [] ≡ Some (codes "b1" ∷ [], Some (codes "b1")) }
    ensures second { page 1 (codes "b1") ≡ Some (codes "b2" ∷ [], None) }
    ensures both { page 2 [] ≡ Some (codes "b1" ∷ codes "b2" ∷ [], None) }
{}
