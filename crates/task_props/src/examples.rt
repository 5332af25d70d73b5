//! The canonical text and the hash of a small task, as facts that the check computes.
ghost use Rattle.std.specs.Prelude.{◌≡◌, length};
ghost use Rattle.task_props.specs.Canonical.{canonical, hash};
ghost use Rattle.task_props.specs.Examples.{small, small_text, small_hash};

/// The text of the command `true` on any bot of the pool is 189 bytes.
#[tactic(auto, using(crate::proofs::Computed::canonical_small))]
pub fn text_of_a_small_task()
    ensures text { canonical small ≡ small_text }
    ensures bytes { length (canonical small) ≡ 189 }
{}

/// Its hash is what `sha256sum` says of that text.
#[tactic(auto, using(crate::proofs::Computed::hash_small))]
pub fn hash_of_a_small_task()
    ensures { hash small ≡ small_hash }
{}
