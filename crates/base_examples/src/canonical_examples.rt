//! The canonical text of properties and its hash at work, as facts that the check computes.
ghost use Rattle.std.specs.Prelude.{◌≡◌, [], ◌∷◌, codes};
ghost use Rattle.serde_json.specs.Data.{string, array};
ghost use Rattle.serde_json.specs.View.{items_of};
ghost use Rattle.task_props.specs.Canonical.{cache_data, canonical, hash};
ghost use Rattle.base_examples.specs.CanonicalExamples.{full, full_text, full_hash};

/// A cache stands in the canonical text by its name, then its path.
pub fn a_cache_is_written_by_its_name_and_its_path()
    ensures { cache_data (record { name = codes "builder"; path = codes "cache/builder" }) ≡ array (items_of (string (codes "builder") ∷ string (codes "cache/builder") ∷ [])) }
{}

/// Every field is shown, under its key and in order of the keys; what JSON has to escape is
/// escaped, and nothing else.
#[tactic(auto, using(crate::proofs::CanonicalExamples::canonical_full, crate::proofs::CanonicalExamples::hash_full))]
pub fn every_field_is_shown()
    ensures text { canonical full ≡ full_text }
    ensures hash { hash full ≡ full_hash }
{}
