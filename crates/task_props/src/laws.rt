//! What holds of canonical texts.
ghost use Rattle.task_props.specs.Canonical.{CanonicalTells};
ghost use Rattle.task_props.specs.Texts.{HaveOneTextEach};

/// A canonical text is that of one properties alone: no two that differ have one text.
#[tactic(auto, using(crate::proofs::Telling::canonical_tells))]
pub fn a_canonical_text_is_of_one_properties()
    ensures { CanonicalTells }
{}

/// Two checked properties have one canonical text exactly where they are equal.
#[tactic(auto, using(crate::proofs::Texts::have_one_text_each))]
pub fn checked_properties_have_one_text_each()
    ensures { HaveOneTextEach }
{}
