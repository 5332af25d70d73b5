//! What holds of all codes. Each law is the contract of an empty function.
ghost use Rattle.std.specs.Prelude.{◌≡◌, Some};
ghost use Rattle.refusal_codes.specs.declared.refusal_code.RefusalCode.{RefusalCode as SpecRefusalCode};
ghost use Rattle.refusal_codes.specs.Codes.{code_name, code_number, code_named, code_numbered};

/// What is written as the name of a code is read as this code.
#[tactic(auto, using(crate::proofs::CodeLemmas::name_is_read))]
pub fn each_name_is_read()
    ensures { (code : SpecRefusalCode) → code_named (code_name code) ≡ Some code }
{}

/// The number of a code is that of no other.
#[tactic(auto, using(crate::proofs::CodeLemmas::number_is_read))]
pub fn each_number_is_read()
    ensures { (code : SpecRefusalCode) → code_numbered (code_number code) ≡ Some code }
{}

/// Different codes have different names.
pub fn one_code_has_a_name()
    ensures { (code other : SpecRefusalCode) → code_name code ≡ code_name other → code ≡ other }
{}

/// Different codes have different numbers.
pub fn one_code_has_a_number()
    ensures { (code other : SpecRefusalCode) → code_number code ≡ code_number other → code ≡ other }
{}
