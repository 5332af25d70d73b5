//! The definitions of the rules on tasks at work.
ghost use Rattle.std.specs.Prelude.{◌≡◌, [], ◌∷◌, Some, None, codes};
ghost use Rattle.task_props.specs.declared.prop_rule.PropRule.TheVariants.{Grammar, Repeated};
ghost use Rattle.task_props.specs.declared.task_field.SliceField.TheVariants.{InputPath};
ghost use Rattle.task_props.specs.Paths.{path_rule};
ghost use Rattle.task_props.specs.Slices.{slices_rule};
ghost use Rattle.task_props.specs.Examples.{small};
ghost use Rattle.task_checks.specs.Inputs.{broken_inputs};
ghost use Rattle.base_examples.specs.TaskCheckExamples.{slice_of, on_linux, main_file};

/// Two slices that run the same on the same bots are one too many, whatever their expirations.
pub fn two_equal_slices_are_refused()
    ensures { slices_rule (slice_of 60 small ∷ slice_of 600 small ∷ []) ≡ Some Repeated }
{}

/// Two slices that run the same on other bots are no such two.
pub fn slices_may_differ_in_their_dimensions()
    ensures { slices_rule (slice_of 60 small ∷ slice_of 60 on_linux ∷ []) ≡ None }
{}

/// An input whose path stands at an earlier one is refused at its own place.
#[tactic(auto, unfolding(task_props::specs::Digests::digest_in, hex::specs::Hex::decode_pairs))]
pub fn no_input_has_the_path_of_another()
    ensures { broken_inputs (main_file ∷ main_file ∷ []) ≡ Some (InputPath 1, Repeated) }
{}

/// No part of a path is a folder's parent or the folder itself.
pub fn a_path_stays_below_its_folder()
    ensures below { path_rule (codes "src/main.c") ≡ None }
    ensures parent { path_rule (codes "src/../main.c") ≡ Some Grammar }
    ensures itself { path_rule (codes "src/./main.c") ≡ Some Grammar }
{}
