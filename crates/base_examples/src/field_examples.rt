//! The definitions of the fields of a body, of numbers within a range and of ids at work.
ghost use Rattle.std.specs.Prelude.{◌≡◌, pos, None, Ok, Err, codes};
ghost use Rattle.serde_json.specs.Data.{null, object, member, no_members};
ghost use Rattle.task_props.specs.declared.prop_rule.PropRule.TheVariants.{Grammar, Range};
ghost use Rattle.json_fields.specs.Fields.{present};
ghost use Rattle.json_fields.specs.Ids.{id_of, run_of};
ghost use Rattle.json_fields.specs.Ranges.{whole_in};

/// A field that is null is as absent.
#[tactic(auto, unfolding(json_fields::specs::Fields::present))]
pub fn a_null_field_is_absent()
    ensures { present (codes "name") (object (member (codes "name") null no_members)) ≡ None }
{}

/// A range takes its highest number in, and nothing beyond it.
#[tactic(auto, unfolding(json_fields::specs::Ranges::whole_in))]
pub fn a_range_ends_with_its_highest_number()
    ensures highest { whole_in 0 255 (pos 255) ≡ Ok 255 }
    ensures beyond { whole_in 0 255 (pos 256) ≡ Err Range }
{}

/// The last digit of an id is 0 for a task, and 1 or 2 for its runs: there is no third try.
#[tactic(auto, unfolding(json_fields::specs::Ids::id_of))]
pub fn an_id_ends_with_0_1_or_2()
    ensures task { id_of (codes "10") ≡ Ok 16 }
    ensures run { id_of (codes "11") ≡ Ok 17 }
    ensures second_try { id_of (codes "12") ≡ Ok 18 }
    ensures third_try { id_of (codes "13") ≡ Err Grammar }
{}

/// A bot reports on a run, so the last digit of the id is 1 or 2.
#[tactic(auto, unfolding(json_fields::specs::Ids::run_of))]
pub fn the_id_of_a_run_ends_with_1_or_2()
    ensures task { run_of (codes "10") ≡ Err Grammar }
    ensures run { run_of (codes "11") ≡ Ok 17 }
    ensures second_try { run_of (codes "12") ≡ Ok 18 }
    ensures third_try { run_of (codes "13") ≡ Err Grammar }
{}
