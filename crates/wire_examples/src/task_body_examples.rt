//! What the bodies of the calls on tasks say, as facts that the check computes.
ghost use Rattle.std.specs.Prelude.{◌≡◌, pos, Some, Ok, Err, codes};
ghost use Rattle.serde_json.specs.Data.{string, array, object, member, no_members, item, no_items};
ghost use Rattle.json_values.specs.Values.{whole};
ghost use Rattle.task_props.specs.declared.prop_fault.PropFault.TheVariants.{Broken};
ghost use Rattle.task_props.specs.declared.prop_rule.PropRule.TheVariants.{WrongType, Unknown, Range};
ghost use Rattle.task_bodies.specs.Lists.{cursor_at};
ghost use Rattle.task_bodies.specs.SliceProperties.{lists_in, grace_at, input_in};

/// A page goes on after a task, and there is no task 0.
#[tactic(auto, unfolding(task_bodies::specs::Lists::cursor_at, crate::specs::BodiesRead::fields_are_read))]
pub fn a_cursor_is_the_number_of_a_task()
    ensures first { cursor_at (Some (pos 1)) ≡ Ok (Some 1) }
    ensures none { cursor_at (Some (pos 0)) ≡ Err (Broken (codes "cursor") Range) }
{}

/// Of an environment and dimensions that are both broken the environment is told.
#[tactic(auto, unfolding(task_bodies::specs::SliceProperties::lists_in, crate::specs::BodiesRead::fields_are_read))]
pub fn the_environment_is_read_before_the_dimensions()
    ensures { lists_in (object (member (codes "command") (array (item (string (codes "true")) no_items)) (member (codes "dimensions") (whole 0) (member (codes "env") (whole 0) no_members)))) ≡ Err (Broken (codes "env") WrongType) }
{}

/// A grace period that isn't told is 30 seconds, and one of 0 is none.
#[tactic(auto, unfolding(task_bodies::specs::SliceProperties::grace_at, crate::specs::BodiesRead::fields_are_read))]
pub fn an_absent_grace_period_is_30_seconds()
    ensures absent { grace_at (codes "grace_period_secs") (object no_members) ≡ Ok (pos 30) }
    ensures none { grace_at (codes "grace_period_secs") (object (member (codes "grace_period_secs") (whole 0) no_members)) ≡ Ok (pos 0) }
{}

/// An input has no other field than its path, its digest and its size.
#[tactic(auto, unfolding(task_bodies::specs::SliceProperties::input_in, crate::specs::BodiesRead::fields_are_read))]
pub fn an_unknown_field_of_an_input_is_refused()
    ensures { input_in (object (member (codes "digest") (string (codes "5891")) (member (codes "mode") (whole 420) (member (codes "path") (string (codes "src/main.c")) (member (codes "size") (whole 6) no_members))))) ≡ Err (Broken (codes "mode") Unknown) }
{}
