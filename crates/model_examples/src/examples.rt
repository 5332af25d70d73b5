//! The definitions at work, as facts that the check computes.
ghost use Rattle.std.specs.Prelude.{◌≡◌, Some, None, true, false};
ghost use Rattle.std.specs.Option.{option_map};
ghost use Rattle.swarm_model.specs.declared.reply.Reply.TheVariants as reply;
ghost use Rattle.swarm_model.specs.declared.task_state.TaskState.TheVariants.{Pending, Expired, NoResource};
ghost use Rattle.swarm_model.specs.Entries.{weight};
ghost use Rattle.model_examples.specs.Examples.{first_answer, second_answer, two_slices, sent, seen_at};

/// A small task in a new pool is pending, as task 1.
pub fn one_task_is_pending()
    ensures { first_answer.reply ≡ reply.New 1 Pending }
{}

/// Its entry weighs the bytes of its caller, its command and its dimension.
pub fn one_task_weighs_18()
    ensures { option_map weight first_answer.entry ≡ Some 18 }
{}

/// A second one is task 2.
pub fn two_tasks_in_a_row()
    ensures { second_answer.reply ≡ reply.New 2 Pending }
{}

/// A task of two slices of 60 seconds that wait, sent at 1000, comes to the second one at 1060 and
/// is expired at 1120, whoever asks first.
pub fn slices_run_out_in_turn()
    ensures first { seen_at 1059 (sent (two_slices true true)) ≡ Some (Pending, (0, None)) }
    ensures second { seen_at 1060 (sent (two_slices true true)) ≡ Some (Pending, (1, None)) }
    ensures last_second { seen_at 1119 (sent (two_slices true true)) ≡ Some (Pending, (1, None)) }
    ensures expired { seen_at 1120 (sent (two_slices true true)) ≡ Some (Expired, (1, Some 1120)) }
    ensures long_after { seen_at 5000 (sent (two_slices true true)) ≡ Some (Expired, (1, Some 1120)) }
{}

/// Where the second one doesn't wait and no bot could run it, the task ends with the first.
pub fn no_resource_after_a_slice()
    ensures first { seen_at 1059 (sent (two_slices true false)) ≡ Some (Pending, (0, None)) }
    ensures ended { seen_at 1060 (sent (two_slices true false)) ≡ Some (NoResource, (1, Some 1060)) }
{}

/// Where neither waits, the task ends as it is accepted.
pub fn no_resource_at_once()
    ensures { seen_at 1000 (sent (two_slices false false)) ≡ Some (NoResource, (1, Some 1000)) }
{}

/// Where the first one doesn't wait, the task begins with the second.
pub fn begins_with_an_open_slice()
    ensures { seen_at 1000 (sent (two_slices false true)) ≡ Some (Pending, (1, None)) }
{}
