ghost use Rattle.std.specs.Prelude.{◌≡◌, map};
ghost use Rattle.bot_core.specs.Examples.{one_task, timed_actions, timed_events};
ghost use Rattle.bot_core.specs.States.{states_after};
ghost use Rattle.bot_core.specs.Table.{action_of, opening};

/// A run is asked to end as its time is over, killed as its grace is over, and reported; the report
/// is sent again after its answer was lost.
pub fn a_run_out_of_time()
    ensures { map action_of (states_after (opening one_task) timed_events) ≡ timed_actions }
{}
