//! The definitions of reports, cancels and kills at work, as facts that the check computes.
ghost use Rattle.std.specs.Prelude.{◌≡◌, ◌∷◌, ◌++◌, [], Some, None, true, false, pos, codes};
ghost use Rattle.std.specs.Option.{option_map};
ghost use Rattle.swarm_model.specs.declared.request.Request.TheVariants as ask;
ghost use Rattle.swarm_model.specs.declared.reply.Reply.TheVariants as reply;
ghost use Rattle.swarm_model.specs.declared.rule.Rule.TheVariants as rule;
ghost use Rattle.swarm_model.specs.declared.permission.Permission.TheVariants as permission;
ghost use Rattle.swarm_model.specs.declared.task_state.TaskState.TheVariants.{Pending, Running, TimedOut, BotDied, Canceled, Completed, Killed};
ghost use Rattle.swarm_model.specs.Examples.{small_task, exited_with};
ghost use Rattle.model_examples.specs.BotExamples.{script, greets, polls, claims, comes_to};
ghost use Rattle.swarm_model.specs.Answers.{answer};
ghost use Rattle.swarm_model.specs.Finding.{bot_of};
ghost use Rattle.model_examples.specs.EndExamples.{reports, replies_after, pool_after, state_after, of_priority, turn, tasks_run};

/// A run that was asked to stop was killed, however it ends: its bot is told to stop, and reports
/// an end, falls silent or comes with another session.
pub fn a_killed_run_was_killed()
    ensures told { replies_after ((1001, ask.Cancel 1 0 true) ∷ (1002, reports None) ∷ (1003, reports (Some (exited_with (pos 0)))) ∷ [])
        ≡ reply.Canceled true true ∷ reply.Updated true ∷ reply.Updated true ∷ [] }
    ensures reported { state_after ((1001, ask.Cancel 1 0 true) ∷ (1003, reports (Some (exited_with (pos 0)))) ∷ []) ≡ Some Killed }
    ensures silent { state_after ((1001, ask.Cancel 1 0 true) ∷ (2200, ask.Count None) ∷ []) ≡ Some Killed }
    ensures another_session { state_after ((1001, ask.Cancel 1 0 true) ∷ (1002, greets (codes "b1") (codes "t")) ∷ []) ≡ Some Killed }
{}

/// A run that ended by itself is complete, whatever it exits with; one that was stopped for its
/// time has timed out.
pub fn reports_end_runs()
    ensures success { state_after ((1001, reports (Some (exited_with (pos 0)))) ∷ []) ≡ Some Completed }
    ensures failure { state_after ((1001, reports (Some (exited_with (pos 1)))) ∷ []) ≡ Some Completed }
    ensures too_long { state_after ((1001, reports (Some (record (exited_with (pos 0)) { hard_timeout = true }))) ∷ []) ≡ Some TimedOut }
    ensures too_quiet { state_after ((1001, reports (Some (record (exited_with (pos 0)) { io_timeout = true }))) ∷ []) ≡ Some TimedOut }
    ensures progress { state_after ((1001, reports None) ∷ []) ≡ Some Running }
    ensures idle_bot { option_map (λ bot. bot.task) (bot_of (pool_after ((1001, reports (Some (exited_with (pos 0)))) ∷ [])) 1) ≡ Some None }
{}

/// The report that ended a run may be sent again; any other is refused from then on, and each sign
/// of the bot is one.
pub fn a_last_report_acts_once()
    ensures replies { replies_after ((1001, reports (Some (exited_with (pos 0)))) ∷ (1002, reports (Some (exited_with (pos 0)))) ∷ (1003, reports (Some (exited_with (pos 1)))) ∷ (1003, reports None) ∷ [])
        ≡ reply.Updated false ∷ reply.Updated false ∷ reply.No (rule.AttemptOver Completed) ∷ reply.No (rule.AttemptOver Completed) ∷ [] }
    ensures heard { option_map (λ bot. bot.contact) (bot_of (pool_after ((1001, reports (Some (exited_with (pos 0)))) ∷ (1002, reports (Some (exited_with (pos 0)))) ∷ (1003, reports None) ∷ [])) 1) ≡ Some 1002 }
    ensures stays { state_after ((1001, reports (Some (exited_with (pos 0)))) ∷ (1002, reports (Some (exited_with (pos 1)))) ∷ []) ≡ Some Completed }
    ensures silent { replies_after ((2200, reports (Some (exited_with (pos 0)))) ∷ []) ≡ reply.No (rule.AttemptOver BotDied) ∷ [] }
{}

/// Only the bot that claimed a run may report on it.
pub fn another_bot_reports()
    ensures replies { replies_after ((1001, greets (codes "b2") (codes "s")) ∷ (1002, ask.Update (codes "b2") 1 1 None (Some (exited_with (pos 0)))) ∷ (1002, ask.Update (codes "b3") 1 1 None None) ∷ (1002, ask.Update (codes "b2") 2 1 None None) ∷ [])
        ≡ reply.Shaken (codes "b2") ∷ reply.No (rule.NotClaimant (codes "b1")) ∷ reply.No rule.NoBot ∷ reply.No rule.NoTask ∷ [] }
    ensures stays { state_after ((1001, greets (codes "b2") (codes "s")) ∷ (1002, ask.Update (codes "b2") 1 1 None (Some (exited_with (pos 0)))) ∷ []) ≡ Some Running }
{}

/// A task that waits ends as it is canceled, and no bot gets it; one that runs goes on, unless its
/// run is to stop, too; one that has ended stays.
pub fn cancels_by_state()
    ensures waiting { (script ((1000, ask.New (small_task 600)) ∷ (1001, ask.Cancel 1 0 false) ∷ (1002, ask.Cancel 1 0 false) ∷ (1002, ask.Cancel 1 0 true) ∷ (1003, greets (codes "b1") (codes "s")) ∷ (1003, claims (codes "b1") (codes "c1")) ∷ [])).replies
        ≡ reply.New 1 Pending ∷ reply.Canceled true false ∷ reply.Canceled false false ∷ reply.Canceled false false ∷ reply.Shaken (codes "b1") ∷ reply.Skip ∷ [] }
    ensures canceled { comes_to (script ((1000, ask.New (small_task 600)) ∷ (1001, ask.Cancel 1 0 true) ∷ [])) 1 ≡ Some (Canceled, 0) }
    ensures running { replies_after ((1001, ask.Cancel 1 0 false) ∷ (1002, reports None) ∷ (1003, ask.Cancel 1 1 true) ∷ (1004, ask.Cancel 1 0 true) ∷ (1005, ask.Cancel 1 0 false) ∷ [])
        ≡ reply.Canceled false true ∷ reply.Updated false ∷ reply.Canceled true true ∷ reply.Canceled true true ∷ reply.Canceled false true ∷ [] }
    ensures ended { replies_after ((1001, reports (Some (exited_with (pos 0)))) ∷ (1002, ask.Cancel 1 0 true) ∷ (1002, ask.Cancel 1 0 false) ∷ [])
        ≡ reply.Updated false ∷ reply.Canceled false false ∷ reply.Canceled false false ∷ [] }
{}

/// A caller who has no permission cancels only tasks of its own; a task that isn't there is told
/// first.
pub fn strangers_cancel_nothing()
    ensures stranger { (answer (pool_after []) (codes "bob") 1001 0 (ask.Cancel 1 0 true)).reply ≡ reply.No (rule.Denied permission.CancelTask (codes "default")) }
    ensures creator { (answer (pool_after []) (codes "ana") 1001 0 (ask.Cancel 1 0 true)).reply ≡ reply.Canceled true true }
    ensures no_task { (answer (pool_after []) (codes "bob") 1001 0 (ask.Cancel 2 0 true)).reply ≡ reply.No rule.NoTask }
{}

/// Tasks are run by priority, then age.
pub fn lower_priorities_first()
    ensures { tasks_run (script ((1000, greets (codes "b1") (codes "s")) ∷ (1000, of_priority 255) ∷ (1000, of_priority 10) ∷ (1000, of_priority 0) ∷ (1000, of_priority 10) ∷ []
        ++ (turn (codes "c1") 3 ++ (turn (codes "c2") 2 ++ (turn (codes "c3") 4 ++ turn (codes "c4") 1))))).replies ≡ 3 ∷ 2 ∷ 4 ∷ 1 ∷ [] }
{}

/// A bot that is to end finishes its run first.
pub fn a_terminating_bot_finishes_its_run()
    ensures { replies_after ((1001, ask.Terminate (codes "b1")) ∷ (1002, polls (codes "b1")) ∷ (1003, reports (Some (exited_with (pos 0)))) ∷ (1004, polls (codes "b1")) ∷ [])
        ≡ reply.Terminating ∷ reply.No (rule.BotBusy 1 1) ∷ reply.Updated false ∷ reply.Terminate ∷ [] }
{}
