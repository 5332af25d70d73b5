//! The definitions of a lost run that is tried again, as facts that the check computes.
ghost use Rattle.std.specs.Prelude.{◌≡◌, ◌∷◌, ◌++◌, [], map, drop, Some, None, true, false, pos, codes};
ghost use Rattle.swarm_model.specs.declared.request.Request.TheVariants as ask;
ghost use Rattle.swarm_model.specs.declared.reply.Reply.TheVariants as reply;
ghost use Rattle.swarm_model.specs.declared.rule.Rule.TheVariants as rule;
ghost use Rattle.swarm_model.specs.declared.task_state.TaskState.TheVariants.{Pending, Expired, BotDied, Killed};
ghost use Rattle.swarm_model.specs.Examples.{exited_with, properties};
ghost use Rattle.model_examples.specs.BotExamples.{greets, claims, comes_to};
ghost use Rattle.model_examples.specs.RetryExamples.{again, begun_by, retries, retry_task, shown, slice_of, tolerant};

/// A lost run of an idempotent slice is tried once more, by another bot; its own bot gets nothing,
/// and its reports are over. What the second run reports is the task's end.
pub fn a_lost_run_is_tried_again()
    ensures replies { drop 4 (retries (begun_by retry_task ++ (1061, greets (codes "b1") (codes "t")) ∷ (1061, claims (codes "b1") (codes "c2")) ∷ (1061, claims (codes "b1") (codes "c1")) ∷ (1062, claims (codes "b2") (codes "c1")) ∷ (1063, ask.Update (codes "b1") 1 1 None None) ∷ (1063, ask.Update (codes "b2") 1 2 None (Some (exited_with (pos 0)))) ∷ [])).replies
        ≡ reply.Shaken (codes "b1") ∷ reply.Skip ∷ reply.No (rule.ClaimOver 1 1 BotDied) ∷ reply.Run 1 2 0 60 again ∷ reply.No (rule.AttemptOver BotDied) ∷ reply.Updated false ∷ [] }
    ensures shown { map shown (drop 4 (retries (begun_by retry_task ++ (1060, ask.Result 1 0) ∷ (1060, ask.Result 1 1) ∷ (1060, ask.Result 1 2) ∷ [])).replies)
        ≡ Some (Pending, (None, None)) ∷ Some (BotDied, (Some (1, 1), Some 1060)) ∷ None ∷ [] }
{}

/// The slice begins anew with the loss, so it runs out later.
pub fn a_retry_waits_a_whole_slice()
    ensures last_second { comes_to (retries (begun_by retry_task ++ (1659, ask.Count None) ∷ [])) 1 ≡ Some (Pending, 0) }
    ensures deadline { comes_to (retries (begun_by retry_task ++ (1660, ask.Count None) ∷ [])) 1 ≡ Some (Expired, 0) }
{}

/// A run that was asked to stop, one of a slice that isn't idempotent, and the second run of a task
/// are lost for good.
pub fn other_runs_are_lost()
    ensures killed { comes_to (retries (begun_by retry_task ++ (1030, ask.Cancel 1 0 true) ∷ (1060, ask.Count None) ∷ [])) 1 ≡ Some (Killed, 0) }
    ensures not_idempotent { comes_to (retries (begun_by (tolerant (slice_of 600 properties ∷ [])) ++ (1060, ask.Count None) ∷ [])) 1 ≡ Some (BotDied, 0) }
    ensures second { comes_to (retries (begun_by retry_task ++ (1061, claims (codes "b2") (codes "c1")) ∷ (1121, ask.Count None) ∷ [])) 1 ≡ Some (BotDied, 0) }
    ensures handshake { comes_to (retries (begun_by retry_task ++ (1010, greets (codes "b1") (codes "t")) ∷ [])) 1 ≡ Some (Pending, 0) }
{}
