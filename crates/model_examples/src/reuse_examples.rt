//! The definitions of repeats and reuse at work, as facts that the check computes.
ghost use Rattle.std.specs.Prelude.{◌≡◌, ◌∷◌, [], None, false, pos, codes};
ghost use Rattle.swarm_model.specs.declared.request.Request.TheVariants as ask;
ghost use Rattle.swarm_model.specs.declared.reply.Reply.TheVariants as reply;
ghost use Rattle.swarm_model.specs.declared.rule.Rule.TheVariants as rule;
ghost use Rattle.swarm_model.specs.declared.task_state.TaskState.TheVariants.{Pending, NoResource};
ghost use Rattle.swarm_model.specs.Examples.{settings, small_task};
ghost use Rattle.model_examples.specs.BotExamples.{script, from};
ghost use Rattle.swarm_model.specs.Answers.{answer};
ghost use Rattle.model_examples.specs.ReuseExamples.{named_task, other_task, asks, pure_task, replies_after};

/// A task that its caller sends again under its uuid is that task, and adds nothing; another one
/// under that uuid is refused, and another caller's is a task of its own.
pub fn a_uuid_names_one_task()
    ensures replies { (script ((1000, ask.New named_task) ∷ (1001, ask.New named_task) ∷ (1002, ask.New other_task) ∷ [])).replies
        ≡ reply.New 1 Pending ∷ reply.New 1 Pending ∷ reply.No (rule.UuidReused 1) ∷ [] }
    ensures adds_nothing { (answer (script ((1000, ask.New named_task) ∷ [])).pool (codes "ana") 1001 0 (ask.New named_task)).entry ≡ None }
    ensures another_caller { (answer (script ((1000, ask.New named_task) ∷ [])).pool (codes "bob") 1001 0 (ask.New other_task)).reply ≡ reply.New 2 Pending }
{}

/// A task that is sent again is told even where the pool takes no other.
pub fn a_full_pool_tells_its_tasks()
    ensures { (from (record settings { most_tasks = 1 }) ((1000, ask.New named_task) ∷ (1001, ask.New named_task) ∷ (1002, ask.New (small_task 600)) ∷ [])).replies
        ≡ reply.New 1 Pending ∷ reply.New 1 Pending ∷ reply.No (rule.PoolTasksFull 1) ∷ [] }
{}

/// No outcome is taken once the age has passed, or of a run that exited with anything but 0.
pub fn outcomes_are_left()
    ensures too_late { replies_after (pos 0) ((1060, asks) ∷ []) ≡ reply.New 2 Pending ∷ [] }
    ensures failed { replies_after (pos 1) ((1059, asks) ∷ []) ≡ reply.New 2 Pending ∷ [] }
    ensures no_capacity { replies_after (pos 1) ((1002, ask.Terminate (codes "b1")) ∷ (1003, ask.New (pure_task false)) ∷ []) ≡ reply.Terminating ∷ reply.New 2 NoResource ∷ [] }
{}
