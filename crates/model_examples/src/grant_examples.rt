//! The definitions of permissions at work, as facts that the check computes.
ghost use Rattle.std.specs.Prelude.{◌≡◌, ◌∷◌, [], true, false, codes};
ghost use Rattle.swarm_model.specs.declared.request.Request.TheVariants as ask;
ghost use Rattle.swarm_model.specs.declared.reply.Reply.TheVariants as reply;
ghost use Rattle.swarm_model.specs.declared.rule.Rule.TheVariants as rule;
ghost use Rattle.swarm_model.specs.declared.permission.Permission.TheVariants.{CreateTask, CancelTask, ListTasks};
ghost use Rattle.swarm_model.specs.Answers.{answer};
ghost use Rattle.swarm_model.specs.Permissions.{permission_name};
ghost use Rattle.swarm_model.specs.Settings.{permits};
ghost use Rattle.swarm_model.specs.Examples.{settings, small_task};
ghost use Rattle.model_examples.specs.BotExamples.{from};
ghost use Rattle.model_examples.specs.GrantExamples.{granting};

/// The permissions have the names that LUCI gives them in its realms.
pub fn permissions_have_their_names()
    ensures create { permission_name CreateTask ≡ codes "swarming.pools.createTask" }
    ensures cancel { permission_name CancelTask ≡ codes "swarming.pools.cancelTask" }
{}

/// A grant gives its caller what it lists, and nothing else, and no other caller anything.
pub fn a_grant_is_for_its_caller_alone()
    ensures own { permits (granting (codes "bob") CancelTask) (codes "bob") CancelTask ≡ true }
    ensures another_caller { permits (granting (codes "bob") CancelTask) (codes "ana") CancelTask ≡ false }
    ensures another_permission { permits (granting (codes "bob") CancelTask) (codes "bob") ListTasks ≡ false }
{}

/// A grant for `*` is for every caller.
pub fn a_grant_may_be_for_everyone()
    ensures { permits (granting (codes "*") CancelTask) (codes "ana") CancelTask ≡ true }
{}

/// A task that waits is canceled by the caller who sent it, and by one who has the permission.
pub fn waiting_tasks_are_canceled_by_permission()
    ensures stranger { (answer (from settings ((1000, ask.New (small_task 600)) ∷ [])).pool (codes "bob") 1001 0 (ask.Cancel 1 0 false)).reply
        ≡ reply.No (rule.Denied CancelTask (codes "default")) }
    ensures permitted { (answer (from (granting (codes "bob") CancelTask) ((1000, ask.New (small_task 600)) ∷ [])).pool (codes "bob") 1001 0 (ask.Cancel 1 0 false)).reply
        ≡ reply.Canceled true false }
{}
