//! What stands at the targets of requests.
ghost use Rattle.std.specs.Prelude.{◌≡◌, [], Some, None, codes};
ghost use Rattle.routes.specs.declared.route.Route.TheVariants as call;
ghost use Rattle.routes.specs.declared.resource.Resource.TheVariants.{Call, Blob};
ghost use Rattle.routes.specs.Routes.{resource_of, pool_part, digest_part};

/// Each call stands at its own target.
#[tactic(auto, unfolding(routes::specs::Routes::resource_of))]
pub fn each_call_stands_at_its_target()
    ensures claim { resource_of (codes "/bot/claim") ≡ Some (Call call.Claim) }
    ensures event { resource_of (codes "/bot/event") ≡ Some (Call call.Event) }
    ensures handshake { resource_of (codes "/bot/handshake") ≡ Some (Call call.Handshake) }
    ensures poll { resource_of (codes "/bot/poll") ≡ Some (Call call.Poll) }
    ensures task_update { resource_of (codes "/bot/task_update") ≡ Some (Call call.TaskUpdate) }
    ensures get_bot { resource_of (codes "/prpc/swarming.v2.Bots/GetBot") ≡ Some (Call call.GetBot) }
    ensures list_bots { resource_of (codes "/prpc/swarming.v2.Bots/ListBots") ≡ Some (Call call.ListBots) }
    ensures terminate_bot { resource_of (codes "/prpc/swarming.v2.Bots/TerminateBot") ≡ Some (Call call.TerminateBot) }
    ensures cancel_task { resource_of (codes "/prpc/swarming.v2.Tasks/CancelTask") ≡ Some (Call call.CancelTask) }
    ensures count_tasks { resource_of (codes "/prpc/swarming.v2.Tasks/CountTasks") ≡ Some (Call call.CountTasks) }
    ensures get_result { resource_of (codes "/prpc/swarming.v2.Tasks/GetResult") ≡ Some (Call call.GetResult) }
    ensures get_stdout { resource_of (codes "/prpc/swarming.v2.Tasks/GetStdout") ≡ Some (Call call.GetStdout) }
    ensures list_tasks { resource_of (codes "/prpc/swarming.v2.Tasks/ListTasks") ≡ Some (Call call.ListTasks) }
    ensures new_task { resource_of (codes "/prpc/swarming.v2.Tasks/NewTask") ≡ Some (Call call.NewTask) }
{}

/// Below `/blobs/` one part names a pool, and two a blob in a pool.
#[tactic(auto, unfolding(routes::specs::Routes::resource_of))]
pub fn blobs_stand_below_their_pool()
    ensures pool { resource_of (codes "/blobs/default") ≡ Some (Call call.FindMissing) }
    ensures blob { resource_of (codes "/blobs/default/ab12") ≡ Some Blob }
    ensures three { resource_of (codes "/blobs/default/ab12/cd") ≡ None }
    ensures no_pool { resource_of (codes "/blobs/") ≡ None }
{}

/// The first part is the pool's name, and the second the digest of the blob.
pub fn the_pool_comes_before_the_digest()
    ensures pool { pool_part (codes "/blobs/default/ab12") ≡ codes "default" }
    ensures digest { digest_part (codes "/blobs/default/ab12") ≡ codes "ab12" }
    ensures pool_alone { pool_part (codes "/blobs/default") ≡ codes "default" }
    ensures no_digest { digest_part (codes "/blobs/default") ≡ [] }
{}

/// Targets are compared byte for byte: a question mark, another case of letters or a slash at the end make another one.
#[tactic(auto, unfolding(routes::specs::Routes::resource_of))]
pub fn a_target_is_taken_as_it_stands()
    ensures question_mark { resource_of (codes "/blobs/default?a=1") ≡ None }
    ensures query { resource_of (codes "/bot/poll?a=1") ≡ None }
    ensures case { resource_of (codes "/bot/Poll") ≡ None }
    ensures slash { resource_of (codes "/bot/poll/") ≡ None }
{}
