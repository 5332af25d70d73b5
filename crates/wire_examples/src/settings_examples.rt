//! The rules of the settings at work.
ghost use Rattle.std.specs.Prelude.{◌≡◌, [], ◌∷◌, pos, Some, Ok, Err, map, true, codes};
ghost use Rattle.std.specs.Option.{option_map};
ghost use Rattle.std.specs.Result.{result_ok};
ghost use Rattle.toml.specs.Data.{string, integer, table, member, no_members};
ghost use Rattle.swarm_model.specs.declared.permission.Permission.TheVariants.{CreateTask, CancelTask, ListTasks, ListBots, TerminateBot, RunBot, UseBlobs};
ghost use Rattle.swarm_model.specs.Examples.{settings};
ghost use Rattle.swarm_model.specs.Settings.{permits};
ghost use Rattle.swarm_policy.specs.declared.settings_fault.SettingsFault.TheVariants.{Broken};
ghost use Rattle.swarm_policy.specs.declared.settings_rule.SettingsRule.TheVariants.{Unknown, Grammar, Range, Repeated};
ghost use Rattle.swarm_policy.specs.Documents.{settings_in};
ghost use Rattle.swarm_policy.specs.Grants.{permission_of};
ghost use Rattle.swarm_policy.specs.Open.{open_settings};
ghost use Rattle.swarm_policy.specs.Pools.{name_in, pool_of};

/// Without a file of settings there is one pool, `default`, of 262144 tasks, which tries no lost run
/// again, and in which every caller has every permission.
pub fn one_pool_for_everyone()
    ensures name { map (λ pool. pool.name) open_settings.pools ≡ codes "default" ∷ [] }
    ensures tasks { map (λ pool. pool.most_tasks) open_settings.pools ≡ 262144 ∷ [] }
    ensures retries { map (λ pool. pool.retries) open_settings.pools ≡ 0 ∷ [] }
    ensures grants { map (λ pool. pool.grants) open_settings.pools ≡ ((record { caller = codes "*"; permissions = CreateTask ∷ CancelTask ∷ ListTasks ∷ ListBots ∷ TerminateBot ∷ RunBot ∷ UseBlobs ∷ [] }) ∷ []) ∷ [] }
    ensures everyone { map (λ pool. permits pool (codes "ana") UseBlobs) open_settings.pools ≡ true ∷ [] }
{}

/// A key that isn't listed is refused, whatever its value.
#[tactic(auto, unfolding(swarm_policy::specs::Documents::settings_in))]
pub fn an_unknown_key_is_refused()
    ensures { settings_in (member (codes "comment") (string (codes "lab")) no_members) ≡ Err (Broken (codes "comment") Unknown) }
{}

/// A lost run is tried again once where the pool's table says so, and never twice.
#[tactic(auto, unfolding(swarm_policy::specs::Pools::pool_of, swarm_policy::specs::Pools::name_at, swarm_policy::specs::Pools::name_in, swarm_policy::specs::Limits::number_at, swarm_policy::specs::Limits::number_in, swarm_policy::specs::Grants::grants_at, swarm_policy::specs::Fields::unknown_key))]
pub fn a_run_is_tried_again_once()
    ensures once { option_map (λ pool. pool.retries) (result_ok (pool_of [] (table (member (codes "name") (string (codes "lab")) (member (codes "retries") (integer (pos 1)) no_members))))) ≡ Some 1 }
    ensures twice { pool_of [] (table (member (codes "name") (string (codes "lab")) (member (codes "retries") (integer (pos 2)) no_members))) ≡ Err (Broken (codes "retries") Range) }
{}

/// A permission that isn't listed is refused.
#[tactic(auto, unfolding(swarm_model::specs::Permissions::permission_named))]
pub fn an_unknown_permission_is_refused()
    ensures listed { permission_of (string (codes "swarming.pools.listTasks")) ≡ Ok ListTasks }
    ensures unknown { permission_of (string (codes "swarming.pools.listTask")) ≡ Err Grammar }
{}

/// No pool has the name of one before it.
#[tactic(auto, unfolding(swarm_policy::specs::Pools::name_in))]
pub fn no_two_pools_have_one_name()
    ensures first { name_in [] (Some (string (codes "default"))) ≡ Ok (codes "default") }
    ensures second { name_in (settings ∷ []) (Some (string (codes "default"))) ≡ Err Repeated }
{}
