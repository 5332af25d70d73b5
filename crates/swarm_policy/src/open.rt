ghost use Rattle.std.specs.Prelude.{◌≡◌, IfOk, IsTrue};
ghost use Rattle.swarm_model.specs.Permissions.{permissions};
ghost use Rattle.swarm_model.specs.Settings.{are_settings};
ghost use Rattle.swarm_policy.specs.Open.{everyone, open_pool, open_settings as spec_open_settings};

use crate::limits::Limit;
use dimensions::{Seq, Text};
use std::alloc::{AllocError, Global};
use swarm_model::{Grant, Permission, PoolSettings, Settings};

fn all_permissions(alloc: Global) -> Result<Seq<Permission>, AllocError>
    ensures { IfOk result (λ listed. listed ≡ permissions) }
{
    let listed = vec![in alloc;
        Permission::CreateTask,
        Permission::CancelTask,
        Permission::ListTasks,
        Permission::ListBots,
        Permission::TerminateBot,
        Permission::RunBot,
        Permission::UseBlobs,
    ]?;
    Ok(Seq::from_vec(listed))
}

fn everyone(alloc: Global) -> Result<Grant, AllocError>
    ensures { IfOk result (λ grant. grant ≡ everyone) }
{
    Ok(Grant {
        caller: Text::from_str(alloc, "*")?,
        permissions: all_permissions(alloc)?,
    })
}

fn open_pool(alloc: Global) -> Result<PoolSettings, AllocError>
    ensures { IfOk result (λ pool. pool ≡ open_pool) }
{
    Ok(PoolSettings {
        place: 0,
        name: Text::from_str(alloc, "default")?,
        reuse_age_secs: Limit::ReuseAgeSecs.default(),
        death_timeout_secs: Limit::DeathTimeoutSecs.default(),
        blob_life_secs: Limit::BlobLifeSecs.default(),
        store_units: Limit::StoreUnits.default(),
        most_tasks: Limit::MostTasks.default(),
        most_bots: Limit::MostBots.default(),
        most_entries: Limit::MostEntries.default(),
        most_weight: Limit::MostWeight.default(),
        retries: Limit::Retries.default(),
        grants: Seq::from_vec(vec![in alloc; everyone(alloc)?]?),
    })
}

/// The settings of a server that was given none: the pool `default`, open to every caller.
pub fn open_settings(alloc: Global) -> Result<Settings, AllocError>
    ensures exact { IfOk result (λ settings. settings ≡ spec_open_settings) }
    ensures keeps_rules { IfOk result (λ settings. IsTrue (are_settings settings)) }
{
    Ok(Settings {
        store: None,
        pools: Seq::from_vec(vec![in alloc; open_pool(alloc)?]?),
    })
}
