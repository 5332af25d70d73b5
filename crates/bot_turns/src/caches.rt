//! CleanUp: the caches of a run come back.
ghost use Rattle.std.specs.Prelude.{◌≡◌, IfOk, OnOk, IsSome, map, length};
ghost use Rattle.bot_turns.specs.CacheTurns.{trimmed, with_cache, with_caches, cache_path as spec_cache_path, KeepsTable, IsCleanUpTurn};
ghost use Rattle.bot_turns.specs.Ends.{StillTells};

use bot_core::BotEvent;
use bot_requests::Hands;
use dimensions::{Text, TryCopy};
use named_caches::CacheTable;
use runners::{CachePath, Runner};
use std::alloc::{AllocError, Global};
use sw_base::StartFault;
use task_props::Cache;

/// Takes out the caches that were used the longest ago, until both limits hold.
#[tactic(auto, using(crate::proofs::TrimLemmas::all_fit, crate::proofs::TrimLemmas::last_goes))]
fn trim(table: &mut CacheTable)
    ensures { table.new ≡ trimmed table.old }
{
    while table.trim_one().is_some() {}
}

fn return_cache(
    alloc: Global,
    table: &mut CacheTable,
    name: &Text,
    size: u64,
) -> Result<(), AllocError>
    ensures { OnOk result (table.new ≡ with_cache name.now size table.old) }
{
    if let Err((error, _)) = table.give_back(name.try_copy(alloc)?, size) {
        return Err(error);
    }
    trim(table);
    Ok(())
}

fn return_caches(
    alloc: Global,
    table: &mut CacheTable,
    caches: &[Cache],
    sizes: &[u64],
) -> Result<(), AllocError>
    requires { length sizes.now ≡ length caches.now }
    ensures { OnOk result (table.new ≡ with_caches caches.now sizes.now table.old) }
{
    for at in 0..caches.len() {
        return_cache(alloc, table, &caches[at].name, sizes[at])?;
    }
    Ok(())
}

fn cache_path(alloc: Global, cache: &Cache) -> Result<CachePath, AllocError>
    ensures { IfOk result (λ path. path ≡ spec_cache_path cache.now) }
{
    Ok(CachePath {
        name: cache.name.try_copy(alloc)?,
        path: cache.path.try_copy(alloc)?,
    })
}

fn cache_paths(alloc: Global, caches: &[Cache]) -> Result<Vec<CachePath>, AllocError>
    ensures { IfOk result (λ paths. paths.items ≡ map spec_cache_path caches.now) }
{
    let mut paths = Vec::new(alloc);
    for cache in caches {
        paths.push(cache_path(alloc, cache)?)?;
    }
    Ok(paths)
}

/// Has the runner remove the caches that left the table. One that it can't remove stays until the next
/// time.
#[tactic(auto, using(crate::proofs::TellLemmas::performs_tells))]
fn drop_trimmed<R: Runner>(table: &CacheTable, runner: &mut R) -> Result<(), AllocError>
    ensures keeps { OnOk result (KeepsTable table.now (R.state runner.old) (R.state runner.new)) }
    ensures tells { StillTells (R.state runner.old) (R.state runner.new) }
{
    let names = table.names()?;
    match runner.keep(names.as_slice()) {
        Ok(()) | Err(StartFault::Failed) => Ok(()),
        Err(StartFault::Memory) => Err(AllocError),
    }
}

pub(crate) fn clean_up<R: Runner>(
    alloc: Global,
    hands: &mut Hands,
    runner: &mut R,
) -> Result<BotEvent, AllocError>
    requires { IsSome hands.old.run }
    ensures turn { IfOk result (λ e. IsCleanUpTurn hands.old e (R.state runner.old) (R.state runner.new) hands.new) }
    ensures tells { StillTells (R.state runner.old) (R.state runner.new) }
{
    let Some((_, properties)) = &hands.run else {
        unreachable!()
    };
    let caches = properties.caches.as_slice();
    let paths = cache_paths(alloc, caches)?;
    match runner.clean(paths.as_slice()) {
        Ok(sizes) => {
            return_caches(alloc, &mut hands.caches, caches, sizes.as_slice())?;
            drop_trimmed(&hands.caches, runner)?;
            Ok(BotEvent::Cleaned)
        }
        Err(StartFault::Failed) => Ok(BotEvent::RunnerFailed),
        Err(StartFault::Memory) => Err(AllocError),
    }
}
