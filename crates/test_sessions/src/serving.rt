ghost use Rattle.std.specs.Prelude.{◌≡◌, length, IfOk, IsTrue};
ghost use Rattle.sw_base.specs.Link.{IsClean};
ghost use Rattle.swarm_model.specs.Settings.{are_settings};

use std::alloc::{AllocError, Global};
use sw_base::{Clock, Link};
use swarm_history::{LoadFault, PlainDoor};
use swarm_http::{Ended, RequestReader, session};
use swarm_keeper::{Keeper, NoKeeper};
use swarm_model::{Machine, PoolSettings, Settings};

/// Serves a link under these settings, over machines of what the keepers have, one for each pool, and
/// answers how it ended, with the keepers.
///
/// # Errors
///
/// The fault for which no door was made; then nothing is asked of the link and the clock.
pub fn serve<M: Machine + Drop, K: Keeper + Drop, L: Link, C: Clock>(
    alloc: Global,
    settings: &Settings,
    keepers: Vec<K>,
    link: &mut L,
    clock: &mut C,
) -> (Result<Ended, LoadFault>, Vec<K>)
    requires rules { IsTrue (are_settings settings.now) }
    requires count { length keepers.items ≡ length settings.now.pools }
    requires clean { IsClean (L.state link.old) }
{
    let Ok(mut reader) = RequestReader::new(alloc) else {
        return (Err(LoadFault::Memory), keepers);
    };
    match PlainDoor::<M, K>::new(alloc, settings, keepers) {
        Ok(mut door) => {
            let ended = session(alloc, settings, &mut reader, &mut door, clock, link);
            let (_, keepers) = door.end();
            (Ok(ended), keepers)
        }
        Err((fault, keepers)) => (Err(fault), keepers),
    }
}

/// For each pool a keeper that keeps nothing.
pub fn no_keepers(alloc: Global, pools: &[PoolSettings]) -> Result<Vec<NoKeeper>, AllocError>
    ensures { IfOk result (λ keepers. length keepers.items ≡ length pools.now) }
{
    let mut keepers = Vec::new(alloc);
    for _pool in pools {
        keepers.push(NoKeeper)?;
    }
    Ok(keepers)
}

/// Serves a link under these settings, over new logs of which nothing is kept, and answers how it ended.
///
/// # Errors
///
/// Want of memory for the door.
pub fn serve_new<M: Machine + Drop, L: Link, C: Clock>(
    alloc: Global,
    settings: &Settings,
    link: &mut L,
    clock: &mut C,
) -> Result<Ended, AllocError>
    requires rules { IsTrue (are_settings settings.now) }
    requires clean { IsClean (L.state link.old) }
{
    let keepers = no_keepers(alloc, settings.pools.as_slice())?;
    let (ended, _) = serve::<M, NoKeeper, L, C>(alloc, settings, keepers, link, clock);
    ended.map_err(|_| AllocError)
}
