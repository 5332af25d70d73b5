//! The pools of a server, as it is made.
ghost use Rattle.std.specs.Prelude.{◌≡◌, [], length, IsTrue, IfOk};
ghost use Rattle.swarm_model.specs.Settings.{are_settings, keeps_rules};
ghost use Rattle.turnstile.specs.Passes.{IsPassOf, fixed_of, opening};
ghost use Rattle.shared_doors.specs.Lasting.{first_lasting};
ghost use Rattle.shared_doors.specs.Machines.{lasting_in, log_in};
ghost use Rattle.shared_doors.specs.Opened.{AreOpened};
ghost use Rattle.shared_doors.specs.Views.{first_view, look};

use crate::kept::Kept;
use crate::server::Passes;
use dimensions::TryCopy;
use std::alloc::{AllocError, Global};
use swarm_keeper::Keeper;
use swarm_model::{Machine, PoolSettings, Settings};
use turnstile::{Pass, Turnstile};

/// A turnstile round a machine of the pool, to which nothing led, and its first pass.
fn open_pool<M: Machine + Drop, K: Keeper + Drop>(
    alloc: Global,
    settings: &PoolSettings,
    keeper: K,
) -> Result<(Turnstile<Kept<M, K>>, Pass<Kept<M, K>>), AllocError>
    requires { IsTrue (keeps_rules settings.now) }
    ensures own { IfOk result (λ r. IsPassOf (lasting_in M.kept) r.0 r.1) }
    ensures lasting { IfOk result (λ r. fixed_of (lasting_in M.kept) r.0 ≡ first_lasting settings.now) }
    ensures empty { IfOk result (λ r. opening (log_in M.kept) r.0 ≡ []) }
    ensures fresh { IfOk result (λ r. look r.1 ≡ first_view) }
{
    let pool = settings.try_copy(alloc)?;
    let machine = M::new(alloc, pool)?;
    Turnstile::new(alloc, Kept { machine, keeper })
}

/// A turnstile for each pool, with the keeper at its place, and the first passes.
pub(crate) fn open_all<M: Machine + Drop, K: Keeper + Drop>(
    alloc: Global,
    settings: &Settings,
    keepers: Vec<K>,
) -> Result<(Vec<Turnstile<Kept<M, K>>>, Passes<M, K>), AllocError>
    requires rules { IsTrue (are_settings settings.now) }
    requires keepers { length keepers.items ≡ length settings.now.pools }
    ensures { IfOk result (λ r. AreOpened (lasting_in M.kept) (log_in M.kept) settings.now.pools r.0.items r.1.passes.items) }
{
    let pools = settings.pools.as_slice();
    let count = pools.len();
    let mut turnstiles = Vec::with_capacity(alloc, count)?;
    let mut passes = Vec::with_capacity(alloc, count)?;
    let mut rest = keepers.into_iter();
    for pool in pools {
        let Some(keeper) = rest.next() else {
            unreachable!();
        };
        let (turnstile, pass) = open_pool(alloc, pool, keeper)?;
        turnstiles.push_reserved(turnstile);
        passes.push_reserved(Some(pass));
    }
    Ok((turnstiles, Passes { passes }))
}
