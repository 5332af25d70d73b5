//! The pools of the settings, by their names and by the ids of their tasks.
ghost use Rattle.std.specs.Prelude.{◌≡◌, ◌≤◌, ◌<◌, IfOk, IfSome, IsTrue, IsSomeAnd, length, slice_get};
ghost use Rattle.dimensions.specs.Alike.{same};
ghost use Rattle.swarm_wire.specs.Pools.{pool_place as spec_place_of};
ghost use Rattle.swarm_wire.specs.Asking.{pool_at as spec_pool_at};

use crate::WireFault;
use json_fields::place_of_id;
use swarm_model::PoolSettings;

/// The place of the pool of a name.
#[tactic(auto, unfolding(crate::specs::Pools::pool_place))]
pub(crate) fn pool_place(pools: &[PoolSettings], name: &str) -> Option<u32>
    requires few { length pools.now ≤ 4 }
    ensures is { result ≡ spec_place_of pools.now name.now }
    ensures named { IfSome result (λ place. IsSomeAnd (slice_get pools.now place) (λ pool. IsTrue (same pool.name name.now))) }
{
    for (place, pool) in pools.iter().enumerate() {
        if pool.name.as_str() == name {
            return Some(place as u32);
        }
    }
    None
}

/// The place of the pool of an id, where the settings have one there.
pub(crate) fn pool_at(pools: &[PoolSettings], id: u32) -> Result<u32, WireFault>
    ensures is { result ≡ spec_pool_at pools.now id }
    ensures within { IfOk result (λ place. place < length pools.now) }
{
    let place = place_of_id(id);
    if (place as usize) < pools.len() {
        Ok(place)
    } else {
        Err(WireFault::NoTask)
    }
}
