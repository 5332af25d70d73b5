//! What is asked of blobs, whose pools and digests stand in the target.
ghost use Rattle.std.specs.Prelude.{◌≡◌, ◌≤◌, IfOk, length};
ghost use Rattle.serde_json.specs.View.{view};
ghost use Rattle.swarm_wire.specs.Asking.{Asks, FitsPool, CarriesBytes, missing_of, put_of, get_of};

use crate::pools::pool_place;
use crate::{Asked, Parts, WireFault};
use dimensions::Seq;
use json_fields::read_digest_at;
use serde_json::Value;
use sha2::{Digest as Hash, Sha256};
use std::alloc::Global;
use swarm_model::{PoolSettings, Request};
use task_bodies::read_blobs;

/// Which blobs are not held, asked of the pool in the target.
#[tactic(auto, unfolding(crate::specs::Asking::missing_of))]
pub(crate) fn ask_missing(
    alloc: Global,
    pools: &[PoolSettings],
    parts: &Parts,
    body: &Value,
) -> Result<Asked, WireFault>
    requires few { length pools.now ≤ 4 }
    ensures asks { Asks result (missing_of pools.now parts.now (view body.now)) }
    ensures fits { IfOk result (λ asked. FitsPool pools.now asked) }
    ensures carries { IfOk result CarriesBytes }
{
    let blobs = read_blobs(alloc, body)?;
    let Some(place) = pool_place(pools, parts.pool.as_str()) else {
        return Err(WireFault::NoPool);
    };
    Ok(Asked {
        place,
        request: Request::FindMissing { blobs },
        bytes: Seq::new(alloc),
    })
}

/// That the body be held under the digest in the target.
#[tactic(auto, unfolding(crate::specs::Asking::put_of))]
pub(crate) fn ask_put(
    alloc: Global,
    pools: &[PoolSettings],
    parts: &Parts,
    body: Vec<u8>,
) -> Result<Asked, WireFault>
    requires few { length pools.now ≤ 4 }
    requires short { length body.items ≤ 16777216 }
    ensures asks { Asks result (put_of pools.now parts.now body.items) }
    ensures fits { IfOk result (λ asked. FitsPool pools.now asked) }
    ensures carries { IfOk result CarriesBytes }
{
    let named = read_digest_at(alloc, "digest", parts.digest.as_str())?;
    let Some(place) = pool_place(pools, parts.pool.as_str()) else {
        return Err(WireFault::NoPool);
    };
    Ok(Asked {
        place,
        request: Request::PutBlob {
            named,
            actual: Sha256::digest(body.as_slice()),
            size: body.len() as u32,
        },
        bytes: Seq::from_vec(body),
    })
}

/// The bytes of the blob in the target.
#[tactic(auto, unfolding(crate::specs::Asking::get_of))]
pub(crate) fn ask_get(
    alloc: Global,
    pools: &[PoolSettings],
    parts: &Parts,
) -> Result<Asked, WireFault>
    requires few { length pools.now ≤ 4 }
    ensures asks { Asks result (get_of pools.now parts.now) }
    ensures fits { IfOk result (λ asked. FitsPool pools.now asked) }
    ensures carries { IfOk result CarriesBytes }
{
    let digest = read_digest_at(alloc, "digest", parts.digest.as_str())?;
    let Some(place) = pool_place(pools, parts.pool.as_str()) else {
        return Err(WireFault::NoPool);
    };
    Ok(Asked {
        place,
        request: Request::GetBlob { digest },
        bytes: Seq::new(alloc),
    })
}
