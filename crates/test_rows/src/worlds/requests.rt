//! Requests of others, as they stand on a link.

use crate::fault::Fault;
use dimensions::Text;
use routes::{Resource, Routes};
use std::alloc::Global;
use swarm_model::Settings;
use swarm_wire::{Asked, Parts, WireFault, read_request};

/// A request that a line names: the target of a call, and its body.
#[derive(Drop)]
pub(crate) struct NamedRequest {
    pub name: String,
    pub target: String,
    pub body: String,
}

/// The most bytes of a body.
const MOST_BODY: usize = 16_777_216;

/// What a request asks of the pool of these settings, where it is one.
pub(crate) fn read_asked(
    alloc: Global,
    routes: &Routes,
    settings: &Settings,
    named: &NamedRequest,
) -> Result<Option<Asked>, Fault> {
    let Some(found) = routes.find(named.target.as_str()) else {
        return Ok(None);
    };
    let Resource::Call(route) = found.resource else {
        return Ok(None);
    };
    let body = named.body.as_str().as_bytes();
    if settings.pools.as_slice().len() > 4 || body.len() > MOST_BODY {
        return Ok(None);
    }
    let parts = Parts {
        pool: Text::from_str(alloc, found.pool)?,
        digest: Text::from_str(alloc, found.digest)?,
    };
    let body = Vec::from_slice(alloc, body)?;
    match read_request(alloc, settings, route, &parts, body) {
        Ok(asked) => Ok(Some(asked)),
        Err(WireFault::Memory) => Err(Fault::Memory),
        Err(_) => Ok(None),
    }
}
