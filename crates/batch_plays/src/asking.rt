//! What a line asks of the pool, or the refusal that comes before any pool is asked.
ghost use Rattle.std.specs.Prelude.{◌≡◌, ◌≤◌, Ok, IfOk, length};
ghost use Rattle.swarm_wire.specs.Asking.{FitsPool, CarriesBytes};
ghost use Rattle.batch_plays.specs.Asking.{may_create as spec_may_create, asking_by, asking_of as spec_asking_of, IsAskable};

use dimensions::Text;
use refusal_codes::RefusalCode;
use routes::Route;
use std::alloc::{AllocError, Global};
use swarm_model::{Permission, Settings, allowed};
use swarm_wire::{Asked, Parts, WireFault, read_request};

/// The most bytes of a body that is read.
const MOST_BODY: usize = 65_536;

/// What a body asks.
#[derive(Drop)]
pub(crate) enum Asking {
    /// A request to the pool.
    Asks(Asked),
    /// The code of the refusal that comes before any pool is asked.
    Refused(RefusalCode),
}

/// Whether the pool at a place lets the caller create tasks.
fn may_create(settings: &Settings, who: &Text, place: u32) -> bool
    ensures { result ≡ spec_may_create settings.now who.now place }
{
    match settings.pools.as_slice().get(place as usize) {
        Some(pool) => allowed(pool, who, Permission::CreateTask),
        None => false,
    }
}

/// What was read, where its pool lets the caller ask it.
fn permitted(settings: &Settings, who: &Text, asked: Asked) -> Asking
    requires fits { FitsPool settings.now.pools asked }
    requires carries { CarriesBytes asked }
    ensures is { result ≡ asking_by settings.now who.now (Ok asked) }
    ensures askable { IsAskable settings.now result }
{
    if may_create(settings, who, asked.place) {
        Asking::Asks(asked)
    } else {
        Asking::Refused(RefusalCode::Denied)
    }
}

/// What the body of a line asks.
pub(crate) fn asking_of(
    alloc: Global,
    settings: &Settings,
    who: &Text,
    body: Vec<u8>,
) -> Result<Asking, AllocError>
    requires few { length settings.now.pools ≤ 4 }
    ensures is { IfOk result (λ asking. asking ≡ spec_asking_of settings.now who.now body.items) }
    ensures askable { IfOk result (IsAskable settings.now) }
{
    if body.len() > MOST_BODY {
        return Ok(Asking::Refused(RefusalCode::TooLarge));
    }
    let parts = Parts {
        pool: Text::new(alloc),
        digest: Text::new(alloc),
    };
    match read_request(alloc, settings, Route::NewTask, &parts, body) {
        Ok(asked) => Ok(permitted(settings, who, asked)),
        Err(WireFault::Memory) => Err(AllocError),
        Err(WireFault::BadJson) => Ok(Asking::Refused(RefusalCode::BadJson)),
        Err(WireFault::BadField { .. }) => Ok(Asking::Refused(RefusalCode::BadField)),
        Err(WireFault::NoPool) => Ok(Asking::Refused(RefusalCode::NoPool)),
        Err(WireFault::NoTask) => Ok(Asking::Refused(RefusalCode::NoTask)),
    }
}
