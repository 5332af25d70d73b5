ghost use Rattle.std.specs.Prelude.{◌≡◌, ◌≢◌, ◌≤◌, ◌<◌, IfOk, IfErr, IsTrue, IsSomeAnd, length, slice_get};
ghost use Rattle.serde_json.specs.View.{view};
ghost use Rattle.swarm_model.specs.Bytes.{Carries};
ghost use Rattle.swarm_model.specs.Fits.{fits};
ghost use Rattle.swarm_wire.specs.Asking.{Asks, AsksBy, FitsPool, CarriesBytes, object_in, asked_in, asked_of};

use crate::asking::{
    ask_cancel, ask_count, ask_list, ask_named, ask_new, ask_result, ask_stdout, ask_update,
};
use crate::asking_blobs::{ask_get, ask_missing, ask_put};
use crate::{Asked, Parts, WireFault};
use bot_bodies::{
    read_bot_event, read_claim, read_get_bot, read_handshake, read_list_bots, read_poll,
    read_terminate,
};
use dimensions::Text;
use json_fields::read_body;
use routes::Route;
use serde_json::Value;
use std::alloc::Global;
use swarm_model::{PoolSettings, Settings};
use task_props::PropRule;

/// The object that a body is.
#[tactic(auto, unfolding(crate::specs::Asking::object_in))]
fn object(alloc: Global, body: &[u8]) -> Result<Value, WireFault>
    ensures { AsksBy view result (object_in body.now) }
{
    match read_body(alloc, body)? {
        Some(value) => {
            if value.is_object() {
                Ok(value)
            } else {
                Err(WireFault::BadField {
                    field: Text::new(alloc),
                    rule: PropRule::WrongType,
                })
            }
        }
        None => Err(WireFault::BadJson),
    }
}

fn ask(
    alloc: Global,
    pools: &[PoolSettings],
    route: Route,
    parts: &Parts,
    body: Vec<u8>,
) -> Result<Asked, WireFault>
    requires few { length pools.now ≤ 4 }
    requires short { length body.items ≤ 16777216 }
    ensures asks { Asks result (asked_in pools.now route parts.now body.items) }
    ensures fits { IfOk result (λ asked. FitsPool pools.now asked) }
    ensures carries { IfOk result CarriesBytes }
{
    let bytes = body.as_slice();
    match route {
        Route::NewTask => ask_new(alloc, pools, object(alloc, bytes)?),
        Route::CancelTask => ask_cancel(alloc, pools, &object(alloc, bytes)?),
        Route::GetResult => ask_result(alloc, pools, &object(alloc, bytes)?),
        Route::GetStdout => ask_stdout(alloc, pools, &object(alloc, bytes)?),
        Route::ListTasks => ask_list(alloc, pools, &object(alloc, bytes)?),
        Route::CountTasks => ask_count(alloc, pools, &object(alloc, bytes)?),
        Route::Handshake => ask_named(alloc, pools, read_handshake(alloc, &object(alloc, bytes)?)),
        Route::Poll => ask_named(alloc, pools, read_poll(alloc, &object(alloc, bytes)?)),
        Route::Claim => ask_named(alloc, pools, read_claim(alloc, &object(alloc, bytes)?)),
        Route::Event => ask_named(alloc, pools, read_bot_event(alloc, &object(alloc, bytes)?)),
        Route::TaskUpdate => ask_update(alloc, pools, &object(alloc, bytes)?),
        Route::TerminateBot => {
            ask_named(alloc, pools, read_terminate(alloc, &object(alloc, bytes)?))
        }
        Route::ListBots => ask_named(alloc, pools, read_list_bots(alloc, &object(alloc, bytes)?)),
        Route::GetBot => ask_named(alloc, pools, read_get_bot(alloc, &object(alloc, bytes)?)),
        Route::FindMissing => ask_missing(alloc, pools, parts, &object(alloc, bytes)?),
        Route::PutBlob => ask_put(alloc, pools, parts, body),
        Route::GetBlob => ask_get(alloc, pools, parts),
    }
}

/// What a call asks for: a request to one of the pools of the settings. The parts are those of the
/// call's target.
#[tactic(auto, unfolding(crate::specs::Asking::asked_of))]
pub fn read_request(
    alloc: Global,
    settings: &Settings,
    route: Route,
    parts: &Parts,
    body: Vec<u8>,
) -> Result<Asked, WireFault>
    requires few { length settings.now.pools ≤ 4 }
    requires short { length body.items ≤ 16777216 }
    ensures asks { IfOk result (λ asked. asked_of settings.now route parts.now body.items ≡ Ok asked) }
    ensures refused { IfErr result (λ fault. fault ≢ WireFault.Memory → asked_of settings.now route parts.now body.items ≡ Err fault) }
    ensures fits { IfOk result (λ asked. IsSomeAnd (slice_get settings.now.pools asked.place) (λ pool. IsTrue (fits pool asked.request))) }
    ensures place { IfOk result (λ asked. asked.place < 4) }
    ensures carries { IfOk result (λ asked. Carries asked.request asked.bytes) }
{
    ask(alloc, settings.pools.as_slice(), route, parts, body)
}
