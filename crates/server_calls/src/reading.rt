//! What the bytes of a reply tell.
ghost use Rattle.std.specs.Prelude.{◌≡◌, ℕ, List, Option, Some, IfOk, Result};
ghost use Rattle.serde_json.specs.Data.{Data};
ghost use Rattle.serde_json.specs.View.{view};
ghost use Rattle.task_props.specs.declared.prop_fault.PropFault.{PropFault as SpecPropFault};
ghost use Rattle.routes.specs.declared.route.Route.{Route as SpecRoute};
ghost use Rattle.json_fields.specs.Readings.{Reads};
ghost use Rattle.server_calls.specs.declared.told.Told.{Told as SpecTold};
ghost use Rattle.server_calls.specs.Reading.{told_or_none as spec_told_or_none, value_in, good_of as spec_good_of, refusal_of as spec_refusal_of, told_of};

use crate::Told;
use crate::blobs::{blob_of, read_missing, read_put};
use crate::bots::{read_bot, read_noted, read_shaken, read_terminating, read_updated};
use crate::commands::{read_claimed, read_polled};
use crate::pages::{read_bots, read_tasks};
use crate::refusals::read_refusal;
use crate::tasks::{read_canceled, read_count, read_new, read_result, read_stdout};
use json_fields::{broken, read_body};
use routes::Route;
use serde_json::Value;
use std::alloc::{AllocError, Global};
use task_props::{PropFault, PropRule};

fn told_or_none(read: Result<Told, PropFault>) -> Result<Option<Told>, AllocError>
    ensures { (wanted : Result SpecTold SpecPropFault) → Reads read wanted → IfOk result (λ told. told ≡ spec_told_or_none wanted) }
{
    match read {
        Ok(told) => Ok(Some(told)),
        Err(PropFault::Memory) => Err(AllocError),
        Err(PropFault::Broken { .. }) => Ok(None),
    }
}

/// What the value of a body tells of the call of a route.
fn read_value(alloc: Global, route: Route, value: Value) -> Result<Told, PropFault>
    ensures { Reads result (value_in route (view value)) }
{
    match route {
        Route::NewTask => read_new(alloc, &value),
        Route::CancelTask => read_canceled(alloc, &value),
        Route::GetResult => read_result(alloc, &value),
        Route::GetStdout => read_stdout(alloc, &value),
        Route::ListTasks => read_tasks(alloc, &value),
        Route::CountTasks => read_count(alloc, &value),
        Route::GetBot => read_bot(alloc, &value),
        Route::ListBots => read_bots(alloc, &value),
        Route::TerminateBot => read_terminating(alloc, &value),
        Route::Handshake => read_shaken(alloc, &value),
        Route::Poll => read_polled(alloc, &value),
        Route::Claim => read_claimed(alloc, value),
        Route::Event => read_noted(alloc, &value),
        Route::TaskUpdate => read_updated(alloc, &value),
        Route::FindMissing => read_missing(alloc, &value),
        Route::PutBlob => read_put(alloc, &value),
        Route::GetBlob => Err(broken(alloc, "", PropRule::WrongType)),
    }
}

/// A reply of the status 200.
fn good_of(alloc: Global, route: Route, body: &[u8]) -> Result<Option<Told>, AllocError>
    ensures { IfOk result (λ told. told ≡ spec_good_of route body.now) }
{
    if let Route::GetBlob = route {
        return blob_of(alloc, body);
    }
    match read_body(alloc, body)? {
        Some(value) => told_or_none(read_value(alloc, route, value)),
        None => Ok(None),
    }
}

/// A reply of any other status.
fn refusal_of(alloc: Global, body: &[u8]) -> Result<Option<Told>, AllocError>
    ensures { IfOk result (λ told. told ≡ spec_refusal_of body.now) }
{
    match read_body(alloc, body)? {
        Some(value) => told_or_none(read_refusal(alloc, body, &value)),
        None => Ok(None),
    }
}

/// What a reply tells of the call of a route, by its status (RFC 9110, section 15) and its body;
/// none where it is no reply of this profile. A client that is told nothing can't know whether the
/// call was carried out.
///
/// # Errors
///
/// There is no memory for the value of the body or for what it tells.
#[tactic(auto, unfolding(crate::specs::Reading::told_of))]
pub fn read_reply(
    alloc: Global,
    route: Route,
    status: u16,
    body: &[u8],
) -> Result<Option<Told>, AllocError>
    ensures tells { IfOk result (λ told. told ≡ told_of route status body.now) }
{
    if status == 200 {
        good_of(alloc, route, body)
    } else {
        refusal_of(alloc, body)
    }
}

/// What is told depends on the route, the status and the body alone: of one reply one thing is told.
pub fn a_reply_has_one_reading()
    ensures one { (call : SpecRoute) (status : ℕ) (body : List ℕ) (one other : SpecTold) → told_of call status body ≡ Some one → told_of call status body ≡ Some other → one ≡ other }
{}
