//! What a request asks of a pool, or why it is refused before any pool is asked.
ghost use Rattle.std.specs.Prelude.{◌≡◌, ◌≢◌, ◌<◌, ◌≤◌, ℕ, List, Result, Ok, Err, IsTrue, IsSomeAnd, IfOk, IfErr, IfSome, length, slice_get};
ghost use Rattle.httparse.specs.Grammar.{RequestHead};
ghost use Rattle.request_head.specs.HeadFields.{after_of};
ghost use Rattle.swarm_model.specs.Bytes.{Carries};
ghost use Rattle.swarm_model.specs.Fits.{fits};
ghost use Rattle.swarm_model.specs.Settings.{are_settings};
ghost use Rattle.pool_views.specs.Views.{reads_rows};
ghost use Rattle.swarm_http.specs.Types.{Asked, WireFault};
ghost use Rattle.swarm_wire.specs.Asking.{asked_of};
ghost use Rattle.swarm_http.specs.Requests.{among, is_board_call, front_of, unless_front_broken, with_front, caller_request_of, request_among, routed};
ghost use Rattle.swarm_http.specs.Sends.{rule_of};
ghost use Rattle.swarm_http.specs.Takes.{IsHeld};
ghost use Rattle.swarm_http.specs.Steps.{IsRejection};

use crate::ServedCalls;
use crate::permitting::check_permission;
use crate::reply::{Refusal, ReplyBytes, refusal_reply};
use crate::request::{Caller, Received, RequestLine};
use dimensions::Text;
use request_head::{After, Method};
use routes::{Resource, Route};
use std::alloc::Global;
use swarm_model::{Rule, Settings};
use swarm_wire::{Asked, Parts, WireFault, read_request};

/// What a caller asks of a pool that permits it.
#[derive(Drop)]
pub struct PermittedCall {
    pub who: Text,
    /// The length of a log that the caller has seen.
    pub after: Option<u64>,
    pub asked: Asked,
}

/// Whether boards serve a call.
fn is_board_call(call: Route) -> bool
    ensures { result ≡ is_board_call call }
{
    matches!(
        call,
        Route::CountTasks | Route::ListTasks | Route::GetResult | Route::ListBots | Route::GetBot
    )
}

/// What stands at a target, where these calls are served.
fn among(serves: ServedCalls, resource: Option<Resource>) -> Option<Resource>
    ensures { result ≡ among serves resource }
{
    match serves {
        ServedCalls::All => resource,
        ServedCalls::Boards => match resource {
            Some(Resource::Call(call)) if is_board_call(call) => resource,
            Some(_) | None => None,
        },
    }
}

/// The route of what stands at a target, by the method of the request.
fn routed(resource: Option<Resource>, method: Method) -> Result<Route, Refusal>
    ensures route { IfOk result (λ route. routed resource method ≡ Ok route) }
    ensures refused { IfErr result (λ why. routed resource method ≡ Err (rule_of why)) }
{
    match (resource, method) {
        (None, _) => Err(Refusal::NoRoute),
        (Some(Resource::Call(route)), Method::Post) => Ok(route),
        (Some(Resource::Blob), Method::Put) => Ok(Route::PutBlob),
        (Some(Resource::Blob), Method::Get) => Ok(Route::GetBlob),
        (Some(_), _) => Err(Refusal::BadMethod),
    }
}

fn front_of(after: After) -> Option<u64>
    ensures { result ≡ front_of after }
{
    match after {
        After::Front(front) => Some(front),
        After::Absent | After::Broken => None,
    }
}

/// A malformed X-Swarming-After is reported before no_pool and no_task.
fn unless_front_broken(after: After, why: Refusal) -> Refusal
    ensures { unless_front_broken after (Err (rule_of why)) ≡ Err (rule_of result) }
{
    match after {
        After::Broken => Refusal::FrontBroken,
        After::Absent | After::Front(_) => why,
    }
}

fn fault_reply(alloc: Global, after: After, fault: WireFault) -> ReplyBytes
    ensures { (asked : Result Asked WireFault) → (fault ≢ WireFault.Memory → asked ≡ Err fault) → IsRejection result (with_front after asked) }
{
    match fault {
        WireFault::Memory => ReplyBytes::Refused(Refusal::WantOfMemory),
        WireFault::BadJson => ReplyBytes::Refused(Refusal::BadJson),
        WireFault::BadField { field, rule } => {
            refusal_reply(alloc, Rule::BadField { field, rule })
        }
        WireFault::NoPool => ReplyBytes::Refused(unless_front_broken(after, Refusal::NoPool)),
        WireFault::NoTask => ReplyBytes::Refused(unless_front_broken(after, Refusal::NoTask)),
    }
}

/// What a request asks for, or its refusal.
#[tactic(auto, using(crate::proofs::Pools::few_pools))]
fn read_asked(
    alloc: Global,
    settings: &Settings,
    route: Route,
    parts: &Parts,
    after: After,
    body: Vec<u8>,
) -> Result<Asked, ReplyBytes>
    requires rules { IsTrue (are_settings settings.now) }
    requires short { length body.items ≤ 16777216 }
    ensures asks { IfOk result (λ asked. with_front after (asked_of settings.now route parts.now body.items) ≡ Ok asked) }
    ensures refused { IfErr result (λ shown. IsRejection shown (with_front after (asked_of settings.now route parts.now body.items))) }
    ensures carries { IfOk result (λ asked. Carries asked.request asked.bytes) }
    ensures fits { IfOk result (λ asked. IsSomeAnd (slice_get settings.now.pools asked.place) (λ pool. IsTrue (fits pool asked.request))) }
    ensures place { IfOk result (λ asked. asked.place < 4) }
{
    match read_request(alloc, settings, route, parts, body) {
        Ok(asked) => match after {
            After::Broken => Err(ReplyBytes::Refused(Refusal::FrontBroken)),
            After::Absent | After::Front(_) => Ok(asked),
        },
        Err(fault) => Err(fault_reply(alloc, after, fault)),
    }
}

/// What a request asks of a pool, where these calls are served. Where only some are, any other target
/// counts as one at which nothing stands, whatever the method of the request.
///
/// # Errors
///
/// The reply of the refusal, or that for want of memory.
pub fn read_call(
    alloc: Global,
    settings: &Settings,
    received: Received,
    serves: ServedCalls,
) -> Result<PermittedCall, ReplyBytes>
    requires rules { IsTrue (are_settings settings.now) }
    requires short { IfSome received.body (λ body. length body.items ≤ 16777216) }
    ensures asks { (body : List ℕ) (head : RequestHead) → IsHeld received body head →
        IfOk result (λ call. request_among serves settings.now head body ≡ caller_request_of call.who call.asked) }
    ensures after { (body : List ℕ) (head : RequestHead) → IsHeld received body head → IfOk result (λ call. call.after ≡ front_of (after_of head)) }
    ensures refused { (body : List ℕ) (head : RequestHead) → IsHeld received body head →
        IfErr result (λ shown. IsRejection shown (request_among serves settings.now head body)) }
    ensures carries { IfOk result (λ call. Carries call.asked.request call.asked.bytes) }
    ensures fits { IfOk result (λ call. IsSomeAnd (slice_get settings.now.pools call.asked.place) (λ pool. IsTrue (fits pool call.asked.request))) }
    ensures place { IfOk result (λ call. call.asked.place < 4) }
    ensures reads { serves ≡ ServedCalls.Boards → IfOk result (λ call. IsTrue (reads_rows call.asked.request)) }
{
    let Received { line, body } = received;
    let RequestLine {
        resource,
        parts,
        method,
        who,
        after,
        closes: _,
    } = line;
    let route = match routed(among(serves, resource), method) {
        Ok(route) => route,
        Err(why) => return Err(ReplyBytes::Refused(why)),
    };
    let who = match who {
        Caller::Named(who) => who,
        Caller::Unnamed => return Err(ReplyBytes::Refused(Refusal::NoCaller)),
        Caller::NoMemory => return Err(ReplyBytes::Refused(Refusal::WantOfMemory)),
    };
    let (Some(parts), Some(body)) = (parts, body) else {
        return Err(ReplyBytes::Refused(Refusal::WantOfMemory));
    };
    match read_asked(alloc, settings, route, &parts, after, body) {
        Ok(asked) => match check_permission(alloc, settings, &who, &asked) {
            Ok(()) => Ok(PermittedCall {
                who,
                after: front_of(after),
                asked,
            }),
            Err(denied) => Err(denied),
        },
        Err(shown) => Err(shown),
    }
}
