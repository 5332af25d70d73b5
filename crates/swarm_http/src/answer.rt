//! Answering a request by a door.
ghost use Rattle.std.specs.Prelude.{◌≡◌, ◌<◌, ◌≤◌, ◌^◌, ℕ, List, IsTrue, IsSomeAnd, IfSome, length, slice_get};
ghost use Rattle.httparse.specs.Grammar.{RequestHead};
ghost use Rattle.request_head.specs.HeadFields.{after_of};
ghost use Rattle.swarm_model.specs.Bytes.{Carries};
ghost use Rattle.swarm_model.specs.Fits.{fits};
ghost use Rattle.swarm_model.specs.Settings.{are_settings};
ghost use Rattle.swarm_http.specs.Requests.{front_of, caller_request_of, request_of};
ghost use Rattle.swarm_http.specs.Outcomes.{stop_rule};
ghost use Rattle.swarm_http.specs.Sends.{rule_of, status_in, shown_in};
ghost use Rattle.swarm_http.specs.Takes.{IsHeld};
ghost use Rattle.swarm_http.specs.Answered.{KeepsDoor};
ghost use Rattle.swarm_http.specs.Steps.{Answers};

use crate::ServedCalls;
use crate::permitted_call::{PermittedCall, read_call};
use crate::reply::{Refusal, ReplyBytes, whole_reply};
use crate::request::Received;
use pool_doors::{CallFault, Door, PoolCall};
use std::alloc::Global;
use sw_base::Clock;
use swarm_model::Settings;

fn stop_refusal(why: CallFault) -> Refusal
    ensures { rule_of result ≡ stop_rule why }
{
    match why {
        CallFault::Memory => Refusal::WantOfMemory,
        CallFault::LogFull => Refusal::LogFull,
        CallFault::Keeper => Refusal::KeeperFault,
    }
}

fn call_door<D: Door, C: Clock>(
    alloc: Global,
    call: &PermittedCall,
    door: &mut D,
    clock: &mut C,
) -> ReplyBytes
    requires low { call.now.asked.place < 4 }
    requires place { call.now.asked.place < length (D.state door.old).settings.pools }
    requires fits { IsSomeAnd (slice_get (D.state door.old).settings.pools call.now.asked.place) (λ pool. IsTrue (fits pool call.now.asked.request)) }
    requires carries { Carries call.now.asked.request call.now.asked.bytes }
    requires calls { (D.state door.old).calls < 2 ^ 40 }
    ensures answers { (head : RequestHead) (body : List ℕ) → call.now.after ≡ front_of (after_of head) →
        request_of (D.state door.old).settings head body ≡ caller_request_of call.now.who call.now.asked →
        Answers head body (status_in result) (shown_in result) (C.ahead clock.old) (C.ahead clock.new) (D.state door.old) (D.state door.new) }
    ensures door { KeepsDoor 1 (D.state door.old) (D.state door.new) }
{
    let place = call.asked.place;
    let moment = clock.now();
    let pool_call = PoolCall {
        moment,
        after: call.after,
        who: &call.who,
        request: &call.asked.request,
        bytes: call.asked.bytes.as_slice(),
    };
    match door.call(place, &pool_call) {
        Ok(answered) => {
            let pieces = answered.pieces;
            let front = Some(answered.front);
            match whole_reply(alloc, place, front, &answered.reply, pieces) {
                Ok(shown) => shown,
                Err(_) => ReplyBytes::WantOfMemoryAt(answered.front),
            }
        }
        Err(why) => ReplyBytes::Refused(stop_refusal(why)),
    }
}

/// Answers a request.
pub fn answer_request<D: Door, C: Clock>(
    alloc: Global,
    settings: &Settings,
    received: Received,
    door: &mut D,
    clock: &mut C,
) -> ReplyBytes
    requires settings { (D.state door.old).settings ≡ settings.now }
    requires rules { IsTrue (are_settings settings.now) }
    requires short { IfSome received.body (λ body. length body.items ≤ 16777216) }
    requires calls { (D.state door.old).calls < 2 ^ 40 }
    ensures answers { (body : List ℕ) (head : RequestHead) → IsHeld received body head →
        Answers head body (status_in result) (shown_in result) (C.ahead clock.old) (C.ahead clock.new) (D.state door.old) (D.state door.new) }
    ensures door { KeepsDoor 1 (D.state door.old) (D.state door.new) }
{
    match read_call(alloc, settings, received, ServedCalls::All) {
        Ok(call) => call_door(alloc, &call, door, clock),
        Err(shown) => shown,
    }
}
