//! Answering a request by the views of the pools.
ghost use Rattle.std.specs.Prelude.{◌≡◌, ◌<◌, ◌≤◌, ℕ, List, IfSome, IsSomeAnd, IsTrue, length, slice_get};
ghost use Rattle.httparse.specs.Grammar.{RequestHead};
ghost use Rattle.request_head.specs.HeadFields.{after_of};
ghost use Rattle.swarm_model.specs.Fits.{fits};
ghost use Rattle.swarm_model.specs.Settings.{are_settings};
ghost use Rattle.pool_views.specs.Views.{pools_of, reads_rows};
ghost use Rattle.swarm_http.specs.Requests.{board_request_of, caller_request_of, front_of};
ghost use Rattle.swarm_http.specs.Sends.{status_in, shown_in};
ghost use Rattle.swarm_http.specs.Takes.{IsHeld};
ghost use Rattle.board_sessions.specs.Outcomes.{settings_of};
ghost use Rattle.board_sessions.specs.Steps.{Answers};

use dimensions::Seq;
use pool_views::Views;
use std::alloc::Global;
use swarm_http::{
    PermittedCall, Received, Refusal, ReplyBytes, ServedCalls, read_call, whole_reply,
};
use swarm_model::Settings;

/// Asks the view of the call's pool. A reply for which there is no memory has no front, also where the
/// view answered.
fn ask_view<V: Views>(alloc: Global, call: &PermittedCall, views: &mut V) -> ReplyBytes
    requires low { call.now.asked.place < 4 }
    requires place { call.now.asked.place < length (V.known views.old) }
    requires reads { IsTrue (reads_rows call.now.asked.request) }
    requires fits { IsSomeAnd (slice_get (V.known views.old) call.now.asked.place) (λ view. IsTrue (fits view.start.rows.settings call.now.asked.request)) }
    ensures answers { (head : RequestHead) (body : List ℕ) → call.now.after ≡ front_of (after_of head)
        → board_request_of (settings_of (V.known views.old)) head body ≡ caller_request_of call.now.who call.now.asked
        → Answers head body (status_in result) (shown_in result) (V.known views.old) (V.known views.new) }
    ensures pools { pools_of (V.known views.new) ≡ pools_of (V.known views.old) }
{
    let asked = &call.asked;
    match views.ask(asked.place, call.after, &call.who, &asked.request) {
        Ok(viewed) => {
            let pieces = Seq::new(alloc);
            match whole_reply(
                alloc,
                asked.place,
                Some(viewed.front),
                &viewed.reply,
                pieces,
            ) {
                Ok(shown) => shown,
                Err(_) => ReplyBytes::Refused(Refusal::WantOfMemory),
            }
        }
        Err(_) => ReplyBytes::Refused(Refusal::WantOfMemory),
    }
}

/// Answers a request.
pub fn answer_request<V: Views>(
    alloc: Global,
    settings: &Settings,
    received: Received,
    views: &mut V,
) -> ReplyBytes
    requires rules { IsTrue (are_settings settings.now) }
    requires short { IfSome received.body (λ body. length body.items ≤ 16777216) }
    requires pools { pools_of (V.known views.old) ≡ settings.now.pools }
    ensures answers { (body : List ℕ) (head : RequestHead) → IsHeld received body head
        → Answers head body (status_in result) (shown_in result) (V.known views.old) (V.known views.new) }
    ensures pools { pools_of (V.known views.new) ≡ settings.now.pools }
{
    match read_call(alloc, settings, received, ServedCalls::Boards) {
        Ok(call) => ask_view(alloc, &call, views),
        Err(shown) => shown,
    }
}
