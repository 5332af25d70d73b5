//! One connection, whatever answers its requests.
ghost use Rattle.std.specs.Prelude.{◌≡◌, ◌≤◌, ◌+◌, ℕ, Bool, IsTrue};
ghost use Rattle.sw_base.specs.Link.{IsClean};
ghost use Rattle.swarm_model.specs.Settings.{are_settings};
ghost use Rattle.swarm_http.specs.Conversing.{Converses};
ghost use Rattle.swarm_http.specs.Steps.{IsStep, count_of};

use crate::reply::ReplyBytes;
use crate::request::{Incoming, take_request};
use crate::send::send_shown;
use crate::{ConnectionCounts, Ended, Replies, RequestReader};
use link_reader::Pending;
use routes::Routes;
use std::alloc::Global;
use sw_base::Link;
use swarm_model::Settings;

/// Whether a connection goes on after a request.
#[derive(Clone, Copy, Debug, PartialEq, Eq)]
enum Step {
    Next {
        /// The request's reply has status 200.
        accepted: bool,
    },
    End {
        ended: Ended,
        /// A request was answered.
        asked: bool,
        /// Its reply has status 200.
        accepted: bool,
    },
}

// The most requests of one connection.
const REQUEST_LIMIT: u32 = 65536;

fn serve_one<D, C, R: Replies<D, C>, L: Link>(
    alloc: Global,
    settings: &Settings,
    routes: &Routes,
    pending: &mut Pending,
    desk: &mut D,
    clock: &mut C,
    link: &mut L,
) -> Step
    requires rules { IsTrue (are_settings settings.now) }
    requires may { (n : ℕ) × R.may settings.now (n + 1) (desk.old, clock.old) }
    requires clean { IsClean (L.state link.old) }
    ensures step { IsStep R.does pending.old pending.new (desk.old, clock.old) (desk.new, clock.new) (L.state link.old) (L.state link.new) result }
    ensures may { (accepted : Bool) → result ≡ Step.Next accepted →
        (n : ℕ) → R.may settings.now (n + 1) (desk.old, clock.old) → R.may settings.now n (desk.new, clock.new) }
{
    match take_request(alloc, routes, pending, link) {
        Incoming::Asks(received) => {
            let method = received.line.method;
            let closes = received.line.closes;
            let shown = R::answer(alloc, settings, received, desk, clock);
            let accepted = shown.is_accepted();
            match send_shown(link, shown, Some(method)) {
                Ok(()) if closes => Step::End {
                    ended: Ended::LastAsked,
                    asked: true,
                    accepted,
                },
                Ok(()) => Step::Next { accepted },
                Err(_) => Step::End {
                    ended: Ended::WriteFault,
                    asked: true,
                    accepted,
                },
            }
        }
        Incoming::Refuses { method, why } => match send_shown(
            link,
            ReplyBytes::Refused(why),
            method,
        ) {
            Ok(()) => Step::End {
                ended: Ended::BadHead,
                asked: false,
                accepted: false,
            },
            Err(_) => Step::End {
                ended: Ended::WriteFault,
                asked: false,
                accepted: false,
            },
        },
        Incoming::Ends(ended) => Step::End {
            ended,
            asked: false,
            accepted: false,
        },
    }
}

fn count_of(test: bool) -> u32
    ensures one { result ≡ count_of test }
    ensures few { result ≤ 1 }
{
    if test { 1 } else { 0 }
}

/// Answers the requests that come over a link by `R`, until it ends or has asked 65536 times, and
/// counts them.
pub fn converse<D, C, R: Replies<D, C>, L: Link>(
    alloc: Global,
    settings: &Settings,
    reader: &mut RequestReader,
    desk: &mut D,
    clock: &mut C,
    link: &mut L,
) -> ConnectionCounts
    requires rules { IsTrue (are_settings settings.now) }
    requires may { R.may settings.now 65536 (desk.old, clock.old) }
    requires clean { IsClean (L.state link.old) }
    ensures { Converses R.does (desk.old, clock.old) (desk.new, clock.new) (L.state link.old) (L.state link.new) result }
{
    reader.clear();
    let mut good = 0;
    'requests: for turn in 0..REQUEST_LIMIT {
        match serve_one::<D, C, R, L>(
            alloc,
            settings,
            &reader.routes,
            &mut reader.pending,
            desk,
            clock,
            link,
        ) {
            Step::Next { accepted } => good += count_of(accepted),
            Step::End {
                ended,
                asked,
                accepted,
            } => {
                return ConnectionCounts {
                    ended,
                    requests: turn + count_of(asked),
                    accepted: good + count_of(accepted),
                };
            }
        }
    }
    ConnectionCounts {
        ended: Ended::Retired,
        requests: REQUEST_LIMIT,
        accepted: good,
    }
}
