//! One connection over a door.
ghost use Rattle.std.specs.Prelude.{◌≡◌, ◌≤◌, ◌+◌, ◌^◌, IsTrue};
ghost use Rattle.sw_base.specs.Link.{IsClean};
ghost use Rattle.swarm_model.specs.Settings.{are_settings};
ghost use Rattle.swarm_http.specs.Answered.{IsAnswered, KeepsDoor};
ghost use Rattle.swarm_http.specs.Counting.{IsCounted};
ghost use Rattle.swarm_http.specs.Steps.{AnswersByDoor, MayCall};

use crate::answer::answer_request;
use crate::connection::converse;
use crate::reply::ReplyBytes;
use crate::request::Received;
use crate::{ConnectionCounts, Ended, Replies, RequestReader};
use pool_doors::Door;
use std::alloc::Global;
use sw_base::{Clock, Link};
use swarm_model::Settings;

/// A door answers, at the moments of a clock.
struct ByDoor;

impl<D: Door, C: Clock> Replies<D, C> for ByDoor {
    ghost does = { λ head body status shown a b. AnswersByDoor head body status shown (C.ahead a.1) (C.ahead b.1) (D.state a.0) (D.state b.0) };

    ghost may = { λ settings n a. MayCall settings n (D.state a.0) };

    fn answer(
        alloc: Global,
        settings: &Settings,
        received: Received,
        desk: &mut D,
        clock: &mut C,
    ) -> ReplyBytes {
        answer_request(alloc, settings, received, desk, clock)
    }
}

/// Answers the requests that come over a link, until it ends or has asked 65536 times, and counts
/// them.
pub fn counted_session<D: Door, L: Link, C: Clock>(
    alloc: Global,
    settings: &Settings,
    reader: &mut RequestReader,
    door: &mut D,
    clock: &mut C,
    link: &mut L,
) -> ConnectionCounts
    requires settings { (D.state door.old).settings ≡ settings.now }
    requires rules { IsTrue (are_settings settings.now) }
    requires calls { (D.state door.old).calls + 65536 ≤ 2 ^ 40 }
    requires clean { IsClean (L.state link.old) }
    ensures counted { IsCounted
        (record { link = L.state link.old; clock = C.ahead clock.old; door = D.state door.old })
        (record { link = L.state link.new; clock = C.ahead clock.new; door = D.state door.new }) result }
    ensures door { KeepsDoor 65536 (D.state door.old) (D.state door.new) }
{
    converse::<D, C, ByDoor, L>(alloc, settings, reader, door, clock, link)
}

/// Answers the requests that come over a link, until it ends or has asked 65536 times.
pub fn session<D: Door, L: Link, C: Clock>(
    alloc: Global,
    settings: &Settings,
    reader: &mut RequestReader,
    door: &mut D,
    clock: &mut C,
    link: &mut L,
) -> Ended
    requires settings { (D.state door.old).settings ≡ settings.now }
    requires rules { IsTrue (are_settings settings.now) }
    requires calls { (D.state door.old).calls + 65536 ≤ 2 ^ 40 }
    requires clean { IsClean (L.state link.old) }
    ensures answered { IsAnswered
        (record { link = L.state link.old; clock = C.ahead clock.old; door = D.state door.old })
        (record { link = L.state link.new; clock = C.ahead clock.new; door = D.state door.new }) result }
    ensures door { KeepsDoor 65536 (D.state door.old) (D.state door.new) }
{
    counted_session(alloc, settings, reader, door, clock, link).ended
}
