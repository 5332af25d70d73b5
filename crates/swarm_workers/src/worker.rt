//! Sessions over a door.
ghost use Rattle.std.specs.Prelude.{◌≡◌, ◌+◌, ◌*◌, ◌≤◌, ◌^◌, IsTrue};
ghost use Rattle.swarm_model.specs.Settings.{are_settings};
ghost use Rattle.swarm_http.specs.Answered.{KeepsDoor};
ghost use Rattle.swarm_workers.specs.Works.{IsWorked};

use crate::Worked;
use crate::links::{LinkSessions, serve_links};
use std::alloc::Global;
use sw_base::{Acceptor, Link};
use swarm_http::{Clock, Door, Ended, RequestReader, session};
use swarm_model::Settings;

/// Sessions over a door, at the moments of a clock.
struct DoorSessions;

impl<D: Door, C: Clock> LinkSessions<D, C> for DoorSessions {
    ghost use Rattle.swarm_workers.specs.Works.{IsDoorSession, MayServe};

    ghost does = { λ first last ending x y. IsDoorSession first last ending (C.ahead x.1) (C.ahead y.1) (D.state x.0) (D.state y.0) };

    ghost may = { λ settings n x. MayServe settings n (D.state x.0) };

    fn session<L: Link>(
        alloc: Global,
        settings: &Settings,
        reader: &mut RequestReader,
        desk: &mut D,
        clock: &mut C,
        link: &mut L,
    ) -> Ended {
        session(alloc, settings, reader, desk, clock, link)
    }
}

/// Serves the links of the acceptor, one after another, each by a session over the one door: until
/// so many connections are served, there are no more, or no link can be accepted. Where there is no
/// memory to begin, none is served. A session that ends by a fault of its own link ends that link
/// alone.
pub fn work<A: Acceptor, D: Door, C: Clock>(
    alloc: Global,
    settings: &Settings,
    door: &mut D,
    clock: &mut C,
    acceptor: &mut A,
    connections: u32,
) -> Worked
    requires settings { (D.state door.old).settings ≡ settings.now }
    requires rules { IsTrue (are_settings settings.now) }
    requires number { connections ≤ 1000000 }
    requires calls { (D.state door.old).calls + 65536 * connections ≤ 2 ^ 40 }
    ensures worked { IsWorked (A.state acceptor.old) (A.state acceptor.new) (C.ahead clock.old) (C.ahead clock.new) (D.state door.old) (D.state door.new) connections result }
    ensures door { KeepsDoor (65536 * connections) (D.state door.old) (D.state door.new) }
{
    serve_links::<A, D, C, DoorSessions>(alloc, settings, door, clock, acceptor, connections)
}
