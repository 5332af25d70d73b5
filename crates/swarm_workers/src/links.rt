//! Sessions over the links of an acceptor, whatever holds them.
ghost use Rattle.std.specs.Prelude.{◌≡◌, ◌+◌, ◌≤◌, ℕ, IsTrue};
ghost use Rattle.sw_base.specs.Link.{IsClean};
ghost use Rattle.swarm_model.specs.Settings.{are_settings};
ghost use Rattle.swarm_workers.specs.Visits.{HasServed, IsTurn, TellsFault};

use crate::{WorkStop, Worked};
use std::alloc::Global;
use sw_base::{Acceptor, Link};
use swarm_http::{Ended, RequestReader};
use swarm_model::Settings;

/// How sessions are held over a desk `D`, with what it needs beside, `C`. It is implemented by a
/// marker: no value of it is made.
pub trait LinkSessions<D, C> {
    ghost use Rattle.std.specs.Prelude.{ℕ};
    ghost use Rattle.sw_base.specs.Link.{LinkState};
    ghost use Rattle.swarm_model.specs.declared.pool_settings.Settings.{Settings};
    ghost use Rattle.swarm_http.specs.declared.ended.Ended.{Ended};

    /// What a session does, by its link as it came and as it ended, and by its ending.
    ghost does: { LinkState → LinkState → Ended → D × C → D × C → Type 0 };

    /// So many sessions more may be held under these settings.
    ghost may: { Settings → ℕ → D × C → Type 0 };

    /// The session of one link, from its begin to its end.
    fn session<L: Link>(
        alloc: Global,
        settings: &Settings,
        reader: &mut RequestReader,
        desk: &mut D,
        clock: &mut C,
        link: &mut L,
    ) -> Ended
        requires rules { IsTrue (are_settings settings.now) }
        requires clean { IsClean (L.state link.old) }
        requires may { (n : ℕ) × may settings.now (n + 1) (desk.old, clock.old) }
        ensures does { does (L.state link.old) (L.state link.new) result (desk.old, clock.old) (desk.new, clock.new) }
        ensures may { (n : ℕ) → may settings.now (n + 1) (desk.old, clock.old) → may settings.now n (desk.new, clock.new) }
        ensures faults { TellsFault (L.state link.old) (L.state link.new) result };
}

/// What came of asking for the next connection.
#[derive(Clone, Copy, Debug, PartialEq, Eq)]
enum NextLink {
    Served,
    NoMore,
    Failed,
}

fn serve_next<A: Acceptor, D, C, S: LinkSessions<D, C>>(
    alloc: Global,
    settings: &Settings,
    reader: &mut RequestReader,
    desk: &mut D,
    clock: &mut C,
    acceptor: &mut A,
) -> NextLink
    requires rules { IsTrue (are_settings settings.now) }
    requires may { (n : ℕ) × S.may settings.now (n + 1) (desk.old, clock.old) }
    ensures turn { IsTurn S.does (A.state acceptor.old) (A.state acceptor.new) (desk.old, clock.old) (desk.new, clock.new) result }
    ensures may { result ≡ NextLink.Served → (n : ℕ) → S.may settings.now (n + 1) (desk.old, clock.old) → S.may settings.now n (desk.new, clock.new) }
{
    match acceptor.accept() {
        Ok(Some(mut link)) => {
            S::session(alloc, settings, reader, desk, clock, &mut link);
            acceptor.end(link);
            NextLink::Served
        }
        Ok(None) => NextLink::NoMore,
        Err(_) => NextLink::Failed,
    }
}

/// Serves the links of the acceptor, one after another, each by a session over the one desk: until
/// so many connections are served, there are no more, or no link can be accepted. Where there is no
/// memory to begin, none is served. A session that ends by a fault of its own link ends that link
/// alone.
pub fn serve_links<A: Acceptor, D, C, S: LinkSessions<D, C>>(
    alloc: Global,
    settings: &Settings,
    desk: &mut D,
    clock: &mut C,
    acceptor: &mut A,
    connections: u32,
) -> Worked
    requires rules { IsTrue (are_settings settings.now) }
    requires number { connections ≤ 1000000 }
    requires may { S.may settings.now connections (desk.old, clock.old) }
    ensures { HasServed S.does (A.state acceptor.old) (A.state acceptor.new) (desk.old, clock.old) (desk.new, clock.new) connections result }
{
    let Ok(mut reader) = RequestReader::new(alloc) else {
        return Worked {
            sessions: 0,
            stop: WorkStop::Memory,
        };
    };
    'links: for served in 0..connections {
        match serve_next::<A, D, C, S>(alloc, settings, &mut reader, desk, clock, acceptor) {
            NextLink::Served => {}
            NextLink::NoMore => {
                return Worked {
                    sessions: served,
                    stop: WorkStop::NoMore,
                };
            }
            NextLink::Failed => {
                return Worked {
                    sessions: served,
                    stop: WorkStop::Failed,
                };
            }
        }
    }
    Worked {
        sessions: connections,
        stop: WorkStop::Done,
    }
}
