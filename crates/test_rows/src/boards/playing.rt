//! What is done in a row, one connection after the other.
ghost use Rattle.std.specs.Prelude.{◌≡◌, ◌∷◌, ◌<◌, ◌≤◌, ◌+◌, ◌^◌, [], length, IsTrue, OnOk};
ghost use Rattle.swarm_model.specs.Settings.{are_settings};
ghost use Rattle.shared_doors.specs.Machines.{lasting_in};
ghost use Rattle.shared_doors.specs.SharedDoors.{pools_of, start_of};
ghost use Rattle.swarm_http.specs.Answered.{KeepsDoor};
ghost use Rattle.swarm_workers.specs.Splits.{IsShare};

use crate::boards::board::Board;
use crate::boards::links::{compare, link_of};
use pool_doors::Door;
use pool_posts::post;
use shared_doors::{Passes, Server, SharedDoor};
use std::alloc::Global;
use std::sync::Wait;
use sw_base::StepClock;
use swarm_boards::Poster;
use swarm_http::{RequestReader, session};
use swarm_keeper::NoKeeper;
use swarm_model::{Machine, Settings};
use test_sessions::no_keepers;
use test_transcript_reader::{Conversation, Transcript, TranscriptError};

/// A worker serves a connection at a moment. What it writes is compared with the rows where these have
/// replies.
fn work<D: Door>(
    alloc: Global,
    settings: &Settings,
    door: &mut D,
    moment: Option<&u64>,
    connection: Option<&Conversation>,
) -> Result<(), TranscriptError>
    requires settings { (D.state door.old).settings ≡ settings.now }
    requires rules { IsTrue (are_settings settings.now) }
    requires calls { (D.state door.old).calls + 65536 ≤ 2 ^ 40 }
    ensures door { OnOk result (KeepsDoor 65536 (D.state door.old) (D.state door.new)) }
{
    let mut clock = StepClock {
        at: moment.copied().unwrap_or(0),
        step: 0,
        waited: 0,
    };
    let mut link = link_of(alloc, connection)?;
    let mut reader = RequestReader::new(alloc)?;
    session(alloc, settings, &mut reader, door, &mut clock, &mut link);
    match connection {
        Some(connection) if !connection.replies.is_empty() => {
            compare(alloc, Some(connection), &link)
        }
        _ => Ok(()),
    }
}

/// A door of a pass that took no turn.
fn open_door<'a, M: Machine + Drop, R: Wait>(
    rt: &'a R,
    server: &'a Server<M, NoKeeper>,
    passes: Passes<M, NoKeeper>,
) -> SharedDoor<'a, M, NoKeeper, R>
    requires share { IsShare (lasting_in M.kept) server.now.turnstiles.items 0 passes.passes.items }
    ensures settings { (⟦<SharedDoor<'a, M, NoKeeper, R> as Door>⟧.state result).settings ≡ record { store = server.now.store; pools = pools_of (lasting_in M.kept) server.now.turnstiles.items } }
    ensures calls { (⟦<SharedDoor<'a, M, NoKeeper, R> as Door>⟧.state result).calls ≡ 0 }
{
    SharedDoor::new(rt, server, passes)
}

/// Plays a row, but for what is asked behind the end of the poster.
fn play_posted<'a, M: Machine + Drop, R: Wait>(
    rt: &R,
    alloc: Global,
    settings: &'a Settings,
    transcript: &Transcript,
    server: &Server<M, NoKeeper>,
    worker: Passes<M, NoKeeper>,
    own: Passes<M, NoKeeper>,
    poster: &mut Poster,
) -> Result<Board<'a>, TranscriptError>
    requires rules { IsTrue (are_settings settings.now) }
    requires server { record { store = server.now.store; pools = pools_of (lasting_in M.kept) server.now.turnstiles.items } ≡ settings.now }
    requires some { 0 < length server.now.turnstiles.items }
    requires worker { IsShare (lasting_in M.kept) server.now.turnstiles.items 0 worker.passes.items }
    requires own { IsShare (lasting_in M.kept) server.now.turnstiles.items 1 own.passes.items }
    requires poster { poster.old ≡ record { start = start_of (pools_of (lasting_in M.kept) server.now.turnstiles.items) 0; published = []; pending = [] } }
    requires one { settings.now.pools ≡ poster.old.start.rows.settings ∷ [] }
{
    let mut links = transcript.connections.iter();
    let mut door = open_door(rt, server, worker);
    work(
        alloc,
        settings,
        &mut door,
        transcript.moments.first(),
        links.next(),
    )?;
    let mut board = Board::new(alloc, settings, poster)?;
    board.check(links.next())?;
    let (own, posted) = post(rt, poster, server, own, 0);
    posted?;
    work(
        alloc,
        settings,
        &mut door,
        transcript.moments.last(),
        links.next(),
    )?;
    board.check(links.next())?;
    let (_, posted) = post(rt, poster, server, own, 0);
    posted?;
    board.check(links.next())?;
    Board::new(alloc, settings, poster)?.check(links.next())?;
    Ok(board)
}

/// Plays a row.
pub(crate) fn play<M: Machine + Drop, R: Wait>(
    rt: &R,
    alloc: Global,
    settings: &Settings,
    transcript: &Transcript,
) -> Result<(), TranscriptError>
    requires rules { IsTrue (are_settings settings.now) }
    requires one { length settings.now.pools ≡ 1 }
{
    let keepers = no_keepers(alloc, settings.pools.as_slice())?;
    let (server, passes) = Server::<M, NoKeeper>::new(alloc, settings, keepers)?;
    let Ok((worker, own)) = server.split(passes) else {
        return Err(TranscriptError::Memory);
    };
    let base = server.base(0)?;
    let mut poster = Poster::new(rt, alloc, &base, 0, 2)?;
    let played = play_posted(
        rt,
        alloc,
        settings,
        transcript,
        &server,
        worker,
        own,
        &mut poster,
    );
    poster.end(rt);
    played?.check(transcript.connections.get(6))
}
