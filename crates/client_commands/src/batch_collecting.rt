//! Collecting what the tasks of a batch have come to.
ghost use Rattle.std.specs.Prelude.{◌≡◌, ℕ, IfOk, Option, string_bytes, true};
ghost use Rattle.std.specs.List.{list_all};
ghost use Rattle.json_fields.specs.Ids.{task_id as spec_task_id};
ghost use Rattle.sw_base.specs.Files.{FilesState};
ghost use Rattle.sw_base.specs.Dialers.{DialerState};
ghost use Rattle.client_commands.specs.declared.server.Server.{Server as SpecServer};
ghost use Rattle.swarm_batch.specs.declared.mark.Mark.TheVariants.{Task as SpecTask};
ghost use Rattle.swarm_batch.specs.Marks.{is_mark, is_task as spec_is_task, mark_line as spec_mark_line};
ghost use Rattle.client_commands.specs.Batches.{CollectsBatch, collecting_line, collecting_lines, ended_line as spec_ended_line};
ghost use Rattle.client_commands.specs.Plans.{Plan, Follows, say};
ghost use Rattle.client_commands.specs.Steps.{world, Aside, Carries, aside_of};

use crate::batch_files::{done_path, open_named};
use crate::collecting::result_line;
use crate::polls::{await_end, result_post};
use crate::printing::print_part;
use crate::server::Server;
use json_fields::task_id;
use std::alloc::{AllocError, Global};
use sw_base::{Clock, Dialer, Files, Link};
use swarm_batch::{Mark, mark_line};
use swarm_model::TaskView;

/// The line of a task that has ended, by the number of its line in the file.
fn ended_line(alloc: Global, line: usize, id: &str, task: &TaskView) -> Result<String, AllocError>
    ensures { IfOk result (λ text. string_bytes text ≡ spec_ended_line line id.now task.now) }
{
    let end = result_line(alloc, id, task)?;
    let end = end.as_str();
    format!(in alloc; "{line} {end}")
}

/// Prints the line of a task that has ended.
fn print_end<L: Link>(
    alloc: Global,
    console: &mut L,
    line: usize,
    id: &str,
    task: &TaskView,
) -> Result<(), u8>
    ensures { (server : SpecServer) (next : Plan) (dialer : DialerState) (aside : Aside) →
        Carries server (say (spec_ended_line line id.now task.now) next) (world dialer (L.state console.old) aside) (λ _. next) (world dialer (L.state console.new) aside) result }
{
    match ended_line(alloc, line, id, task) {
        Ok(text) => print_part(console, text.as_bytes()),
        Err(_) => Err(5),
    }
}

/// Prints that a line was refused.
fn print_refused<L: Link>(alloc: Global, console: &mut L, line: usize, mark: Mark) -> Result<(), u8>
    requires { is_mark mark ≡ true }
    ensures { (server : SpecServer) (next : Plan) (dialer : DialerState) (aside : Aside) →
        Carries server (say (spec_mark_line line mark) next) (world dialer (L.state console.old) aside) (λ _. next) (world dialer (L.state console.new) aside) result }
{
    match mark_line(alloc, line, mark) {
        Ok(text) => print_part(console, text.as_bytes()),
        Err(_) => Err(5),
    }
}

/// Waits until a task has ended, and prints its line.
fn collect_task<W: Dialer, L: Link, C: Clock>(
    alloc: Global,
    dialer: &mut W,
    console: &mut L,
    clock: &mut C,
    server: &Server,
    line: usize,
    place: u32,
    task: u32,
    polls: u32,
    every: u32,
) -> Result<(), u8>
    requires { spec_is_task place task ≡ true }
    ensures { (files : FilesState) (next : Plan) →
        Carries server.now (collecting_line polls every line (SpecTask place task) next)
        (world (W.state dialer.old) (L.state console.old) (aside_of (C.waited clock.old) files)) (λ _. next)
        (world (W.state dialer.new) (L.state console.new) (aside_of (C.waited clock.new) files)) result }
{
    let Ok(id) = task_id(alloc, place, task) else {
        return Err(5);
    };
    let id = id.as_str();
    let Ok(post) = result_post(alloc, id) else {
        return Err(5);
    };
    match await_end(alloc, dialer, console, clock, server, &post, polls, every) {
        Ok(task) => print_end(alloc, console, line, id, &task),
        Err(status) => Err(status),
    }
}

/// Prints what has become of a line, once it has an end.
fn collect_line<W: Dialer, L: Link, C: Clock>(
    alloc: Global,
    dialer: &mut W,
    console: &mut L,
    clock: &mut C,
    server: &Server,
    line: usize,
    mark: Mark,
    polls: u32,
    every: u32,
) -> Result<(), u8>
    requires { is_mark mark ≡ true }
    ensures { (files : FilesState) (next : Plan) →
        Carries server.now (collecting_line polls every line mark next)
        (world (W.state dialer.old) (L.state console.old) (aside_of (C.waited clock.old) files)) (λ _. next)
        (world (W.state dialer.new) (L.state console.new) (aside_of (C.waited clock.new) files)) result }
{
    match mark {
        Mark::Task { place, task } => collect_task(
            alloc, dialer, console, clock, server, line, place, task, polls, every,
        ),
        Mark::Refused { .. } => print_refused(alloc, console, line, mark),
    }
}

/// Prints what has become of lines, in their order.
fn collect_lines<W: Dialer, L: Link, C: Clock>(
    alloc: Global,
    dialer: &mut W,
    console: &mut L,
    clock: &mut C,
    server: &Server,
    marks: &[Mark],
    polls: u32,
    every: u32,
) -> u8
    requires { list_all is_mark marks.now ≡ true }
    ensures { (files : FilesState) → Follows server.now (collecting_lines polls every 1 marks.now)
        (world (W.state dialer.old) (L.state console.old) (aside_of (C.waited clock.old) files))
        (world (W.state dialer.new) (L.state console.new) (aside_of (C.waited clock.new) files)) result }
{
    for (place, mark) in marks.iter().enumerate() {
        match collect_line(
            alloc,
            dialer,
            console,
            clock,
            server,
            place + 1,
            *mark,
            polls,
            every,
        ) {
            Ok(()) => {}
            Err(status) => return status,
        }
    }
    0
}

/// Prints what has become of each line of the batch of a file that its progress, beside the file, names:
/// `N !CODE` where the line was refused, and else `N ID STATE exit CODE` when its task has ended, which is
/// asked at most `polls` times and every so many seconds. It answers the status of the command.
pub fn collect_batch<W: Dialer, L: Link, F: Files, C: Clock>(
    alloc: Global,
    dialer: &mut W,
    console: &mut L,
    files: &mut F,
    clock: &mut C,
    server: &Server,
    path: &str,
    polls: u32,
    every: u32,
) -> u8
    ensures { CollectsBatch server.now path.now polls every
        (world (W.state dialer.old) (L.state console.old) (aside_of (C.waited clock.old) (F.state files.old)))
        (world (W.state dialer.new) (L.state console.new) (aside_of (C.waited clock.new) (F.state files.new))) result }
{
    let Ok(done) = done_path(alloc, path) else {
        return 5;
    };
    let batch = match open_named(alloc, console, files, path, done.as_str()) {
        Ok(batch) => batch,
        Err(status) => return status,
    };
    collect_lines(
        alloc,
        dialer,
        console,
        clock,
        server,
        batch.marks(),
        polls,
        every,
    )
}
