//! Sending a batch of tasks, each once.
ghost use Rattle.std.specs.Prelude.{◌≡◌, ◌≤◌, ◌+◌, ℕ, length, Some, IfOk, IsSome, Option, true};
ghost use Rattle.sw_base.specs.Dialers.{DialerState};
ghost use Rattle.sw_base.specs.Link.{LinkState};
ghost use Rattle.client_commands.specs.declared.server.Server.{Server as SpecServer};
ghost use Rattle.swarm_batch.specs.declared.mark.Mark.{Mark as SpecMark};
ghost use Rattle.swarm_batch.specs.Batches.{BatchValue, next_line};
ghost use Rattle.swarm_batch.specs.Marks.{any_refused as spec_any_refused};
ghost use Rattle.swarm_batch.specs.Names.{is_batch_name};
ghost use Rattle.swarm_batch.specs.Told.{told_mark as spec_told_mark};
ghost use Rattle.client_commands.specs.Batches.{SpawnsTasks, after_line, fault_status as spec_fault_status, line_call, lines_left, marks_status as spec_marks_status, saving, sending, telling};
ghost use Rattle.client_commands.specs.Plans.{Plan, Follows, ask as plan_ask, end, once_told, unless_refused};
ghost use Rattle.client_commands.specs.Requests.{Posts};
ghost use Rattle.client_commands.specs.Steps.{world, Aside, Carries, aside_of};

use crate::asking::send;
use crate::batch_files::{done_path, open_batch};
use crate::post::Post;
use crate::printing::{print_code, print_last};
use crate::server::Server;
use crate::triggering::new_task_post;
use server_calls::Told;
use std::alloc::{AllocError, Global};
use sw_base::{Dialer, FileFault, Files, Link};
use swarm_batch::{Batch, Mark, Marked, told_mark};

/// The request for the task of a line, under its uuid.
fn line_post(alloc: Global, batch: &Batch, line: u32) -> Result<Post, AllocError>
    requires some { 1 ≤ line }
    requires there { line ≤ length batch.now.lines }
    ensures { IfOk result (Posts (line_call batch.now line)) }
{
    let body = batch.body(alloc, line)?;
    Ok(new_task_post(body))
}

/// The status of a save that failed.
fn fault_status(fault: FileFault) -> u8
    ensures { result ≡ spec_fault_status fault }
{
    match fault {
        FileFault::Memory => 5,
        _ => 4,
    }
}

/// Saves the progress of a batch whole.
fn save_progress<F: Files>(
    alloc: Global,
    files: &mut F,
    done: &str,
    batch: &Batch,
) -> Result<(), u8>
    ensures { (server : SpecServer) (next : Plan) (dialer : DialerState) (console : LinkState) (waited : Option ℕ) →
        Carries server (saving done.now batch.now next) (world dialer console (aside_of waited (F.state files.old))) (λ _. next)
        (world dialer console (aside_of waited (F.state files.new))) result }
{
    let Ok(text) = batch.progress(alloc) else {
        return Err(5);
    };
    match files.save(alloc, done, text.as_bytes()) {
        Ok(()) => Ok(()),
        Err(fault) => Err(fault_status(fault)),
    }
}

/// Prints the code of a refusal; what is none counts as no reply.
fn print_told<L: Link>(alloc: Global, console: &mut L, told: &Told) -> u8
    ensures { (server : SpecServer) (dialer : DialerState) (aside : Aside) →
        Follows server (unless_refused (λ place reply bytes. end 9) told.now) (world dialer (L.state console.old) aside) (world dialer (L.state console.new) aside) result }
{
    match told {
        Told::Good { .. } => 9,
        Told::No { code, .. } => print_code(alloc, console, code.name()),
    }
}

/// Marks the line that came next by what it was told, and saves the progress. Where the line is to be
/// sent again, it tells that, and answers the status.
fn keep_told<L: Link, F: Files>(
    alloc: Global,
    console: &mut L,
    files: &mut F,
    done: &str,
    batch: &mut Batch,
    told: &Told,
) -> Result<(), u8>
    requires next { IsSome (next_line batch.old) }
    requires tells { IsSome (spec_told_mark told.now) }
    ensures follows { (server : SpecServer) (next : BatchValue → Plan) (dialer : DialerState) (waited : Option ℕ) →
        Carries server (after_line done.now batch.old next told.now) (world dialer (L.state console.old) (aside_of waited (F.state files.old))) (λ _. next batch.new)
        (world dialer (L.state console.new) (aside_of waited (F.state files.new))) result }
    ensures left { IfOk result (λ _. lines_left batch.new + 1 ≡ lines_left batch.old) }
{
    match batch.told(alloc, told) {
        Ok(Marked::Done) => save_progress(alloc, files, done, batch),
        Ok(Marked::Again) => Err(print_told(alloc, console, told)),
        Err(_) => Err(5),
    }
}

/// Sends the line that comes next, marks it by what it was told, and saves the progress.
fn send_line<W: Dialer, L: Link, F: Files>(
    alloc: Global,
    dialer: &mut W,
    console: &mut L,
    files: &mut F,
    server: &Server,
    done: &str,
    batch: &mut Batch,
    line: u32,
) -> Result<(), u8>
    requires { next_line batch.old ≡ Some line }
    ensures follows { (waited : Option ℕ) (next : BatchValue → Plan) →
        Carries server.now (plan_ask (line_call batch.old line) (once_told (after_line done.now batch.old next)))
        (world (W.state dialer.old) (L.state console.old) (aside_of waited (F.state files.old))) (λ _. next batch.new)
        (world (W.state dialer.new) (L.state console.new) (aside_of waited (F.state files.new))) result }
    ensures left { IfOk result (λ _. lines_left batch.new + 1 ≡ lines_left batch.old) }
{
    let Ok(post) = line_post(alloc, batch, line) else {
        return Err(5);
    };
    let told = match send(alloc, dialer, server, &post) {
        Ok(told) => told,
        Err(status) => return Err(status),
    };
    match told_mark(&told) {
        Some(_) => keep_told(alloc, console, files, done, batch, &told),
        None => Err(9),
    }
}

/// Sends the lines that are left in their order.
fn send_lines<W: Dialer, L: Link, F: Files>(
    alloc: Global,
    dialer: &mut W,
    console: &mut L,
    files: &mut F,
    server: &Server,
    done: &str,
    batch: Batch,
) -> Result<Batch, u8>
    ensures { (waited : Option ℕ) →
        Carries server.now (sending done.now (lines_left batch) batch)
        (world (W.state dialer.old) (L.state console.old) (aside_of waited (F.state files.old))) telling
        (world (W.state dialer.new) (L.state console.new) (aside_of waited (F.state files.new))) result }
{
    let mut batch = batch;
    'lines: while let Some(line) = batch.next() {
        match send_line(
            alloc, dialer, console, files, server, done, &mut batch, line,
        ) {
            Ok(()) => {}
            Err(status) => return Err(status),
        }
    }
    Ok(batch)
}

/// Whether a line was refused.
fn any_refused(marks: &[Mark]) -> bool
    ensures { result ≡ spec_any_refused marks.now }
{
    marks.iter().any(|mark| mark.is_refused())
}

/// The status of a batch of which each line is done: 6 where one was refused.
fn marks_status(marks: &[Mark]) -> u8
    ensures { result ≡ spec_marks_status marks.now }
{
    if any_refused(marks) { 6 } else { 0 }
}

/// Prints what has become of each line.
fn print_marks<L: Link>(alloc: Global, console: &mut L, batch: &Batch) -> u8
    ensures { (server : SpecServer) (dialer : DialerState) (aside : Aside) →
        Follows server (telling batch.now) (world dialer (L.state console.old) aside) (world dialer (L.state console.new) aside) result }
{
    let status = marks_status(batch.marks());
    match batch.marks_text(alloc) {
        Ok(text) => print_last(console, text.as_bytes(), status),
        Err(_) => 5,
    }
}

/// Sends each line of the batch of a file that its progress, beside the file, doesn't name yet, and
/// saves the progress after each reply. When each line is done it prints what has become of them, and
/// answers the status of the command.
pub fn spawn_tasks<W: Dialer, L: Link, F: Files>(
    alloc: Global,
    dialer: &mut W,
    console: &mut L,
    files: &mut F,
    server: &Server,
    name: &str,
    path: &str,
) -> u8
    requires { is_batch_name name.now ≡ true }
    ensures { (waited : Option ℕ) → SpawnsTasks server.now name.now path.now
        (world (W.state dialer.old) (L.state console.old) (aside_of waited (F.state files.old))) (world (W.state dialer.new) (L.state console.new) (aside_of waited (F.state files.new))) result }
{
    let Ok(done) = done_path(alloc, path) else {
        return 5;
    };
    let done = done.as_str();
    let batch = match open_batch(alloc, console, files, path, done, name) {
        Ok(batch) => batch,
        Err(status) => return status,
    };
    match send_lines(alloc, dialer, console, files, server, done, batch) {
        Ok(batch) => print_marks(alloc, console, &batch),
        Err(status) => status,
    }
}
