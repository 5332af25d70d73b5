//! Collecting what a task has come to, and its output.
ghost use Rattle.std.specs.Prelude.{◌≡◌, ℕ, IfOk, Option, string_bytes};
ghost use Rattle.sw_base.specs.Files.{FilesState};
ghost use Rattle.client_commands.specs.Commands.{Collects, delivering, exit_word as spec_exit_word, result_line as spec_result_line};
ghost use Rattle.client_commands.specs.Plans.{Follows};
ghost use Rattle.client_commands.specs.Steps.{world, Aside, aside_of};

use crate::output::{pieces_of, print_output};
use crate::polls::{await_end, result_post};
use crate::printing::print_part;
use crate::server::Server;
use std::alloc::{AllocError, Global};
use sw_base::{Clock, Dialer, Link};
use swarm_model::TaskView;

fn exit_word(alloc: Global, exit_code: Option<i32>) -> Result<String, AllocError>
    ensures { IfOk result (λ word. string_bytes word ≡ spec_exit_word exit_code) }
{
    match exit_code {
        Some(code) => format!(in alloc; "{code}"),
        None => String::from_str(alloc, "-"),
    }
}

#[tactic(auto, unfolding(crate::specs::Commands::result_line))]
pub(crate) fn result_line(alloc: Global, id: &str, task: &TaskView) -> Result<String, AllocError>
    ensures { IfOk result (λ line. string_bytes line ≡ spec_result_line id.now task.now) }
{
    let state = task.state.name();
    let exit = exit_word(alloc, task.exit_code)?;
    format!(in alloc; "{id} {state} exit {exit}\n")
}

/// Prints the line of a task that has ended, and then its output.
fn deliver<W: Dialer, L: Link>(
    alloc: Global,
    dialer: &mut W,
    console: &mut L,
    server: &Server,
    id: &str,
    task: &TaskView,
) -> u8
    ensures { (aside : Aside) → Follows server.now (delivering id.now task.now)
        (world (W.state dialer.old) (L.state console.old) aside) (world (W.state dialer.new) (L.state console.new) aside) result }
{
    let Ok(line) = result_line(alloc, id, task) else {
        return 5;
    };
    match print_part(console, line.as_bytes()) {
        Ok(()) => print_output(
            alloc,
            dialer,
            console,
            server,
            id,
            pieces_of(task.output_length),
        ),
        Err(status) => status,
    }
}

/// Asks what a task has come to, at most `polls` times and every so many seconds, until its state is
/// final. It prints `ID STATE exit CODE`, with `-` where the task has no exit code, and then the
/// output, each piece as it comes, and answers the status of the command.
pub fn collect<W: Dialer, L: Link, C: Clock>(
    alloc: Global,
    dialer: &mut W,
    console: &mut L,
    clock: &mut C,
    server: &Server,
    id: &str,
    polls: u32,
    every: u32,
) -> u8
    ensures { (files : FilesState) → Collects server.now id.now polls every
        (world (W.state dialer.old) (L.state console.old) (aside_of (C.waited clock.old) files)) (world (W.state dialer.new) (L.state console.new) (aside_of (C.waited clock.new) files)) result }
{
    let Ok(post) = result_post(alloc, id) else {
        return 5;
    };
    match await_end(alloc, dialer, console, clock, server, &post, polls, every) {
        Ok(task) => deliver(alloc, dialer, console, server, id, &task),
        Err(status) => status,
    }
}
