//! Printing.
ghost use Rattle.std.specs.Prelude.{◌≡◌, ◌++◌, ℕ, IfOk, Option, codes, string_bytes};
ghost use Rattle.sw_base.specs.Dialers.{DialerState};
ghost use Rattle.client_commands.specs.declared.server.Server.{Server as SpecServer};
ghost use Rattle.client_commands.specs.Commands.{settings_line as spec_settings_line};
ghost use Rattle.client_commands.specs.Plans.{Plan, say, end, Follows};
ghost use Rattle.client_commands.specs.Steps.{world, Aside, Carries};

use link_writer::send_flushed;
use std::alloc::{AllocError, Global};
use sw_base::Link;

/// Prints a part of what a command prints, or answers the status where the console fails.
pub(crate) fn print_part<L: Link>(console: &mut L, text: &[u8]) -> Result<(), u8>
    ensures { (server : SpecServer) (next : Plan) (dialer : DialerState) (aside : Aside) →
        Carries server (say text.now next) (world dialer (L.state console.old) aside) (λ _. next) (world dialer (L.state console.new) aside) result }
{
    match send_flushed(console, text) {
        Ok(()) => Ok(()),
        Err(_) => Err(4),
    }
}

/// Prints the last text of a command, and answers the status: this one, unless the console fails.
pub(crate) fn print_last<L: Link>(console: &mut L, text: &[u8], status: u8) -> u8
    ensures { (server : SpecServer) (dialer : DialerState) (aside : Aside) →
        Follows server (say text.now (end status)) (world dialer (L.state console.old) aside) (world dialer (L.state console.new) aside) result }
{
    match print_part(console, text) {
        Ok(()) => status,
        Err(failed) => failed,
    }
}

fn code_line(alloc: Global, code: &str) -> Result<String, AllocError>
    ensures { IfOk result (λ line. string_bytes line ≡ code.now ++ codes "\n") }
{
    format!(in alloc; "{code}\n")
}

/// Prints the code of a refusal.
pub(crate) fn print_code<L: Link>(alloc: Global, console: &mut L, code: &str) -> u8
    ensures { (server : SpecServer) (dialer : DialerState) (aside : Aside) →
        Follows server (say (code.now ++ codes "\n") (end 6)) (world dialer (L.state console.old) aside) (world dialer (L.state console.new) aside) result }
{
    match code_line(alloc, code) {
        Ok(line) => print_last(console, line.as_bytes(), 6),
        Err(_) => 5,
    }
}

/// The line for a setting, an option or a file that is refused, and the rule that it breaks.
///
/// # Errors
///
/// Want of memory.
pub fn settings_line(alloc: Global, place: &str, rule: &str) -> Result<String, AllocError>
    ensures { IfOk result (λ line. string_bytes line ≡ spec_settings_line place.now rule.now) }
{
    format!(in alloc; "settings {place} {rule}\n")
}

/// Prints what is wrong with a file.
pub(crate) fn print_refusal<L: Link>(alloc: Global, console: &mut L, path: &str, rule: &str) -> u8
    ensures { (server : SpecServer) (dialer : DialerState) (aside : Aside) →
        Follows server (say (spec_settings_line path.now rule.now) (end 3)) (world dialer (L.state console.old) aside) (world dialer (L.state console.new) aside) result }
{
    match settings_line(alloc, path, rule) {
        Ok(line) => print_last(console, line.as_bytes(), 3),
        Err(_) => 5,
    }
}
