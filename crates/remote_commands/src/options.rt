//! The options whose grammars are looked at here.
ghost use Rattle.std.specs.Prelude.{◌≡◌, ◌∷◌, [], None, Some, Err, IfOk, codes, string_bytes};
ghost use Rattle.client_requests.specs.Addresses.{address_of};
ghost use Rattle.client_commands.specs.Commands.{settings_line as spec_settings_line};
ghost use Rattle.remote_commands.specs.Streams.{PrintsMade};
ghost use Rattle.remote_commands.specs.Clients.{Fits, PrintsOptionFault, batch_name_test, server_test, caller_test, id_test, state_test, wanted_state};

use crate::option_fault::OptionFault;
use client_commands::settings_line;
use client_requests::{AddressFault, ServerAddress, read_address};
use json_fields::read_id;
use link_writer::print;
use request_head::is_caller;
use std::alloc::Global;
use sw_base::Link;
use swarm_batch::is_batch_name;
use swarm_model::TaskState;
use task_props::PropFault;

fn address_at(alloc: Global, server: &str) -> Result<ServerAddress, OptionFault>
    ensures address { IfOk result (λ a. address_of server.now ≡ Some (string_bytes a.dial, string_bytes a.host)) }
    ensures fits { Fits (server_test server.now ∷ []) result }
{
    match read_address(alloc, server) {
        Ok(address) => Ok(address),
        Err(AddressFault::Memory) => Err(OptionFault::Memory),
        Err(AddressFault::Grammar) => Err(OptionFault::Server),
    }
}

/// The address of the server, where the caller is in its grammar too.
pub(crate) fn server_of(
    alloc: Global,
    server: &str,
    caller: &str,
) -> Result<ServerAddress, OptionFault>
    ensures address { IfOk result (λ a. address_of server.now ≡ Some (string_bytes a.dial, string_bytes a.host)) }
    ensures fits { Fits (server_test server.now ∷ caller_test caller.now ∷ []) result }
{
    match address_at(alloc, server) {
        Ok(address) => {
            if is_caller(caller.as_bytes()) {
                Ok(address)
            } else {
                Err(OptionFault::Caller)
            }
        }
        Err(why) => Err(why),
    }
}

/// Whether an id is in its grammar.
pub(crate) fn check_id(alloc: Global, id: &str) -> Result<(), OptionFault>
    ensures { Fits (id_test id.now ∷ []) result }
{
    match read_id(alloc, id) {
        Ok(_) => Ok(()),
        Err(PropFault::Memory) => Err(OptionFault::Memory),
        Err(_) => Err(OptionFault::Id),
    }
}

/// Whether the name of a batch is in its grammar.
pub(crate) fn check_name(name: &str) -> Result<(), OptionFault>
    ensures { Fits (batch_name_test name.now ∷ []) result }
{
    if is_batch_name(name.as_bytes()) {
        Ok(())
    } else {
        Err(OptionFault::Name)
    }
}

/// Whether a state is in its grammar.
pub(crate) fn check_state(state: &str) -> Result<(), OptionFault>
    ensures { Fits (state_test state.now ∷ []) result }
{
    if state == "ALL" {
        return Ok(());
    }
    match TaskState::from_name(state) {
        Some(_) => Ok(()),
        None => Err(OptionFault::State),
    }
}

/// The state of the tasks that are listed, where it is not all of them.
pub(crate) fn wanted_state(state: &str) -> Option<TaskState>
    ensures { result ≡ wanted_state state.now }
{
    if state == "ALL" {
        None
    } else {
        TaskState::from_name(state)
    }
}

/// Prints that an option is out of its grammar.
fn print_grammar<L: Link>(alloc: Global, console: &mut L, option: &str) -> u8
    ensures { PrintsMade (spec_settings_line option.now (codes "grammar")) 3 (L.state console.old) (L.state console.new) result }
{
    match settings_line(alloc, option, "grammar") {
        Ok(line) => print(console, line.as_bytes(), 3),
        Err(_) => 5,
    }
}

/// Prints which option is out of its grammar.
pub(crate) fn print_option_fault<L: Link>(alloc: Global, console: &mut L, why: OptionFault) -> u8
    ensures { PrintsOptionFault why (L.state console.old) (L.state console.new) result }
{
    match why {
        OptionFault::Memory => 5,
        OptionFault::Server => print_grammar(alloc, console, "server"),
        OptionFault::Caller => print_grammar(alloc, console, "caller"),
        OptionFault::Id => print_grammar(alloc, console, "id"),
        OptionFault::State => print_grammar(alloc, console, "state"),
        OptionFault::Name => print_grammar(alloc, console, "name"),
        OptionFault::Dimensions => print_grammar(alloc, console, "dimensions"),
    }
}
