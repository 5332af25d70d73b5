//! Reading the words.

ghost use Rattle.std.specs.Prelude.{◌≡◌, ◌≢◌, ◌≤◌, [], None, Ok, Some, IfOk, length, map, string_bytes};
ghost use Rattle.clap.specs.Words.{fault_of};
ghost use Rattle.command_words.specs.Grammar.{swarm_app};
ghost use Rattle.command_words.specs.Commands.{HasRanges, command_of, value_of};

use crate::command::Command;
use crate::command_reading::read_command;
use crate::program::matched;
use clap::error::ErrorKind;
use std::alloc::{AllocError, Global};

/// What the words are.
#[derive(Drop)]
pub enum Words {
    /// They ask for a command.
    Command(Command),
    /// They don't fit the grammar, or ask for help.
    Refused {
        /// What `clap` says of them: the fault and how to write the words, or the help. It ends
        /// with a newline, and is meant for standard output. It is not empty.
        text: String,
    },
}

/// The text, or where it is empty one that says as much as is known.
fn told(alloc: Global, text: String) -> Result<String, AllocError>
    ensures { IfOk result (λ t. 1 ≤ length (string_bytes t)) }
{
    if text.is_empty() {
        return String::from_str(alloc, "error: the words are no command\n");
    }
    Ok(text)
}

/// Reads the words of a command line, which don't begin with the program's name.
///
/// A command's numbers are in their ranges; its texts are as they were written.
///
/// # Errors
///
/// Want of memory. Words that don't fit are an `Ok`, [`Words::Refused`].
pub fn read_words(alloc: Global, words: &[String]) -> Result<Words, AllocError>
    ensures taken { (c : _) → result ≡ Ok (Words.Command c) → fault_of swarm_app (map string_bytes words.now) ≡ [] }
    ensures command { (c : _) → result ≡ Ok (Words.Command c) → command_of (map string_bytes words.now) ≡ Some (value_of c) }
    ensures ranges { (c : _) → result ≡ Ok (Words.Command c) → HasRanges (value_of c) }
    ensures refused { (t : _) → result ≡ Ok (Words.Refused t) → fault_of swarm_app (map string_bytes words.now) ≢ [] }
    ensures no_command { (t : _) → result ≡ Ok (Words.Refused t) → command_of (map string_bytes words.now) ≡ None }
    ensures told { (t : _) → result ≡ Ok (Words.Refused t) → 1 ≤ length (string_bytes t) }
{
    match matched(alloc, words) {
        Ok(found) => match read_command(alloc, &found)? {
            Some(command) => Ok(Words::Command(command)),
            None => Ok(Words::Refused {
                text: told(alloc, String::new(alloc))?,
            }),
        },
        Err(error) => {
            if error.kind() == ErrorKind::OutOfMemory {
                return Err(AllocError);
            }
            let text = told(alloc, format!(in alloc; "{error}")?)?;
            Ok(Words::Refused { text })
        }
    }
}
