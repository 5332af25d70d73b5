//! The lines that the program prints.
ghost use Rattle.std.specs.Prelude.{◌≡◌, ◌≤◌, ℕ, List, Option, length};
ghost use Rattle.sw_base.specs.Listeners.{ListenerState};
ghost use Rattle.swarm_keeper.specs.Stores.{StoreState};
ghost use Rattle.link_writer.specs.Printing.{Prints};
ghost use Rattle.swarm_cli.specs.KeptRecords.{part_words as spec_part_words, store_line as spec_store_line};
ghost use Rattle.swarm_cli.specs.Checkpoints.{count_line as spec_count_line};
ghost use Rattle.client_commands.specs.Commands.{settings_line as spec_settings_line};
ghost use Rattle.swarm_cli.specs.SettingsFile.{Refuses};

use arrayvec::ArrayString;
use client_commands::settings_line;
use itoa::Buffer;
use link_writer::print;
use pool_loading::StorePart;
use std::alloc::Global;
use swarm_http::Link;

/// Prints what is wrong with the settings, and where.
pub(crate) fn print_refusal<L: Link>(alloc: Global, console: &mut L, place: &str, rule: &str) -> u8
    ensures { (clock : ℕ → Option (List ℕ)) (listener : ListenerState) (store : StoreState) → Refuses (spec_settings_line place.now rule.now) store store
        (record { console = L.state console.old; clock = clock; listener = listener })
        (record { console = L.state console.new; clock = clock; listener = listener }) result }
{
    match settings_line(alloc, place, rule) {
        Ok(line) => print(console, line.as_bytes(), 3),
        Err(_) => 5,
    }
}

/// What stands between the place of a pool and that of a line of its records.
fn part_words(part: StorePart) -> &'static str
    ensures words { result.now ≡ spec_part_words part }
    ensures short { length result.now ≤ 6 }
{
    match part {
        StorePart::Base => " base ",
        StorePart::Lines => " ",
    }
}

/// The line for refused records. It takes no memory.
fn store_line(place: u32, part: StorePart, at: u64) -> ArrayString<64>
    ensures { result.bytes ≡ spec_store_line place part at }
{
    let mut place_digits = Buffer::new();
    let mut at_digits = Buffer::new();
    let mut line = ArrayString::new();
    line.push_str("store ");
    line.push_str(place_digits.format(place));
    line.push_str(part_words(part));
    line.push_str(at_digits.format(at));
    line.push_str("\n");
    line
}

/// Prints which records are refused: the place of their pool, the part, and the place of the line.
pub(crate) fn print_bad_store<L: Link>(console: &mut L, place: u32, part: StorePart, at: u64) -> u8
    ensures { Prints (spec_store_line place part at) 3 (L.state console.old) (L.state console.new) result }
{
    print(console, store_line(place, part, at).as_str().as_bytes(), 3)
}

/// The line for a pool behind too many entries. It takes no memory.
fn count_line(place: u32) -> ArrayString<64>
    ensures { result.bytes ≡ spec_count_line place }
{
    let mut place_digits = Buffer::new();
    let mut line = ArrayString::new();
    line.push_str("store ");
    line.push_str(place_digits.format(place));
    line.push_str(" count\n");
    line
}

/// Prints which pool stands behind too many entries for a base.
pub(crate) fn print_count_full<L: Link>(console: &mut L, place: u32) -> u8
    ensures { Prints (spec_count_line place) 3 (L.state console.old) (L.state console.new) result }
{
    print(console, count_line(place).as_str().as_bytes(), 3)
}
