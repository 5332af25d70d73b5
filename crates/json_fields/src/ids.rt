//! The ids of tasks and of their runs: how they are shown, how they are read, and the parts of one.
ghost use Rattle.std.specs.Prelude.{◌≡◌, ◌≤◌, ◌<◌, ◌+◌, ◌*◌, ◌%◌, ◌&&◌, nat_le, ℕ, true, IfOk, string_bytes, codes};
ghost use Rattle.std.specs.List.{list_all};
ghost use Rattle.std.specs.Str.Parse.{digits_value};
ghost use Rattle.json_fields.specs.Readings.{Gives, Reads, at};
ghost use Rattle.json_fields.specs.Ids.{shown_number as spec_shown_number, task_id as spec_task_id, run_id as spec_run_id, place_of_number as spec_place_of_number, task_of_number as spec_task_of_number, place_of_id as spec_place_of_id, task_of_id as spec_task_of_id, try_of_id as spec_try_of_id, has_id_form as spec_has_id_form, id_of as spec_id_of, is_try as spec_is_try, run_of as spec_run_of};

use crate::faults::broken;
use std::alloc::{AllocError, Global};
use task_props::{PropFault, PropRule, are_hex_digits};

/// A task of the pool at a place, as one number.
pub fn shown_number(place: u32, task: u32) -> u64
    requires { place < 4 }
    ensures { result ≡ spec_shown_number place task }
{
    u64::from(place) * 262_144 + u64::from(task)
}

/// The id of a task of the pool at a place.
#[tactic(auto, unfolding(crate::specs::Ids::task_id))]
pub fn task_id(alloc: Global, place: u32, task: u32) -> Result<String, AllocError>
    requires { place < 4 }
    ensures { IfOk result (λ id. string_bytes id ≡ spec_task_id place task) }
{
    let number = shown_number(place, task);
    format!(in alloc; "{number:x}0")
}

/// The id of a run, by its task and its try.
#[tactic(auto, unfolding(crate::specs::Ids::run_id))]
pub fn run_id(alloc: Global, place: u32, run: (u32, u32)) -> Result<String, AllocError>
    requires { place < 4 }
    ensures { IfOk result (λ id. string_bytes id ≡ spec_run_id place run) }
{
    let (task, try_no) = run;
    let number = shown_number(place, task);
    format!(in alloc; "{number:x}{try_no:x}")
}

fn has_id_form(text: &[u8]) -> bool
    ensures { result ≡ spec_has_id_form text.now }
{
    if text.len() < 2 {
        return false;
    }
    if text.len() > 7 {
        return false;
    }
    are_hex_digits(text) && text[0] != b'0'
}

fn id_value(text: &str) -> u32
    requires { spec_has_id_form text.now ≡ true }
    ensures { result ≡ digits_value 16 text.now }
{
    match u32::from_str_radix(text, 16) {
        Ok(id) => id,
        Err(_) => 0,
    }
}

/// Whether a run may have this number: it is the first or the second of its task.
fn is_try(try_no: u32) -> bool
    ensures { result ≡ spec_is_try try_no }
{
    1 <= try_no && try_no <= 2
}

/// The number that the digits of an id write.
#[tactic(auto, unfolding(crate::specs::Ids::id_of))]
fn id_of(text: &str) -> Result<u32, PropRule>
    ensures is { Gives (λ id. id) result (spec_id_of text.now) }
    ensures try_no { IfOk result (λ id. id % 16 ≤ 2) }
{
    if !has_id_form(text.as_bytes()) {
        return Err(PropRule::Grammar);
    }
    let id = id_value(text);
    if id % 16 > 2 {
        return Err(PropRule::Grammar);
    }
    Ok(id)
}

/// The same of a run.
#[tactic(auto, unfolding(crate::specs::Ids::run_of))]
fn run_of(text: &str) -> Result<u32, PropRule>
    ensures is { Gives (λ id. id) result (spec_run_of text.now) }
    ensures try_no { IfOk result (λ id. spec_is_try (id % 16) ≡ true) }
{
    if !has_id_form(text.as_bytes()) {
        return Err(PropRule::Grammar);
    }
    let id = id_value(text);
    if !is_try(id % 16) {
        return Err(PropRule::Grammar);
    }
    Ok(id)
}

/// A text that must be the id of a task or of one of its runs.
pub fn read_id(alloc: Global, text: &str) -> Result<u32, PropFault>
    ensures is { Reads result (at (codes "task_id") (spec_id_of text.now)) }
    ensures try_no { IfOk result (λ id. id % 16 ≤ 2) }
{
    match id_of(text) {
        Ok(id) => Ok(id),
        Err(rule) => Err(broken(alloc, "task_id", rule)),
    }
}

/// A text that must be the id of a run.
pub fn read_run(alloc: Global, text: &str) -> Result<u32, PropFault>
    ensures is { Reads result (at (codes "task_id") (spec_run_of text.now)) }
    ensures try_no { IfOk result (λ id. spec_is_try (id % 16) ≡ true) }
{
    match run_of(text) {
        Ok(id) => Ok(id),
        Err(rule) => Err(broken(alloc, "task_id", rule)),
    }
}

/// The place of the pool of the number that an id shows before its last digit.
pub fn place_of_number(number: u32) -> u32
    ensures { result ≡ spec_place_of_number number }
{
    number.saturating_sub(1) / 262_144
}

/// The task of such a number, by its number in the pool.
pub fn task_of_number(number: u32) -> u32
    ensures is { result ≡ spec_task_of_number number }
    ensures within { (nat_le 1 result && nat_le result 262144) ≡ true }
{
    number.saturating_sub(1) % 262_144 + 1
}

/// The place of the pool of an id.
pub fn place_of_id(id: u32) -> u32
    ensures { result ≡ spec_place_of_id id }
{
    place_of_number(id / 16)
}

/// The task of an id, by its number in the pool.
pub fn task_of_id(id: u32) -> u32
    ensures is { result ≡ spec_task_of_id id }
    ensures within { (nat_le 1 result && nat_le result 262144) ≡ true }
{
    task_of_number(id / 16)
}

/// The try of an id; 0 names the task itself.
pub fn try_of_id(id: u32) -> u32
    ensures { result ≡ spec_try_of_id id }
{
    id % 16
}

/// The number of a task tells the place and the task that it was made of.
pub fn number_tells_its_parts()
    ensures place { (place task : ℕ) → 0 < task → task ≤ 262144 → spec_place_of_number (spec_shown_number place task) ≡ place }
    ensures task { (place task : ℕ) → 0 < task → task ≤ 262144 → spec_task_of_number (spec_shown_number place task) ≡ task }
{}

/// The number of an id tells the place, the task and the try that it was made of.
pub fn id_tells_its_parts()
    ensures place { (place task try_no : ℕ) → 0 < task → task ≤ 262144 → try_no < 16 → spec_place_of_id (spec_shown_number place task * 16 + try_no) ≡ place }
    ensures task { (place task try_no : ℕ) → 0 < task → task ≤ 262144 → try_no < 16 → spec_task_of_id (spec_shown_number place task * 16 + try_no) ≡ task }
    ensures try_no { (place task try_no : ℕ) → try_no < 16 → spec_try_of_id (spec_shown_number place task * 16 + try_no) ≡ try_no }
{}
