//! The ids of tasks and runs, and the one place of a pool that they name.
ghost use Rattle.std.specs.Prelude.{◌≡◌, ◌≤◌, ◌∷◌, IfSome};
ghost use Rattle.serde_json.specs.View.{view};
ghost use Rattle.json_fields.specs.Readings.{Reads};
ghost use Rattle.server_calls.specs.Places.{task_id_in, run_id_of, run_id_in, some_run, run_or_none, task_numbered as spec_task_numbered, cursor_in, place_of_run as spec_place_of_run, number_of_run as spec_number_of_run, place_of_task as spec_place_of_task, number_of_task as spec_number_of_task, is_at as spec_is_at, are_at as spec_are_at, one_place};

use crate::ids::{RunId, TaskId};
use crate::members::{read_number_or_none, read_text_or_none};
use dimensions::Text;
use json_fields::{
    broken, place_of_id, place_of_number, read_id, read_required_text, read_run, task_of_id,
    task_of_number, try_of_id,
};
use serde_json::Value;
use std::alloc::Global;
use task_props::{PropFault, PropRule};

/// The task that the id of `task_id` names.
#[tactic(auto, unfolding(crate::specs::Places::task_id_in))]
pub(crate) fn read_task_id(alloc: Global, body: &Value) -> Result<TaskId, PropFault>
    ensures { Reads result (task_id_in (view body.now)) }
{
    let text = read_required_text(alloc, body, "task_id")?;
    let id = read_id(alloc, text)?;
    if try_of_id(id) == 0 {
        Ok(TaskId {
            place: place_of_id(id),
            task: task_of_id(id),
        })
    } else {
        Err(broken(alloc, "task_id", PropRule::Grammar))
    }
}

#[tactic(auto, unfolding(crate::specs::Places::run_id_of))]
fn run_of(alloc: Global, text: &str) -> Result<RunId, PropFault>
    ensures { Reads result (run_id_of text.now) }
{
    let id = read_run(alloc, text)?;
    Ok(RunId {
        place: place_of_id(id),
        run: (task_of_id(id), try_of_id(id)),
    })
}

/// The run that the id of a key names.
#[tactic(auto, unfolding(crate::specs::Places::run_id_in))]
pub(crate) fn read_run_id(alloc: Global, body: &Value, key: &str) -> Result<RunId, PropFault>
    ensures { Reads result (run_id_in key.now (view body.now)) }
{
    let text = read_required_text(alloc, body, key)?;
    run_of(alloc, text)
}

fn optional_run(alloc: Global, text: &Option<Text>) -> Result<Option<RunId>, PropFault>
    ensures { Reads result (some_run text.now) }
{
    match text {
        None => Ok(None),
        Some(text) => match run_of(alloc, text.as_str()) {
            Ok(id) => Ok(Some(id)),
            Err(fault) => Err(fault),
        },
    }
}

/// The same, where there is one.
#[tactic(auto, unfolding(crate::specs::Places::run_or_none))]
pub(crate) fn read_run_or_none(
    alloc: Global,
    body: &Value,
    key: &str,
) -> Result<Option<RunId>, PropFault>
    ensures { Reads result (run_or_none key.now (view body.now)) }
{
    let text = read_text_or_none(alloc, body, key)?;
    optional_run(alloc, &text)
}

fn task_numbered(number: Option<u64>) -> Option<TaskId>
    requires { IfSome number (λ n. n ≤ 1048576) }
    ensures { result ≡ spec_task_numbered number }
{
    match number {
        None => None,
        Some(number) => Some(TaskId {
            place: place_of_number(number as u32),
            task: task_of_number(number as u32),
        }),
    }
}

/// The task of the cursor of a page, where there is one.
#[tactic(auto, unfolding(crate::specs::Places::cursor_in))]
pub(crate) fn read_cursor(alloc: Global, body: &Value) -> Result<Option<TaskId>, PropFault>
    ensures { Reads result (cursor_in (view body.now)) }
{
    let number = read_number_or_none(alloc, body, "cursor", 1, 1_048_576)?;
    Ok(task_numbered(number))
}

pub(crate) fn place_of_run(id: Option<RunId>) -> Option<u32>
    ensures { result ≡ spec_place_of_run id }
{
    match id {
        None => None,
        Some(id) => Some(id.place),
    }
}

pub(crate) fn number_of_run(id: Option<RunId>) -> Option<(u32, u32)>
    ensures { result ≡ spec_number_of_run id }
{
    match id {
        None => None,
        Some(id) => Some(id.run),
    }
}

pub(crate) fn place_of_task(id: Option<TaskId>) -> Option<u32>
    ensures { result ≡ spec_place_of_task id }
{
    match id {
        None => None,
        Some(id) => Some(id.place),
    }
}

pub(crate) fn number_of_task(id: Option<TaskId>) -> Option<u32>
    ensures { result ≡ spec_number_of_task id }
{
    match id {
        None => None,
        Some(id) => Some(id.task),
    }
}

fn is_at(place: u32, named: Option<u32>) -> bool
    ensures { result ≡ spec_is_at place named }
{
    match named {
        None => true,
        Some(other) => other == place,
    }
}

fn are_at(place: u32, places: &[Option<u32>]) -> bool
    ensures { result ≡ spec_are_at place places.now }
{
    places.iter().all(|named| is_at(place, *named))
}

/// The one place that the ids name, or 0 where there are none.
#[tactic(auto, unfolding(crate::specs::Places::one_place))]
pub(crate) fn read_place(alloc: Global, places: &[Option<u32>]) -> Result<u32, PropFault>
    ensures { Reads result (one_place places.now) }
{
    if are_at(0, places) {
        Ok(0)
    } else if are_at(1, places) {
        Ok(1)
    } else if are_at(2, places) {
        Ok(2)
    } else if are_at(3, places) {
        Ok(3)
    } else {
        Err(broken(alloc, "", PropRule::Range))
    }
}

fn are_both_at(place: u32, named: Option<u32>, places: &[Option<u32>]) -> bool
    ensures { result ≡ spec_are_at place (named ∷ places.now) }
{
    is_at(place, named) && are_at(place, places)
}

/// The same of one more id before them.
#[tactic(auto, unfolding(crate::specs::Places::one_place))]
pub(crate) fn read_page_place(
    alloc: Global,
    named: Option<u32>,
    places: &[Option<u32>],
) -> Result<u32, PropFault>
    ensures { Reads result (one_place (named ∷ places.now)) }
{
    if are_both_at(0, named, places) {
        Ok(0)
    } else if are_both_at(1, named, places) {
        Ok(1)
    } else if are_both_at(2, named, places) {
        Ok(2)
    } else if are_both_at(3, named, places) {
        Ok(3)
    } else {
        Err(broken(alloc, "", PropRule::Range))
    }
}
