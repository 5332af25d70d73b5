//! A task as it is shown.
ghost use Rattle.std.specs.Prelude.{◌≡◌, ℤ, codes};
ghost use Rattle.serde_json.specs.View.{view};
ghost use Rattle.json_fields.specs.Readings.{Gives, GivesUnlessMemory, Reads};
ghost use Rattle.json_fields.specs.Fields.{object_item, each_at};
ghost use Rattle.server_calls.specs.Members.{file_in};
ghost use Rattle.server_calls.specs.Tasks.{checked_task, task_ids_in, task_place_in, task_moments_in, code_of as spec_code_of, exit_code_in, task_end_in, task_names_in, priority_in, current_slice_in, output_length_in, task_numbers_in, task_view_in};

use crate::ids::{RunId, TaskId};
use crate::members::{
    Files, check_keys, read_kept_text, read_number, read_number_or_none, read_short_number,
    read_state, read_text_or_none,
};
use crate::places::{number_of_run, place_of_run, read_place, read_run_or_none, read_task_id};
use dimensions::{Seq, Text};
use json_fields::{ReadFields, broken, read_objects, read_optional_number};
use serde_json::Value;
use std::alloc::Global;
use swarm_model::TaskView;
use task_props::{File, PropFault, PropRule};

/// The keys of a task.
const TASK_KEYS: [&str; 17] = [
    "bot_id",
    "completed_ts",
    "created_ts",
    "current_task_slice",
    "deduped_from",
    "dropped",
    "duration_ms",
    "exit_code",
    "files",
    "name",
    "output_length",
    "priority",
    "run_id",
    "started_ts",
    "state",
    "task_id",
    "user",
];

const LONGEST: u64 = 18_446_744_073_709_551_615;

/// The ids of a task: its own, that of its run, and that of the run whose result it has.
#[derive(Clone, Copy)]
pub(crate) struct TaskIds {
    pub task: TaskId,
    pub run: Option<RunId>,
    pub source: Option<RunId>,
}

/// The moments of a task.
#[derive(Clone, Copy)]
pub(crate) struct TaskMoments {
    pub created: u64,
    pub started: Option<u64>,
    pub completed: Option<u64>,
}

/// How a task ended.
#[derive(Drop)]
pub(crate) struct TaskEnd {
    pub exit_code: Option<i32>,
    pub duration_ms: Option<u64>,
    pub dropped: Option<u64>,
    pub files: Seq<File>,
}

/// Who has a task, and how it is called.
#[derive(Drop)]
pub(crate) struct TaskNames {
    pub bot: Option<Text>,
    pub name: Text,
    pub user: Text,
}

/// The numbers of a task.
#[derive(Clone, Copy)]
pub(crate) struct TaskNumbers {
    pub priority: u32,
    pub slice: u32,
    pub output_length: u32,
}

#[tactic(auto, unfolding(crate::specs::Tasks::checked_task))]
fn check_task_keys(alloc: Global, task: &Value) -> Result<&Value, PropFault>
    ensures { GivesUnlessMemory (λ v. view v.now) result (checked_task (view task.now)) }
{
    check_keys(alloc, task, &TASK_KEYS)
}

#[tactic(auto, unfolding(crate::specs::Tasks::task_ids_in))]
fn read_task_ids(alloc: Global, task: &Value) -> Result<TaskIds, PropFault>
    ensures { Reads result (task_ids_in (view task.now)) }
{
    let id = read_task_id(alloc, task)?;
    let run = read_run_or_none(alloc, task, "run_id")?;
    let source = read_run_or_none(alloc, task, "deduped_from")?;
    Ok(TaskIds {
        task: id,
        run,
        source,
    })
}

/// The place that the ids of a task name.
#[tactic(auto, unfolding(crate::specs::Tasks::task_place_in))]
pub(crate) fn read_task_place(alloc: Global, task: &Value) -> Result<u32, PropFault>
    ensures { Reads result (task_place_in (view task.now)) }
{
    let ids = read_task_ids(alloc, task)?;
    let places = [
        Some(ids.task.place),
        place_of_run(ids.run),
        place_of_run(ids.source),
    ];
    read_place(alloc, &places)
}

#[tactic(auto, unfolding(crate::specs::Tasks::task_moments_in))]
fn read_task_moments(alloc: Global, task: &Value) -> Result<TaskMoments, PropFault>
    ensures { Reads result (task_moments_in (view task.now)) }
{
    let created = read_number(alloc, task, "created_ts", LONGEST)?;
    let started = read_number_or_none(alloc, task, "started_ts", 0, LONGEST)?;
    let completed = read_number_or_none(alloc, task, "completed_ts", 0, LONGEST)?;
    Ok(TaskMoments {
        created,
        started,
        completed,
    })
}

#[tactic(auto, unfolding(crate::specs::Tasks::code_of))]
fn code_of(number: Option<i128>) -> Result<Option<i32>, PropRule>
    ensures { Gives (λ code. code) result (spec_code_of number) }
{
    let Some(number) = number else {
        return Ok(None);
    };
    if -2_147_483_648 <= number && number <= 2_147_483_647 {
        Ok(Some(number as i32))
    } else {
        Err(PropRule::Range)
    }
}

#[tactic(auto, unfolding(crate::specs::Tasks::exit_code_in))]
fn read_exit_code(alloc: Global, task: &Value) -> Result<Option<i32>, PropFault>
    ensures { Reads result (exit_code_in (view task.now)) }
{
    let number = read_optional_number(alloc, task, "exit_code")?;
    match code_of(number) {
        Ok(code) => Ok(code),
        Err(rule) => Err(broken(alloc, "exit_code", rule)),
    }
}

fn read_files(alloc: Global, task: &Value) -> Result<Seq<File>, PropFault>
    ensures { Reads result (each_at (object_item file_in) (codes "files") (view task.now)) }
{
    read_objects::<Files>(alloc, task, "files")
}

#[tactic(auto, unfolding(crate::specs::Tasks::task_end_in))]
fn read_task_end(alloc: Global, task: &Value) -> Result<TaskEnd, PropFault>
    ensures { Reads result (task_end_in (view task.now)) }
{
    let exit_code = read_exit_code(alloc, task)?;
    let duration_ms = read_number_or_none(alloc, task, "duration_ms", 0, LONGEST)?;
    let dropped = read_number_or_none(alloc, task, "dropped", 0, LONGEST)?;
    let files = read_files(alloc, task)?;
    Ok(TaskEnd {
        exit_code,
        duration_ms,
        dropped,
        files,
    })
}

#[tactic(auto, unfolding(crate::specs::Tasks::task_names_in))]
fn read_task_names(alloc: Global, task: &Value) -> Result<TaskNames, PropFault>
    ensures { Reads result (task_names_in (view task.now)) }
{
    let bot = read_text_or_none(alloc, task, "bot_id")?;
    let name = read_kept_text(alloc, task, "name")?;
    let user = read_kept_text(alloc, task, "user")?;
    Ok(TaskNames { bot, name, user })
}

#[tactic(auto, unfolding(crate::specs::Tasks::priority_in))]
fn read_priority(alloc: Global, task: &Value) -> Result<u32, PropFault>
    ensures { Reads result (priority_in (view task.now)) }
{
    read_short_number(alloc, task, "priority")
}

#[tactic(auto, unfolding(crate::specs::Tasks::current_slice_in))]
fn read_current_slice(alloc: Global, task: &Value) -> Result<u32, PropFault>
    ensures { Reads result (current_slice_in (view task.now)) }
{
    read_short_number(alloc, task, "current_task_slice")
}

#[tactic(auto, unfolding(crate::specs::Tasks::output_length_in))]
fn read_output_length(alloc: Global, task: &Value) -> Result<u32, PropFault>
    ensures { Reads result (output_length_in (view task.now)) }
{
    read_short_number(alloc, task, "output_length")
}

#[tactic(auto, unfolding(crate::specs::Tasks::task_numbers_in))]
fn read_task_numbers(alloc: Global, task: &Value) -> Result<TaskNumbers, PropFault>
    ensures { Reads result (task_numbers_in (view task.now)) }
{
    let priority = read_priority(alloc, task)?;
    let slice = read_current_slice(alloc, task)?;
    let output_length = read_output_length(alloc, task)?;
    Ok(TaskNumbers {
        priority,
        slice,
        output_length,
    })
}

/// A task as it is shown.
#[tactic(auto, unfolding(crate::specs::Tasks::task_view_in))]
pub(crate) fn read_task_view(alloc: Global, task: &Value) -> Result<TaskView, PropFault>
    ensures { Reads result (task_view_in (view task.now)) }
{
    check_task_keys(alloc, task)?;
    let ids = read_task_ids(alloc, task)?;
    let state = read_state(alloc, task)?;
    let moments = read_task_moments(alloc, task)?;
    let end = read_task_end(alloc, task)?;
    let names = read_task_names(alloc, task)?;
    let numbers = read_task_numbers(alloc, task)?;
    Ok(TaskView {
        bot_id: names.bot,
        completed_ts: moments.completed,
        created_ts: moments.created,
        current_task_slice: numbers.slice,
        deduped_from: number_of_run(ids.source),
        dropped: end.dropped,
        duration_ms: end.duration_ms,
        exit_code: end.exit_code,
        files: end.files,
        name: names.name,
        output_length: numbers.output_length,
        priority: numbers.priority,
        run_id: number_of_run(ids.run),
        started_ts: moments.started,
        state,
        task_id: ids.task.task,
        user: names.user,
    })
}
