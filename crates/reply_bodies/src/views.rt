//! What is shown of a task and of a bot.
ghost use Rattle.std.specs.Prelude.{◌≡◌, ◌<◌, IfOk};
ghost use Rattle.std.specs.Option.{option_map};
ghost use Rattle.serde_json.specs.Data.{string, put};
ghost use Rattle.serde_json.specs.View.{view, members_view};
ghost use Rattle.json_values.specs.Values.{or_null};
ghost use Rattle.json_fields.specs.Ids.{task_id as spec_task_id};
ghost use Rattle.reply_bodies.specs.Views.{run_data, last_members as spec_last_members, task_members as spec_task_members, bot_members as spec_bot_members};

use crate::items::{BotPairs, Files};
use dimensions::Text;
use json_fields::{run_id, task_id};
use json_values::{
    with, with_flag, with_list, with_signed_or_null, with_text, with_text_or_null, with_whole,
    with_whole_or_null,
};
use serde_json::{Map, Value};
use std::alloc::{AllocError, Global};
use swarm_model::{BotView, TaskView};

fn run_or_null(alloc: Global, place: u32, run: Option<(u32, u32)>) -> Result<Value, AllocError>
    requires { place < 4 }
    ensures { IfOk result (λ value. view value ≡ or_null (run_data place) run) }
{
    match run {
        Some(run) => Ok(Value::String(run_id(alloc, place, run)?)),
        None => Ok(Value::Null),
    }
}

fn with_run_or_null(
    alloc: Global,
    members: Map<String, Value>,
    key: &str,
    place: u32,
    run: Option<(u32, u32)>,
) -> Result<Map<String, Value>, AllocError>
    requires { place < 4 }
    ensures { IfOk result (λ more. members_view more.entries ≡ put key.now (or_null (run_data place) run) (members_view members.entries)) }
{
    with(alloc, members, key, run_or_null(alloc, place, run)?)
}

/// One more member, the id of a task.
pub(crate) fn with_task_id(
    alloc: Global,
    members: Map<String, Value>,
    key: &str,
    place: u32,
    task: u32,
) -> Result<Map<String, Value>, AllocError>
    requires { place < 4 }
    ensures { IfOk result (λ more. members_view more.entries ≡ put key.now (string (spec_task_id place task)) (members_view members.entries)) }
{
    let id = Value::String(task_id(alloc, place, task)?);
    with(alloc, members, key, id)
}

/// One more member, the id of a run.
pub(crate) fn with_run_id(
    alloc: Global,
    members: Map<String, Value>,
    key: &str,
    place: u32,
    run: (u32, u32),
) -> Result<Map<String, Value>, AllocError>
    requires { place < 4 }
    ensures { IfOk result (λ more. members_view more.entries ≡ put key.now (run_data place run) (members_view members.entries)) }
{
    let id = Value::String(run_id(alloc, place, run)?);
    with(alloc, members, key, id)
}

pub(crate) fn text_of(text: &Option<Text>) -> Option<&str>
    ensures { option_map (λ t. t.now) result ≡ text.now }
{
    match text {
        Some(text) => Some(text.as_str()),
        None => None,
    }
}

// The keys are put in falling order, each before all others.

#[tactic(auto, unfolding(crate::specs::Views::last_members))]
fn last_members(
    alloc: Global,
    place: u32,
    task: &TaskView,
) -> Result<Map<String, Value>, AllocError>
    requires { place < 4 }
    ensures { IfOk result (λ members. members_view members.entries ≡ spec_last_members place task.now) }
{
    let members = with_text(alloc, Map::new(alloc), "user", task.user.as_str())?;
    let members = with_task_id(alloc, members, "task_id", place, task.task_id)?;
    let members = with_text(alloc, members, "state", task.state.name())?;
    let members = with_whole_or_null(alloc, members, "started_ts", task.started_ts)?;
    let members = with_run_or_null(alloc, members, "run_id", place, task.run_id)?;
    let members = with_whole(alloc, members, "priority", u64::from(task.priority))?;
    let members = with_whole(
        alloc,
        members,
        "output_length",
        u64::from(task.output_length),
    )?;
    let members = with_text(alloc, members, "name", task.name.as_str())?;
    with_list(alloc, members, "files", &Files, task.files.as_slice())
}

/// A task of the pool at a place.
#[tactic(auto, unfolding(crate::specs::Views::task_members, crate::specs::Views::last_members))]
pub(crate) fn task_members(
    alloc: Global,
    place: u32,
    task: &TaskView,
) -> Result<Map<String, Value>, AllocError>
    requires { place < 4 }
    ensures { IfOk result (λ members. members_view members.entries ≡ spec_task_members place task.now) }
{
    let members = last_members(alloc, place, task)?;
    let members = with_signed_or_null(alloc, members, "exit_code", task.exit_code)?;
    let members = with_whole_or_null(alloc, members, "duration_ms", task.duration_ms)?;
    let members = with_whole_or_null(alloc, members, "dropped", task.dropped)?;
    let members = with_run_or_null(alloc, members, "deduped_from", place, task.deduped_from)?;
    let slice = u64::from(task.current_task_slice);
    let members = with_whole(alloc, members, "current_task_slice", slice)?;
    let members = with_whole(alloc, members, "created_ts", task.created_ts)?;
    let members = with_whole_or_null(alloc, members, "completed_ts", task.completed_ts)?;
    with_text_or_null(alloc, members, "bot_id", text_of(&task.bot_id))
}

/// A bot of the pool at a place.
#[tactic(auto, unfolding(crate::specs::Views::bot_members))]
pub(crate) fn bot_members(
    alloc: Global,
    place: u32,
    bot: &BotView,
) -> Result<Map<String, Value>, AllocError>
    requires { place < 4 }
    ensures { IfOk result (λ members. members_view members.entries ≡ spec_bot_members place bot.now) }
{
    let members = with_flag(alloc, Map::new(alloc), "terminating", bot.terminating)?;
    let members = with_run_or_null(alloc, members, "task_id", place, bot.task_id)?;
    let members = with_text(alloc, members, "quarantined", bot.quarantined.as_str())?;
    let members = with_whole(alloc, members, "last_seen_ts", bot.last_seen_ts)?;
    let members = with_flag(alloc, members, "is_dead", bot.is_dead)?;
    let pairs = bot.dimensions.pairs();
    let members = with_list(alloc, members, "dimensions", &BotPairs, pairs)?;
    with_text(alloc, members, "bot_id", bot.bot_id.as_str())
}
