//! What a world has, in words: the subjects of the expectations.
//!
//! | What | Text |
//! |---|---|
//! | `bot` | what the bot is to do next |
//! | `sent` | how many requests it sent |
//! | `asking` | the place of its present request, and the request; or `nothing` |
//! | `got` | how many replies the pool gave, and the last one |
//! | `run` | how many runs the bot was told of, and the newest: its claim, task and try, how often its command was started, and how many bytes it wrote |
//! | `pending` | how many bytes of output wait |
//! | `task N` | the state of a task; the try of its run, the length that is kept of its output, and how many bytes the last report dropped |
//! | `lost N` | the same of its run that was lost and is tried once more |
//! | `log`, `entry` | how many entries the log has; the kind of the last one |
use crate::worlds::brief_text::brief_action_text;
use crate::worlds::message_text::{reply_text, request_text};
use crate::worlds::pool_text::{entry_text, lost_text, task_text};
use std::alloc::{AllocError, Global};
use swarm_model::Machine;
use two_ends::World;

fn asking_text<M: Machine + Drop>(alloc: Global, world: &World<M>) -> Result<String, AllocError> {
    let Some(place) = world.asking() else {
        return String::from_str(alloc, "nothing");
    };
    match world.sent().get(place) {
        None => String::from_str(alloc, "nothing"),
        Some(sent) => {
            let request = request_text(alloc, &sent.request)?;
            format!(in alloc; "{place}, {request}")
        }
    }
}

fn got_text<M: Machine + Drop>(alloc: Global, world: &World<M>) -> Result<String, AllocError> {
    let count = world.got().len();
    match world.got().last() {
        None => format!(in alloc; "{count}"),
        Some(got) => {
            let reply = reply_text(alloc, &got.reply)?;
            format!(in alloc; "{count}, {reply}")
        }
    }
}

fn run_text<M: Machine + Drop>(alloc: Global, world: &World<M>) -> Result<String, AllocError> {
    let count = world.runs().len();
    match world.runs().first() {
        None => format!(in alloc; "{count}"),
        Some(run) => {
            let claim = run.claim.as_str();
            let task = run.task;
            let try_no = run.try_no;
            let started = run.started;
            let wrote = run.wrote.as_slice().len();
            format!(in alloc; "{count}, {claim} {task}-{try_no}, started {started}, wrote {wrote}")
        }
    }
}

fn count_text(alloc: Global, count: u64) -> Result<String, AllocError> {
    format!(in alloc; "{count}")
}

/// What stands in a world under a name, where the name is one.
pub(crate) fn world_text<M: Machine + Drop>(
    alloc: Global,
    world: &World<M>,
    name: &str,
) -> Result<Option<String>, AllocError> {
    if let Some(task) = name.strip_prefix("task ") {
        return match task.parse::<u32>() {
            Ok(task) => Ok(Some(task_text(alloc, world.machine(), task)?)),
            Err(_) => Ok(None),
        };
    }
    if let Some(task) = name.strip_prefix("lost ") {
        return match task.parse::<u32>() {
            Ok(task) => Ok(Some(lost_text(alloc, world.machine(), task)?)),
            Err(_) => Ok(None),
        };
    }
    Ok(match name {
        "bot" => Some(brief_action_text(alloc, &world.action())?),
        "sent" => Some(count_text(alloc, world.sent().len() as u64)?),
        "asking" => Some(asking_text(alloc, world)?),
        "got" => Some(got_text(alloc, world)?),
        "run" => Some(run_text(alloc, world)?),
        "pending" => Some(count_text(alloc, world.pending().len() as u64)?),
        "log" => Some(count_text(alloc, world.machine().length())?),
        "entry" => Some(String::from_str(alloc, entry_text(world.machine()))?),
        _ => None,
    })
}
