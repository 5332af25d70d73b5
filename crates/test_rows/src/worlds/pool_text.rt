//! What a pool has, in words.
use std::alloc::{AllocError, Global};
use swarm_model::{Attempt, EntryKind, Machine, TaskRow, task_uncounted};

fn attempt_text(alloc: Global, attempt: &Attempt) -> Result<String, AllocError> {
    let try_no = attempt.try_no;
    let length = attempt.length;
    match &attempt.last {
        None => format!(in alloc; "try {try_no}, length {length}, no last report"),
        Some(last) => {
            let dropped = last.dropped;
            format!(in alloc; "try {try_no}, length {length}, dropped {dropped}")
        }
    }
}

fn row_text(alloc: Global, row: &TaskRow) -> Result<String, AllocError> {
    let state = row.state.name();
    match &row.attempt {
        None => format!(in alloc; "{state}, no run"),
        Some(attempt) => {
            let run = attempt_text(alloc, attempt)?;
            format!(in alloc; "{state}, {run}")
        }
    }
}

/// The state of a task, and its run.
pub(crate) fn task_text<M: Machine>(
    alloc: Global,
    pool: &M,
    task: u32,
) -> Result<String, AllocError> {
    match task_uncounted(pool, task) {
        None => String::from_str(alloc, "none"),
        Some(row) => row_text(alloc, row),
    }
}

/// The run of a task that was lost and is tried once more.
pub(crate) fn lost_text<M: Machine>(
    alloc: Global,
    pool: &M,
    task: u32,
) -> Result<String, AllocError> {
    let lost = match task_uncounted(pool, task) {
        None => None,
        Some(row) => row.retried.as_ref(),
    };
    match lost {
        None => String::from_str(alloc, "none"),
        Some(lost) => attempt_text(alloc, &lost.attempt),
    }
}

fn kind_text(kind: &EntryKind) -> &'static str {
    match kind {
        EntryKind::Slice { .. } => "slice",
        EntryKind::Silence { .. } => "silence",
        EntryKind::Dead { .. } => "dead",
        EntryKind::Blob { .. } => "blob",
        EntryKind::New { .. } => "new",
        EntryKind::Cancel { .. } => "cancel",
        EntryKind::Kill { .. } => "kill",
        EntryKind::Handshake { .. } => "handshake",
        EntryKind::Poll { .. } => "poll",
        EntryKind::Claim { .. } => "claim",
        EntryKind::Contact { .. } => "contact",
        EntryKind::Event { .. } => "event",
        EntryKind::Update { .. } => "update",
        EntryKind::Terminate { .. } => "terminate",
        EntryKind::Put { .. } => "put",
    }
}

/// The kind of the last entry of the log.
pub(crate) fn entry_text<M: Machine>(pool: &M) -> &'static str {
    let last = match pool.length().checked_sub(1) {
        None => None,
        Some(last) => pool.entry(last),
    };
    match last {
        None => "none",
        Some(entry) => kind_text(&entry.kind),
    }
}
