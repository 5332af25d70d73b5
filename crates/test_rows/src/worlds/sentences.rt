//! The three sentences on a bot and its pool, read off the rows and the log of the pool and off the runs of
//! the world.
use sha2::{Digest, Sha256};
use swarm_model::{Attempt, Chunk, EntryKind, Machine, TaskRow, task_uncounted};
use two_ends::{ChildRun, World};

/// More tasks than a pool may have.
const TASKS: u32 = 262_145;

/// The number of the bot of a name: that of a handshake in the log.
fn number_of<M: Machine>(pool: &M, name: &str) -> Option<u32> {
    for at in 0..pool.length() {
        if let Some(entry) = pool.entry(at) {
            if let EntryKind::Handshake { b, id, .. } = &entry.kind {
                if id.as_str() == name {
                    return Some(*b);
                }
            }
        }
    }
    None
}

/// Whether the log has the claim of the bot by which it was told of a run.
fn has_claim<M: Machine>(pool: &M, bot: u32, run: &ChildRun) -> bool {
    for at in 0..pool.length() {
        if let Some(entry) = pool.entry(at) {
            if let EntryKind::Claim { b, t, claim } = &entry.kind {
                if *b == bot && *t == run.task && *claim == run.claim {
                    return true;
                }
            }
        }
    }
    false
}

/// The bytes at the place of a chunk.
fn piece_at<'a>(wrote: &'a [u8], chunk: &Chunk) -> Option<&'a [u8]> {
    wrote
        .get(chunk.start as usize..)?
        .get(..chunk.size as usize)
}

/// Whether a chunk has the digest of what the command wrote there, and the pool the bytes of it, where it
/// holds some.
fn is_piece<M: Machine>(pool: &M, wrote: &[u8], chunk: &Chunk) -> bool {
    let Some(piece) = piece_at(wrote, chunk) else {
        return false;
    };
    let is_held = match pool.bytes(&chunk.digest) {
        None => true,
        Some(bytes) => bytes == piece,
    };
    is_held && Sha256::digest(piece) == chunk.digest
}

/// Which sentence on the output of a run is broken, by what its command wrote and how often it was started.
fn broken_output<M: Machine>(
    pool: &M,
    attempt: &Attempt,
    wrote: &[u8],
    started: u32,
) -> Option<&'static str> {
    let length = attempt.length as usize;
    if !attempt
        .chunks
        .as_slice()
        .iter()
        .all(|chunk| is_piece(pool, wrote, chunk))
    {
        return Some("a piece of its output is not what its command wrote there");
    }
    if length > wrote.len() {
        return Some("its output is longer than what its command wrote");
    }
    if started == 0 && length != 0 {
        return Some("it has output and was not started");
    }
    match &attempt.last {
        Some(last) if last.dropped == 0 && length != wrote.len() => {
            Some("its output ends before what its command wrote, and nothing was dropped")
        }
        _ => None,
    }
}

/// Which sentence on a run of the pool is broken, where it is one of the bot.
fn broken_attempt<M: Machine>(
    pool: &M,
    bot: u32,
    runs: &[ChildRun],
    task: u32,
    attempt: &Attempt,
) -> Option<&'static str> {
    if attempt.bot != bot {
        return None;
    }
    match runs
        .iter()
        .find(|run| run.task == task && run.try_no == attempt.try_no)
    {
        None => broken_output(pool, attempt, &[], 0),
        Some(run) => broken_output(pool, attempt, run.wrote.as_slice(), run.started),
    }
}

fn broken_row<M: Machine>(
    pool: &M,
    bot: u32,
    runs: &[ChildRun],
    row: &TaskRow,
) -> Option<&'static str> {
    if let Some(attempt) = &row.attempt {
        if let Some(broken) = broken_attempt(pool, bot, runs, row.no, attempt) {
            return Some(broken);
        }
    }
    match row.retried.as_ref() {
        None => None,
        Some(lost) => broken_attempt(pool, bot, runs, row.no, &lost.attempt),
    }
}

fn broken_task<M: Machine>(pool: &M, bot: u32, runs: &[ChildRun]) -> Option<&'static str> {
    for task in 1..TASKS {
        let row = task_uncounted(pool, task)?;
        if let Some(broken) = broken_row(pool, bot, runs, row) {
            return Some(broken);
        }
    }
    None
}

/// Which sentence on the runs that the bot was told of is broken.
fn broken_run<M: Machine>(pool: &M, bot: u32, runs: &[ChildRun]) -> Option<&'static str> {
    for (place, run) in runs.iter().enumerate() {
        if run.started > 1 {
            return Some("a run was started twice");
        }
        if !has_claim(pool, bot, run) {
            return Some("the log has no claim of a run");
        }
        if runs
            .iter()
            .skip(place.saturating_add(1))
            .any(|other| other.claim == run.claim)
        {
            return Some("two runs are of one claim");
        }
    }
    None
}

/// Which sentence is broken in a world, if one is.
pub(crate) fn broken_sentence<M: Machine + Drop>(world: &World<M>) -> Option<&'static str> {
    let pool = world.machine();
    let runs = world.runs();
    match number_of(pool, world.name().as_str()) {
        None if runs.is_empty() => None,
        None => Some("the bot has a run, and the pool doesn't know it"),
        Some(bot) => match broken_run(pool, bot, runs) {
            None => broken_task(pool, bot, runs),
            broken => broken,
        },
    }
}
