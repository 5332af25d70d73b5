//! What an entry moves into the rows. All else of its change is numbers.
ghost use Rattle.std.specs.Prelude.{◌≡◌, IfOk};
ghost use Rattle.row_changes.specs.Parts.{bot_parts, task_parts};

use dimensions::{BotDims, Text, TryCopy};
use std::alloc::{AllocError, Global};
use swarm_model::{Chunk, EntryKind, Last, RetriedRoom};
use task_props::SharedTask;

/// What an entry moves into the row of a task.
#[derive(Drop)]
pub enum TaskParts {
    /// The caller and the request of a new task.
    New {
        creator: Text,
        request: SharedTask,
    },
    /// The id of a claim.
    Claim(Text),
    /// What a bot reported of the run of a task.
    Report {
        task: u32,
        chunk: Option<Chunk>,
        last: Option<Last>,
    },
    /// Room for a run that is lost, should it be tried again.
    Lost(RetriedRoom),
    Nothing,
}

impl TaskParts {
    /// Copies of the parts of an entry.
    pub fn copied(alloc: Global, kind: &EntryKind) -> Result<TaskParts, AllocError>
        ensures { IfOk result (λ parts. parts ≡ task_parts kind.now) }
    {
        Ok(match kind {
            EntryKind::New { who, request, .. } => TaskParts::New {
                creator: who.try_copy(alloc)?,
                request: request.try_copy(alloc)?,
            },
            EntryKind::Claim { claim, .. } => TaskParts::Claim(claim.try_copy(alloc)?),
            EntryKind::Update { t, chunk, last, .. } => TaskParts::Report {
                task: *t,
                chunk: *chunk,
                last: last.try_copy(alloc)?,
            },
            EntryKind::Silence { .. } | EntryKind::Handshake { .. } => {
                TaskParts::Lost(RetriedRoom::new(alloc)?)
            }
            _ => TaskParts::Nothing,
        })
    }
}

/// What an entry moves into the row of a bot.
#[derive(Drop)]
pub enum BotParts {
    /// The texts of a handshake.
    Session {
        name: Text,
        session: Text,
        dims: BotDims,
        quarantined: Text,
    },
    /// What changed between two polls.
    Changes {
        dims: Option<BotDims>,
        quarantined: Option<Text>,
    },
    /// The message of an event.
    Message(Text),
    Nothing,
}

impl BotParts {
    /// Copies of the parts of an entry.
    pub fn copied(alloc: Global, kind: &EntryKind) -> Result<BotParts, AllocError>
        ensures { IfOk result (λ parts. parts ≡ bot_parts kind.now) }
    {
        Ok(match kind {
            EntryKind::Handshake {
                b: _,
                id,
                session,
                dims,
                q,
            } => BotParts::Session {
                name: id.try_copy(alloc)?,
                session: session.try_copy(alloc)?,
                dims: dims.try_copy(alloc)?,
                quarantined: q.try_copy(alloc)?,
            },
            EntryKind::Poll { dims, q, .. } => BotParts::Changes {
                dims: dims.try_copy(alloc)?,
                quarantined: q.try_copy(alloc)?,
            },
            EntryKind::Event { text, .. } => BotParts::Message(text.try_copy(alloc)?),
            _ => BotParts::Nothing,
        })
    }
}
