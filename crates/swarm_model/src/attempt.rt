use dimensions::{Seq, Text, TryCopy};
use reserved_vec::ReservedVec;
use std::alloc::{AllocError, Global};
use task_props::{Digest, File};

/// A piece of the output of a run: where it begins, in bytes from the first, and its content.
#[derive(Clone, Copy, Debug, PartialEq, Eq)]
pub struct Chunk {
    pub start: u32,
    pub size: u32,
    pub digest: Digest,
}

/// What a bot reports at the end of a run.
#[derive(PartialEq, Drop)]
pub struct Last {
    pub exit_code: i32,
    pub duration_ms: u64,
    /// The run was stopped since it took longer than it may.
    pub hard_timeout: bool,
    /// The run was stopped since it wrote nothing for longer than it may.
    pub io_timeout: bool,
    /// How many bytes of output were dropped.
    pub dropped: u64,
    pub files: Seq<File>,
}

/// What a pool knows of a run: the bot that claimed the task, and what it reported.
#[derive(Drop)]
pub struct Attempt {
    pub try_no: u32,
    pub bot: u32,
    /// The id that the bot gave its claim.
    pub claim: Text,
    pub begun: u64,
    /// The run is asked to stop.
    pub kill: bool,
    pub chunks: ReservedVec<Chunk>,
    /// How many bytes of output are kept.
    pub length: u32,
    pub last: Option<Last>,
    pub last_chunk: Option<Chunk>,
}

impl Attempt {
    ghost use Rattle.std.specs.Prelude.{◌≡◌};
    ghost use Rattle.swarm_model.specs.Answers.{is_claim};

    /// Whether the bot of this number claimed the run under this id.
    pub fn is_claim(&self, bot: u32, claim: &Text) -> bool
        ensures { result ≡ is_claim bot claim.now self.now }
    {
        self.bot == bot && self.claim == *claim
    }
}

impl TryCopy for Last {
    fn try_copy(&self, alloc: Global) -> Result<Last, AllocError> {
        Ok(Last {
            exit_code: self.exit_code,
            duration_ms: self.duration_ms,
            hard_timeout: self.hard_timeout,
            io_timeout: self.io_timeout,
            dropped: self.dropped,
            files: self.files.try_copy(alloc)?,
        })
    }
}

impl TryCopy for Attempt {
    fn try_copy(&self, alloc: Global) -> Result<Attempt, AllocError> {
        Ok(Attempt {
            try_no: self.try_no,
            bot: self.bot,
            claim: self.claim.try_copy(alloc)?,
            begun: self.begun,
            kill: self.kill,
            chunks: ReservedVec::from_slice(alloc, self.chunks.as_slice())?,
            length: self.length,
            last: self.last.try_copy(alloc)?,
            last_chunk: self.last_chunk,
        })
    }
}
