ghost use Rattle.std.specs.Prelude.{◌≡◌, Some, None, IfOk};
ghost use Rattle.std.specs.Option.{option_copied};

use crate::Attempt;
use dimensions::{Text, TryCopy};
use reserved_vec::ReservedVec;
use std::alloc::{AllocError, Global};
use std::marker::Model;
use std::mem;

/// A run that was lost and is tried once more: the slice that it ran, and when it was lost.
#[derive(Drop)]
pub struct Retried {
    pub attempt: Attempt,
    pub slice: u32,
    pub over: u64,
}

/// The run of a task that is tried once more, if there is one. Contracts see an `Option<Retried>`.
///
/// It is kept apart from the row of its task, which most tasks never need room for.
#[derive(Drop)]
pub struct MaybeRetried {
    run: Option<Box<Retried>>,
}

impl Model for MaybeRetried {
    ghost use Rattle.std.specs.Prelude.{Option, option_map};
    ghost use Rattle.swarm_model.specs.declared.retried.Retried.{Retried};

    ghost Value = { Option Retried };

    ghost view = { λ kept. option_map (λ run. run.value) kept.run };
}

impl MaybeRetried {
    pub fn none() -> MaybeRetried
        ensures { result ≡ None }
    {
        MaybeRetried { run: None }
    }

    pub fn as_ref(&self) -> Option<&Retried>
        ensures { option_copied result ≡ self.now }
    {
        match &self.run {
            None => None,
            Some(run) => Some(&**run),
        }
    }
}

impl TryCopy for Retried {
    fn try_copy(&self, alloc: Global) -> Result<Retried, AllocError> {
        Ok(Retried {
            attempt: self.attempt.try_copy(alloc)?,
            slice: self.slice,
            over: self.over,
        })
    }
}

impl TryCopy for MaybeRetried {
    fn try_copy(&self, alloc: Global) -> Result<MaybeRetried, AllocError> {
        match self.as_ref() {
            None => Ok(MaybeRetried::none()),
            Some(lost) => {
                let run = Box::new(alloc, lost.try_copy(alloc)?)?;
                Ok(MaybeRetried { run: Some(run) })
            }
        }
    }
}

/// Memory for a run that is tried once more, made before the run is lost.
#[derive(Drop)]
pub struct RetriedRoom {
    room: Box<Retried>,
}

impl Model for RetriedRoom {
    ghost use Rattle.std.specs.Prelude.{⊤};

    ghost Value = { ⊤ };

    ghost view = { λ room. tt };
}

impl RetriedRoom {
    pub fn new(alloc: Global) -> Result<RetriedRoom, AllocError> {
        let nothing = Retried {
            attempt: Attempt {
                try_no: 0,
                bot: 0,
                claim: Text::new(alloc),
                begun: 0,
                kill: false,
                chunks: ReservedVec::new(alloc),
                length: 0,
                last: None,
                last_chunk: None,
            },
            slice: 0,
            over: 0,
        };
        let room = Box::new(alloc, nothing)?;
        Ok(RetriedRoom { room })
    }

    /// Keeps the run here. It takes no memory.
    pub fn keep(self, run: Retried) -> MaybeRetried
        ensures { result ≡ Some run }
    {
        let mut room = self.room;
        drop(mem::replace(&mut *room, run));
        MaybeRetried { run: Some(room) }
    }
}
