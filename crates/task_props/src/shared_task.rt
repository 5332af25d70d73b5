ghost use Rattle.std.specs.Prelude.{◌≡◌, IfOk};
ghost use Rattle.std.specs.Arc.{arc_value};

use crate::NewTask;
use dimensions::TryCopy;
use std::alloc::{AllocError, Global};
use std::marker::Model;
use std::ops::Deref;
use std::sync::Arc;

/// A request for a task that all who keep it share. Contracts see the request.
///
/// A copy counts one more owner and takes no memory; `proofs/Sending.antt` shows that it may cross
/// threads.
#[derive(Drop)]
pub struct SharedTask {
    task: Arc<NewTask, Global>,
}

impl Model for SharedTask {
    ghost use Rattle.std.specs.Arc.{arc_value};
    ghost use Rattle.task_props.specs.declared.new_task.NewTask.{NewTask};

    ghost Value = { NewTask };

    ghost view = { λ s. arc_value s.task };
}

impl SharedTask {
    pub fn new(alloc: Global, task: NewTask) -> Result<SharedTask, AllocError>
        ensures { IfOk result (λ shared. shared ≡ task) }
    {
        Ok(SharedTask {
            task: Arc::new(alloc, task)?,
        })
    }
}

impl Deref for SharedTask {
    type Target = NewTask;

    ghost deref_gives = { λ shared task. task ≡ shared };

    fn deref(&self) -> &NewTask
        ensures { result.now ≡ self.now }
    {
        &self.task
    }
}

impl TryCopy for SharedTask {
    fn try_copy(&self, _alloc: Global) -> Result<SharedTask, AllocError> {
        Ok(SharedTask {
            task: Arc::try_clone(&self.task)?,
        })
    }
}
