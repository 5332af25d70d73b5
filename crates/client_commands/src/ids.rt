//! The ids of tasks and runs, as they are printed.
ghost use Rattle.std.specs.Prelude.{◌≡◌, IfOk, string_bytes};
ghost use Rattle.json_fields.specs.Ids.{shown_number as spec_shown_number, task_id as spec_task_id, run_id as spec_run_id};

use std::alloc::{AllocError, Global};

fn shown_number(place: u32, task: u32) -> u64
    ensures { result ≡ spec_shown_number place task }
{
    u64::from(place) * 262_144 + u64::from(task)
}

/// The id of a task of the pool at a place.
#[tactic(auto, unfolding(json_fields::specs::Ids::task_id))]
pub(crate) fn task_id(alloc: Global, place: u32, task: u32) -> Result<String, AllocError>
    ensures { IfOk result (λ id. string_bytes id ≡ spec_task_id place task) }
{
    let number = shown_number(place, task);
    format!(in alloc; "{number:x}0")
}

/// The id of a run of the pool at a place, by its task and its try.
#[tactic(auto, unfolding(json_fields::specs::Ids::run_id))]
pub(crate) fn run_id(alloc: Global, place: u32, run: (u32, u32)) -> Result<String, AllocError>
    ensures { IfOk result (λ id. string_bytes id ≡ spec_run_id place run) }
{
    let (task, try_no) = run;
    let number = shown_number(place, task);
    format!(in alloc; "{number:x}{try_no:x}")
}
