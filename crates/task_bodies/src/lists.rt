//! Asking for a page of the tasks in a state.
ghost use Rattle.std.specs.Prelude.{◌≡◌, true, IfOk};
ghost use Rattle.serde_json.specs.View.{view};
ghost use Rattle.swarm_model.specs.Fits.{is_limit};
ghost use Rattle.json_fields.specs.Readings.{Reads};
ghost use Rattle.task_bodies.specs.Lists.{cursor_at, list_body_in};

use crate::states::{read_state, read_state_text};
use dimensions::Text;
use json_fields::{read_limit, read_number, read_optional_number, read_required_text, read_whole};
use serde_json::Value;
use std::alloc::Global;
use swarm_model::TaskState;
use task_props::PropFault;

/// A page of the tasks in a state, or in any.
#[derive(Drop)]
pub struct ListBody {
    /// The name of the pool.
    pub pool: Text,
    pub state: Option<TaskState>,
    /// How many tasks the page shows: 1 to 200.
    pub limit: u32,
    /// The number of the place of a pool and of a task in it, as an id shows it, where the page
    /// is to go on after that task.
    pub cursor: Option<u32>,
}

#[tactic(auto, unfolding(crate::specs::Lists::cursor_at))]
fn read_cursor(alloc: Global, number: Option<i128>) -> Result<Option<u32>, PropFault>
    ensures { Reads result (cursor_at number) }
{
    let Some(number) = number else {
        return Ok(None);
    };
    let cursor = read_whole(alloc, "cursor", 1, 1_048_576, number)?;
    Ok(Some(cursor as u32))
}

/// The pool, the state, how many tasks, and after which.
#[tactic(auto, unfolding(crate::specs::Lists::list_body_in))]
pub fn read_list(alloc: Global, body: &Value) -> Result<ListBody, PropFault>
    ensures exact { Reads result (list_body_in (view body.now)) }
    ensures limit { IfOk result (λ list. is_limit list.limit ≡ true) }
{
    let pool = read_required_text(alloc, body, "pool")?;
    let name = read_state_text(alloc, body)?;
    let most = read_number(alloc, body, "limit")?;
    let last = read_optional_number(alloc, body, "cursor")?;
    let state = read_state(alloc, name)?;
    let limit = read_limit(alloc, most)?;
    let cursor = read_cursor(alloc, last)?;
    let pool = Text::from_str(alloc, pool)?;
    Ok(ListBody {
        pool,
        state,
        limit,
        cursor,
    })
}
