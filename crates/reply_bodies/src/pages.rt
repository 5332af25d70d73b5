//! Pages of tasks and of bots.
ghost use Rattle.std.specs.Prelude.{◌≡◌, ◌<◌, IfOk};
ghost use Rattle.serde_json.specs.Data.{string};
ghost use Rattle.serde_json.specs.View.{view, members_view};
ghost use Rattle.json_values.specs.Values.{or_null, list_data};
ghost use Rattle.reply_bodies.specs.Views.{task_data, bot_data};
ghost use Rattle.reply_bodies.specs.Bodies.{number_data, page_members as spec_page_members};

use crate::views::{bot_members, task_members, text_of};
use dimensions::Text;
use json_fields::shown_number;
use json_values::{ShowItem, list_value, with, with_text_or_null};
use serde_json::{Map, Value};
use std::alloc::{AllocError, Global};
use swarm_model::{BotView, TaskView};

/// The tasks of the pool at a place.
#[derive(Drop)]
struct Tasks {
    place: u32,
    ghost low: { place < 4 },
}

/// The bots of the pool at a place.
#[derive(Drop)]
struct Bots {
    place: u32,
    ghost low: { place < 4 },
}

impl ShowItem for Tasks {
    type Item = TaskView;

    ghost value_of = { λ tasks. task_data tasks.place };

    fn show(&self, alloc: Global, task: &TaskView) -> Result<Value, AllocError> {
        Ok(Value::Object(task_members(alloc, self.place, task)?))
    }
}

impl ShowItem for Bots {
    type Item = BotView;

    ghost value_of = { λ bots. bot_data bots.place };

    fn show(&self, alloc: Global, bot: &BotView) -> Result<Value, AllocError> {
        Ok(Value::Object(bot_members(alloc, self.place, bot)?))
    }
}

/// A task's number as it is shown, which tells the place of its pool, too.
fn number_or_null(place: u32, number: Option<u32>) -> Value
    requires { place < 4 }
    ensures { view result ≡ or_null (number_data place) number }
{
    match number {
        Some(number) => Value::from(shown_number(place, number)),
        None => Value::Null,
    }
}

/// A page of tasks of the pool at a place.
pub(crate) fn tasks_members(
    alloc: Global,
    place: u32,
    items: &[TaskView],
    cursor: Option<u32>,
) -> Result<Map<String, Value>, AllocError>
    requires { place < 4 }
    ensures { IfOk result (λ members. members_view members.entries ≡ spec_page_members (or_null (number_data place) cursor) (list_data (task_data place) items.now)) }
{
    let items = list_value(alloc, &Tasks { place }, items)?;
    let members = with(alloc, Map::new(alloc), "items", items)?;
    with(alloc, members, "cursor", number_or_null(place, cursor))
}

/// A page of bots of the pool at a place.
pub(crate) fn bots_members(
    alloc: Global,
    place: u32,
    items: &[BotView],
    cursor: &Option<Text>,
) -> Result<Map<String, Value>, AllocError>
    requires { place < 4 }
    ensures { IfOk result (λ members. members_view members.entries ≡ spec_page_members (or_null string cursor.now) (list_data (bot_data place) items.now)) }
{
    let items = list_value(alloc, &Bots { place }, items)?;
    let members = with(alloc, Map::new(alloc), "items", items)?;
    with_text_or_null(alloc, members, "cursor", text_of(cursor))
}
