//! What a page of tasks or of bots tells.
ghost use Rattle.std.specs.Prelude.{◌≡◌};
ghost use Rattle.serde_json.specs.View.{view};
ghost use Rattle.json_fields.specs.Readings.{GivesUnlessMemory, Reads};
ghost use Rattle.server_calls.specs.Bots.{bot_place_in, bot_view_in};
ghost use Rattle.server_calls.specs.Pages.{checked_page, some_task_place_in, task_places_in, task_items_in, bot_places_in, bot_items_in, bot_cursor_in, tasks_in, bots_in};
ghost use Rattle.server_calls.specs.Tasks.{task_view_in};

use crate::Told;
use crate::bots::{read_bot_place, read_bot_view};
use crate::members::{check_keys, read_text_or_none};
use crate::places::{number_of_task, place_of_task, read_cursor, read_page_place, read_place};
use crate::task_views::{read_task_place, read_task_view};
use dimensions::{Seq, Text};
use json_fields::{ReadFields, read_objects};
use serde_json::Value;
use std::alloc::Global;
use swarm_model::{BotView, Reply, TaskView};
use task_props::PropFault;

/// The places that tasks name.
struct TaskPlaces;

impl ReadFields for TaskPlaces {
    type Value = Option<u32>;

    ghost fields = { some_task_place_in };

    #[tactic(auto, unfolding(crate::specs::Pages::some_task_place_in))]
    fn read_fields(alloc: Global, task: &Value) -> Result<Option<u32>, PropFault> {
        let place = read_task_place(alloc, task)?;
        Ok(Some(place))
    }
}

/// Tasks as they are shown.
struct TaskViews;

impl ReadFields for TaskViews {
    type Value = TaskView;

    ghost fields = { task_view_in };

    fn read_fields(alloc: Global, task: &Value) -> Result<TaskView, PropFault> {
        read_task_view(alloc, task)
    }
}

/// The places that bots name.
struct BotPlaces;

impl ReadFields for BotPlaces {
    type Value = Option<u32>;

    ghost fields = { bot_place_in };

    fn read_fields(alloc: Global, bot: &Value) -> Result<Option<u32>, PropFault> {
        read_bot_place(alloc, bot)
    }
}

/// Bots as they are shown.
struct BotViews;

impl ReadFields for BotViews {
    type Value = BotView;

    ghost fields = { bot_view_in };

    fn read_fields(alloc: Global, bot: &Value) -> Result<BotView, PropFault> {
        read_bot_view(alloc, bot)
    }
}

#[tactic(auto, unfolding(crate::specs::Pages::checked_page))]
fn check_page_keys(alloc: Global, page: &Value) -> Result<&Value, PropFault>
    ensures { GivesUnlessMemory (λ v. view v.now) result (checked_page (view page.now)) }
{
    check_keys(alloc, page, &["cursor", "items"])
}

#[tactic(auto, unfolding(crate::specs::Pages::task_places_in))]
fn read_task_places(alloc: Global, page: &Value) -> Result<Seq<Option<u32>>, PropFault>
    ensures { Reads result (task_places_in (view page.now)) }
{
    read_objects::<TaskPlaces>(alloc, page, "items")
}

#[tactic(auto, unfolding(crate::specs::Pages::task_items_in))]
fn read_task_views(alloc: Global, page: &Value) -> Result<Seq<TaskView>, PropFault>
    ensures { Reads result (task_items_in (view page.now)) }
{
    read_objects::<TaskViews>(alloc, page, "items")
}

#[tactic(auto, unfolding(crate::specs::Pages::bot_places_in))]
fn read_bot_places(alloc: Global, page: &Value) -> Result<Seq<Option<u32>>, PropFault>
    ensures { Reads result (bot_places_in (view page.now)) }
{
    read_objects::<BotPlaces>(alloc, page, "items")
}

#[tactic(auto, unfolding(crate::specs::Pages::bot_items_in))]
fn read_bot_views(alloc: Global, page: &Value) -> Result<Seq<BotView>, PropFault>
    ensures { Reads result (bot_items_in (view page.now)) }
{
    read_objects::<BotViews>(alloc, page, "items")
}

#[tactic(auto, unfolding(crate::specs::Pages::bot_cursor_in))]
fn read_bot_cursor(alloc: Global, page: &Value) -> Result<Option<Text>, PropFault>
    ensures { Reads result (bot_cursor_in (view page.now)) }
{
    read_text_or_none(alloc, page, "cursor")
}

/// A page of tasks.
#[tactic(auto, unfolding(crate::specs::Pages::tasks_in))]
pub(crate) fn read_tasks(alloc: Global, body: &Value) -> Result<Told, PropFault>
    ensures { Reads result (tasks_in (view body.now)) }
{
    check_page_keys(alloc, body)?;
    let cursor = read_cursor(alloc, body)?;
    let places = read_task_places(alloc, body)?;
    let items = read_task_views(alloc, body)?;
    let place = read_page_place(alloc, place_of_task(cursor), places.as_slice())?;
    Ok(Told::Good {
        place,
        reply: Reply::Tasks {
            items,
            cursor: number_of_task(cursor),
        },
        bytes: Seq::new(alloc),
    })
}

/// A page of bots.
#[tactic(auto, unfolding(crate::specs::Pages::bots_in))]
pub(crate) fn read_bots(alloc: Global, body: &Value) -> Result<Told, PropFault>
    ensures { Reads result (bots_in (view body.now)) }
{
    check_page_keys(alloc, body)?;
    let cursor = read_bot_cursor(alloc, body)?;
    let places = read_bot_places(alloc, body)?;
    let items = read_bot_views(alloc, body)?;
    let place = read_place(alloc, places.as_slice())?;
    Ok(Told::Good {
        place,
        reply: Reply::Bots { items, cursor },
        bytes: Seq::new(alloc),
    })
}
