//! The request for a task in a body.
ghost use Rattle.std.specs.Prelude.{◌≡◌, IfOk, true, codes};
ghost use Rattle.serde_json.specs.View.{view};
ghost use Rattle.task_props.specs.Checked.{is_checked};
ghost use Rattle.json_fields.specs.Readings.{Reads};
ghost use Rattle.json_fields.specs.Fields.{object_item, each_at};
ghost use Rattle.task_bodies.specs.Tasks.{terms_in, slice_in, fields_of, checked, task_in};

use crate::slice_properties::take_properties_at;
use dimensions::Seq;
use json_fields::{TakeFields, read_flag, read_number, take_objects, take_text};
use serde_json::Value;
use std::alloc::Global;
use task_checks::{RawSlice, RawTask, check_task};
use task_props::{NewTask, PropFault};

#[tactic(auto, unfolding(crate::specs::Tasks::terms_in))]
fn read_terms(alloc: Global, slice: &Value) -> Result<(i128, bool), PropFault>
    ensures { Reads result (terms_in (view slice.now)) }
{
    let expiration_secs = read_number(alloc, slice, "expiration_secs")?;
    let wait_for_capacity = read_flag(alloc, slice, "wait_for_capacity")?;
    Ok((expiration_secs, wait_for_capacity))
}

/// A slice.
struct SliceFields;

impl TakeFields for SliceFields {
    type Value = RawSlice;

    ghost fields = { slice_in };

    #[tactic(auto, unfolding(crate::specs::Tasks::slice_in))]
    fn take_fields(alloc: Global, slice: Value) -> Result<RawSlice, PropFault> {
        let (expiration_secs, wait_for_capacity) = read_terms(alloc, &slice)?;
        let properties = take_properties_at(alloc, slice, "properties")?;
        Ok(RawSlice {
            expiration_secs,
            wait_for_capacity,
            properties,
        })
    }
}

fn take_task_slices(alloc: Global, body: &mut Value) -> Result<Seq<RawSlice>, PropFault>
    ensures { Reads result (each_at (object_item slice_in) (codes "task_slices") (view body.old)) }
{
    take_objects::<SliceFields>(alloc, body, "task_slices")
}

#[tactic(auto, using(crate::proofs::Keys::task_stays), unfolding(crate::specs::Tasks::fields_of))]
fn take_task_fields(alloc: Global, body: &mut Value) -> Result<RawTask, PropFault>
    ensures { Reads result (fields_of (view body.old)) }
{
    let name = take_text(alloc, body, "name")?;
    let priority = read_number(alloc, body, "priority")?;
    let bot_ping_tolerance_secs = read_number(alloc, body, "bot_ping_tolerance_secs")?;
    let request_uuid = take_text(alloc, body, "request_uuid")?;
    let task_slices = take_task_slices(alloc, body)?;
    Ok(RawTask {
        name,
        priority,
        bot_ping_tolerance_secs,
        request_uuid,
        task_slices,
    })
}

#[tactic(auto, unfolding(crate::specs::Tasks::checked))]
fn check(alloc: Global, raw: RawTask) -> Result<NewTask, PropFault>
    ensures exact { Reads result (checked raw) }
    ensures checked { IfOk result (λ task. is_checked task ≡ true) }
{
    check_task(alloc, raw)
}

/// The task that a body asks for, or the first broken rule: all fields are read before the other
/// rules are tried. The texts of the task are those of the body, which are not copied.
#[tactic(auto, unfolding(crate::specs::Tasks::task_in))]
pub fn read_task(alloc: Global, mut body: Value) -> Result<NewTask, PropFault>
    ensures exact { Reads result (task_in (view body)) }
    ensures checked { IfOk result (λ task. is_checked task ≡ true) }
{
    let raw = take_task_fields(alloc, &mut body)?;
    check(alloc, raw)
}
