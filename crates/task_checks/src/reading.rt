//! The task that an unbroken request means.
ghost use Rattle.std.specs.Prelude.{◌≡◌, None, IfOk, is_none, map, true};
ghost use Rattle.std.specs.List.{All, list_all};
ghost use Rattle.dimensions.specs.Order.{sorted_by, sorted_pairs, sorted_texts};
ghost use Rattle.dimensions.specs.Rules.{are_checked};
ghost use Rattle.task_checks.specs.Broken.{broken_slice, first_broken_field};
ghost use Rattle.task_props.specs.Checked.{is_sound_slice, is_checked};
ghost use Rattle.task_props.specs.FieldRules.{timeout_rule, grace_rule, broken_dimensions};
ghost use Rattle.task_checks.specs.Inputs.{broken_inputs};
ghost use Rattle.task_checks.specs.Reading.{properties_of, slice_of, task_of};
ghost use Rattle.task_props.specs.Slices.{slices_rule};
ghost use Rattle.task_props.specs.Sorted.{is_cache_below};

use crate::field_rules::{
    HIGHEST_PRIORITY, LONGEST_EXPIRATION_SECS, LONGEST_GRACE_SECS, LONGEST_TIMEOUT_SECS,
    LONGEST_TOLERANCE_SECS, SHORTEST_TOLERANCE_SECS, meant_tolerance, natural,
};
use crate::inputs::read_inputs;
use crate::{RawProperties, RawSlice, RawTask};
use dimensions::{DimSet, Seq, Text};
use std::alloc::{AllocError, Global};
use task_props::{Cache, NewTask, Properties, Slice};

/// The pairs of dimensions that break no rule.
fn read_dimensions(pairs: Seq<(Text, Text)>) -> Result<DimSet, AllocError>
    requires { broken_dimensions pairs ≡ None }
    ensures value { IfOk result (λ set. set ≡ sorted_pairs pairs) }
    ensures checked { IfOk result (λ set. are_checked set ≡ true) }
{
    // No rule is broken, so only memory can be missing.
    match DimSet::read(pairs) {
        Ok(dimensions) => Ok(dimensions),
        Err(_) => Err(AllocError),
    }
}

fn sorted_env(pairs: Seq<(Text, Text)>) -> Result<Seq<(Text, Text)>, AllocError>
    ensures { IfOk result (λ sorted. sorted ≡ sorted_pairs pairs) }
{
    let sorted = pairs.into_sorted()?;
    Ok(sorted)
}

fn sorted_caches(caches: Seq<Cache>) -> Result<Seq<Cache>, AllocError>
    ensures { IfOk result (λ sorted. sorted ≡ sorted_by is_cache_below caches) }
{
    let sorted = caches.into_sorted()?;
    Ok(sorted)
}

fn sorted_outputs(paths: Seq<Text>) -> Result<Seq<Text>, AllocError>
    ensures { IfOk result (λ sorted. sorted ≡ sorted_texts paths) }
{
    let sorted = paths.into_sorted()?;
    Ok(sorted)
}

fn read_properties(alloc: Global, raw: RawProperties) -> Result<Properties, AllocError>
    requires dimensions { broken_dimensions raw.dimensions ≡ None }
    requires inputs { broken_inputs raw.inputs ≡ None }
    requires execution { timeout_rule raw.execution_timeout_secs ≡ None }
    requires io { timeout_rule raw.io_timeout_secs ≡ None }
    requires grace { grace_rule raw.grace_period_secs ≡ None }
    ensures value { IfOk result (λ properties. properties ≡ properties_of raw) }
    ensures checked { IfOk result (λ properties. are_checked properties.dimensions ≡ true) }
{
    Ok(Properties {
        command: raw.command,
        env: sorted_env(raw.env)?,
        dimensions: read_dimensions(raw.dimensions)?,
        caches: sorted_caches(raw.caches)?,
        inputs: read_inputs(alloc, raw.inputs)?,
        outputs: sorted_outputs(raw.outputs)?,
        execution_timeout_secs: natural(0, LONGEST_TIMEOUT_SECS, raw.execution_timeout_secs),
        io_timeout_secs: natural(0, LONGEST_TIMEOUT_SECS, raw.io_timeout_secs),
        grace_period_secs: natural(0, LONGEST_GRACE_SECS, raw.grace_period_secs),
        idempotent: raw.idempotent,
    })
}

fn read_slice(alloc: Global, raw: RawSlice) -> Result<Slice, AllocError>
    requires { broken_slice raw ≡ None }
    ensures value { IfOk result (λ slice. slice ≡ slice_of raw) }
    ensures sound { IfOk result (λ slice. is_sound_slice slice ≡ true) }
{
    Ok(Slice {
        expiration_secs: natural(1, LONGEST_EXPIRATION_SECS, raw.expiration_secs),
        wait_for_capacity: raw.wait_for_capacity,
        properties: read_properties(alloc, raw.properties)?,
    })
}

fn read_slices(alloc: Global, raw: Seq<RawSlice>) -> Result<Seq<Slice>, AllocError>
    requires { All (λ slice. broken_slice slice ≡ None) raw }
    ensures value { IfOk result (λ slices. slices ≡ map slice_of raw) }
    ensures sound { IfOk result (λ slices. list_all is_sound_slice slices ≡ true) }
{
    let raw = raw.into_vec();
    let mut slices = Vec::with_capacity(alloc, raw.len())?;
    for slice in raw {
        slices.push(read_slice(alloc, slice)?)?;
    }
    Ok(Seq::from_vec(slices))
}

/// The task of fields that break no rule. Its slices as a whole may break one.
pub(crate) fn read_task(alloc: Global, raw: RawTask) -> Result<NewTask, AllocError>
    requires { first_broken_field raw ≡ None }
    ensures value { IfOk result (λ task. task ≡ task_of raw) }
    ensures sound { IfOk result (λ task. is_checked task ≡ is_none (slices_rule task.task_slices)) }
{
    Ok(NewTask {
        name: raw.name,
        priority: natural(0, HIGHEST_PRIORITY, raw.priority),
        bot_ping_tolerance_secs: natural(
            SHORTEST_TOLERANCE_SECS,
            LONGEST_TOLERANCE_SECS,
            meant_tolerance(raw.bot_ping_tolerance_secs),
        ),
        request_uuid: raw.request_uuid,
        task_slices: read_slices(alloc, raw.task_slices)?,
    })
}
