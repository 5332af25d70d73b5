//! The first rule that a request breaks.
ghost use Rattle.std.specs.Prelude.{◌≡◌, ◌≤◌, length, Some};
ghost use Rattle.std.specs.Option.{option_map};
ghost use Rattle.dimensions.specs.Choosing.{◌or_else◌};
ghost use Rattle.task_props.specs.FieldRules.{broken_at, timeout_rule as spec_timeout_rule, grace_rule as spec_grace_rule};
ghost use Rattle.task_props.specs.declared.task_field.SliceField.TheVariants.{ExecutionTimeoutSecs, IoTimeoutSecs, GracePeriodSecs};
ghost use Rattle.task_checks.specs.Broken.{broken_slice, first_broken_slice, first_broken_field, IsFaultOf};
ghost use Rattle.task_props.specs.Fields.{task_path};

use crate::broken_items::{broken_caches, broken_env, broken_outputs};
use crate::field_rules::{
    MOST_SLICES, broken_command, broken_dimensions, count_rule, expiration_rule, grace_rule,
    meant_tolerance, name_rule, priority_rule, timeout_rule, tolerance_rule, uuid_rule,
};
use crate::inputs::broken_inputs;
use crate::{RawProperties, RawSlice, RawTask};
use dimensions::Text;
use std::alloc::Global;
use task_props::{PropFault, PropRule, SliceField, TaskField};

fn broken_times(properties: &RawProperties) -> Option<(SliceField, PropRule)>
    ensures { result ≡ (option_map (broken_at ExecutionTimeoutSecs) (spec_timeout_rule properties.now.execution_timeout_secs) or_else option_map (broken_at IoTimeoutSecs) (spec_timeout_rule properties.now.io_timeout_secs) or_else option_map (broken_at GracePeriodSecs) (spec_grace_rule properties.now.grace_period_secs)) }
{
    if let Some(rule) = timeout_rule(properties.execution_timeout_secs) {
        return Some((SliceField::ExecutionTimeoutSecs, rule));
    }
    if let Some(rule) = timeout_rule(properties.io_timeout_secs) {
        return Some((SliceField::IoTimeoutSecs, rule));
    }
    let rule = grace_rule(properties.grace_period_secs)?;
    Some((SliceField::GracePeriodSecs, rule))
}

fn broken_slice(slice: &RawSlice) -> Option<(SliceField, PropRule)>
    ensures { result ≡ broken_slice slice.now }
{
    if let Some(rule) = expiration_rule(slice.expiration_secs) {
        return Some((SliceField::ExpirationSecs, rule));
    }
    if let Some(broken) = broken_command(slice.properties.command.as_slice()) {
        return Some(broken);
    }
    if let Some(broken) = broken_env(slice.properties.env.as_slice()) {
        return Some(broken);
    }
    if let Some(broken) = broken_dimensions(slice.properties.dimensions.as_slice()) {
        return Some(broken);
    }
    if let Some(broken) = broken_caches(slice.properties.caches.as_slice()) {
        return Some(broken);
    }
    if let Some(broken) = broken_inputs(slice.properties.inputs.as_slice()) {
        return Some(broken);
    }
    if let Some(broken) = broken_outputs(slice.properties.outputs.as_slice()) {
        return Some(broken);
    }
    broken_times(&slice.properties)
}

fn first_broken_slice(slices: &[RawSlice]) -> Option<(TaskField, PropRule)>
    requires { length slices.now ≤ 8 }
    ensures { result ≡ first_broken_slice 0 slices.now }
{
    let mut place = 0;
    for slice in slices {
        if let Some((field, rule)) = broken_slice(slice) {
            return Some((
                TaskField::InSlice {
                    slice: place,
                    field,
                },
                rule,
            ));
        }
        place += 1;
    }
    None
}

pub(crate) fn first_broken_field(raw: &RawTask) -> Option<(TaskField, PropRule)>
    ensures { result ≡ first_broken_field raw.now }
{
    if let Some(rule) = name_rule(raw.name.as_str()) {
        return Some((TaskField::Name, rule));
    }
    if let Some(rule) = priority_rule(raw.priority) {
        return Some((TaskField::Priority, rule));
    }
    if let Some(rule) = tolerance_rule(meant_tolerance(raw.bot_ping_tolerance_secs)) {
        return Some((TaskField::BotPingToleranceSecs, rule));
    }
    if let Some(rule) = uuid_rule(raw.request_uuid.as_str()) {
        return Some((TaskField::RequestUuid, rule));
    }
    if let Some(rule) = count_rule(MOST_SLICES, raw.task_slices.as_slice().len()) {
        return Some((TaskField::TaskSlices, rule));
    }
    first_broken_slice(raw.task_slices.as_slice())
}

/// A rule that is broken at a field, whose dotted path wants memory.
pub(crate) fn fault_at(alloc: Global, field: TaskField, rule: PropRule) -> PropFault
    ensures { IsFaultOf (Some (task_path field, rule)) result }
{
    match format!(in alloc; "{field}") {
        Ok(path) => PropFault::Broken {
            field: Text::from_string(path),
            rule,
        },
        Err(_) => PropFault::Memory,
    }
}
