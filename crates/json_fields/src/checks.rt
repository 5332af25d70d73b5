//! Lists of items that were read, checked item by item.
ghost use Rattle.std.specs.Prelude.{◌≡◌, ◌≤◌, true, IfOk, length, decimal};
ghost use Rattle.std.specs.List.{list_all};
ghost use Rattle.json_fields.specs.Readings.{Reads, inside, each_from};
ghost use Rattle.json_fields.specs.Checks.{checked_item, checked_items};

use crate::faults::{below, below_place, broken};
use dimensions::Seq;
use std::alloc::Global;
use task_props::{PropFault, PropRule};

/// How an item of a list is checked.
pub trait CheckItem {
    ghost use Rattle.std.specs.Prelude.{◌≡◌, Bool, true, IfOk, Result};
    ghost use Rattle.task_props.specs.declared.prop_fault.PropFault.{PropFault};

    /// An item as it was read.
    type Raw;

    type Value: Drop;

    ghost checked: { Self.Raw → Result Self.Value PropFault };

    // What a checked item keeps.
    ghost fits: { Self.Value → Bool };

    fn check_item(alloc: Global, raw: &Self::Raw) -> Result<Self::Value, PropFault>
        ensures exact { Reads result (checked raw.now) }
        ensures fits { IfOk result (λ value. fits value ≡ true) };
}

fn check_at<C: CheckItem>(alloc: Global, place: usize, raw: &C::Raw) -> Result<C::Value, PropFault>
    ensures exact { Reads result (checked_item C.checked place raw.now) }
    ensures fits { IfOk result (λ value. C.fits value ≡ true) }
{
    match C::check_item(alloc, raw) {
        Ok(value) => Ok(value),
        Err(fault) => Err(below_place(alloc, place, fault)),
    }
}

fn check_each<C: CheckItem>(alloc: Global, raws: &[C::Raw]) -> Result<Seq<C::Value>, PropFault>
    ensures exact { Reads result (each_from (checked_item C.checked) 0 raws.now) }
    ensures fit { IfOk result (λ values. list_all C.fits values ≡ true) }
    ensures count { IfOk result (λ values. length values ≡ length raws.now) }
{
    let mut values = Vec::new(alloc);
    for (place, raw) in raws.iter().enumerate() {
        values.push(check_at::<C>(alloc, place, raw)?)?;
    }
    Ok(Seq::from_vec(values))
}

/// The items of the list of a key, at most so many, checked.
#[tactic(auto, unfolding(crate::specs::Checks::checked_items))]
pub fn check_items<C: CheckItem>(
    alloc: Global,
    key: &str,
    most: usize,
    raws: &[C::Raw],
) -> Result<Seq<C::Value>, PropFault>
    ensures exact { Reads result (checked_items C.checked key.now most raws.now) }
    ensures fit { IfOk result (λ values. list_all C.fits values ≡ true) }
    ensures few { IfOk result (λ values. length values ≤ most) }
{
    if raws.len() > most {
        return Err(broken(alloc, key, PropRule::Count));
    }
    match check_each::<C>(alloc, raws) {
        Ok(values) => Ok(values),
        Err(fault) => Err(below(alloc, key, fault)),
    }
}
