//! Whole numbers within their ranges.
ghost use Rattle.std.specs.Prelude.{◌≡◌, ◌≤◌, IfOk};
ghost use Rattle.json_fields.specs.Readings.{Gives, Reads};
ghost use Rattle.json_fields.specs.Ranges.{whole_in as spec_whole_in, whole_at};

use crate::faults::broken;
use std::alloc::Global;
use task_props::{PropFault, PropRule};

#[tactic(auto, unfolding(crate::specs::Ranges::whole_in))]
fn whole_in(lowest: u64, highest: u64, number: i128) -> Result<u64, PropRule>
    ensures exact { Gives (λ n. n) result (spec_whole_in lowest highest number) }
    ensures at_least { IfOk result (λ n. lowest ≤ n) }
    ensures at_most { IfOk result (λ n. n ≤ highest) }
{
    if number < 0 {
        return Err(PropRule::Range);
    }
    if lowest as i128 <= number && number <= highest as i128 {
        Ok(number as u64)
    } else {
        Err(PropRule::Range)
    }
}

/// A number of a key that must be from the lowest to the highest.
pub fn read_whole(
    alloc: Global,
    key: &str,
    lowest: u64,
    highest: u64,
    number: i128,
) -> Result<u64, PropFault>
    ensures exact { Reads result (whole_at key.now lowest highest number) }
    ensures at_least { IfOk result (λ n. lowest ≤ n) }
    ensures at_most { IfOk result (λ n. n ≤ highest) }
{
    match whole_in(lowest, highest, number) {
        Ok(number) => Ok(number),
        Err(rule) => Err(broken(alloc, key, rule)),
    }
}
