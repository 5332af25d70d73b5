//! How many rows a page shows.
ghost use Rattle.std.specs.Prelude.{◌≡◌, ◌&&◌, nat_le, true, IfOk};
ghost use Rattle.json_fields.specs.Readings.{Reads};
ghost use Rattle.json_fields.specs.Pages.{limit_of};

use crate::ranges::read_whole;
use std::alloc::Global;
use task_props::PropFault;

/// How many rows a page shows, by the number in `limit`.
#[tactic(auto, unfolding(crate::specs::Pages::limit_of))]
pub fn read_limit(alloc: Global, number: i128) -> Result<u32, PropFault>
    ensures exact { Reads result (limit_of number) }
    ensures within { IfOk result (λ limit. (nat_le 1 limit && nat_le limit 200) ≡ true) }
{
    let limit = read_whole(alloc, "limit", 0, 200, number)?;
    if limit == 0 { Ok(50) } else { Ok(limit as u32) }
}
