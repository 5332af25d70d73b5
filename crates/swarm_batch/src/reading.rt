//! The lines of a file of tasks.
ghost use Rattle.std.specs.Prelude.{◌≡◌};
ghost use Rattle.swarm_batch.specs.Reading.{count_rule as spec_count_rule, IsRead};

use crate::faults::{BatchFault, BatchRule, first_broken_line};
use crate::lines::{Cut, cut_lines};
use std::alloc::Global;

/// The most bytes of a file.
const MOST_BYTES: usize = 1_048_576;

fn count_rule(size: usize, cut: &Cut) -> Option<BatchRule>
    ensures { result ≡ spec_count_rule size cut.now }
{
    let count = cut.lines.as_slice().len();
    if size > MOST_BYTES || !cut.rest.as_slice().is_empty() || count == 0 || count > 4096 {
        Some(BatchRule::Count)
    } else {
        None
    }
}

/// The lines of a file of 1 to 4096 tasks, or the first rule that it breaks.
pub(crate) fn read_lines(alloc: Global, text: &[u8]) -> Result<Cut, BatchFault>
    ensures { IsRead text.now result }
{
    let cut = cut_lines(alloc, text)?;
    if let Some(rule) = count_rule(text.len(), &cut) {
        return Err(BatchFault::Broken { line: 0, rule });
    }
    match first_broken_line(alloc, cut.lines.as_slice())? {
        Some((line, rule)) => Err(BatchFault::Broken { line, rule }),
        None => Ok(cut),
    }
}
