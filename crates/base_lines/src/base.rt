//! All lines of a base.
ghost use Rattle.std.specs.Prelude.{◌≡◌, IfOk, OnOk};
ghost use Rattle.base_lines.specs.Reading.{base_lines, AddsLines, TellThePool};

use crate::machine_row::MachineRow;
use crate::{PoolLine, line_of};
use dimensions::Text;
use std::alloc::{AllocError, Global};
use swarm_model::{BlobRow, BotRow, Machine, TaskRow};

/// Adds the lines of all rows of a kind.
fn add_lines<R: MachineRow, M: Machine>(
    alloc: Global,
    machine: &M,
    lines: &mut Vec<Text>,
) -> Result<(), AllocError>
    ensures { OnOk result (AddsLines R.told (R.rows (M.kept machine.now).pool) lines.old.items lines.new.items) }
{
    for place in 0..R::most(machine) {
        match R::row_at(machine, place) {
            Some(row) => lines.push(line_of(alloc, row)?)?,
            None => return Ok(()),
        }
    }
    Ok(())
}

/// The lines of a machine's rows: that of the pool, and then those of its tasks, of its bots and of
/// its blobs.
pub fn write_base<M: Machine>(alloc: Global, machine: &M) -> Result<Vec<Text>, AllocError>
    ensures lines { IfOk result (λ lines. lines.items ≡ base_lines (M.kept machine.now).pool) }
    ensures read_back { IfOk result (λ lines. TellThePool (M.kept machine.now).pool lines.items) }
{
    let pool = PoolLine {
        last: machine.last(),
        placed: machine.placed(),
    };
    let mut lines = vec![in alloc; line_of(alloc, &pool)?]?;
    add_lines::<TaskRow, M>(alloc, machine, &mut lines)?;
    add_lines::<BotRow, M>(alloc, machine, &mut lines)?;
    add_lines::<BlobRow, M>(alloc, machine, &mut lines)?;
    Ok(lines)
}
