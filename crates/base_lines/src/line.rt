//! The line of a row, and the row of a line.
ghost use Rattle.std.specs.Prelude.{◌≡◌, IfOk, OnOk};
ghost use Rattle.serde_json.specs.View.{view};
ghost use Rattle.line_parts.specs.Finding.{Finds};
ghost use Rattle.base_lines.specs.Lines.{row_line, HoldsRow, row_in, row_of_kind, row_of_line, if_line, ReadsBack, LinesAreDistinct};

use crate::rows::{read_blob, read_bot, read_pool, read_task};
use crate::{BaseLine, BaseRow};
use dimensions::Text;
use line_parts::{LineFault, name_of, value_of};
use serde_json::Value;
use std::alloc::{AllocError, Global};

/// The line of a row.
#[tactic(auto, using(crate::proofs::Back::is_plain), unfolding(crate::specs::Lines::row_line))]
pub fn line_of<R: BaseLine>(alloc: Global, row: &R) -> Result<Text, AllocError>
    ensures line { IfOk result (λ text. text ≡ row_line (R.told row.now)) }
    ensures reads_back { OnOk result (ReadsBack (R.told row.now)) }
    ensures holds { OnOk result (HoldsRow (R.told row.now)) }
{
    let value = row.to_value(alloc)?;
    let text = value.to_string(alloc)?;
    Ok(Text::from_string(text))
}

#[tactic(auto, unfolding(crate::specs::Lines::row_of_kind))]
fn read_of_kind(alloc: Global, name: &str, value: &Value) -> Result<BaseRow, LineFault>
    ensures { Finds result (row_of_kind name.now (view value.now)) }
{
    match name {
        "pool" => {
            let pool = read_pool(alloc, value)?;
            Ok(BaseRow::Pool(pool))
        }
        "task" => {
            let task = read_task(alloc, value)?;
            Ok(BaseRow::Task(task))
        }
        "bot" => {
            let bot = read_bot(alloc, value)?;
            Ok(BaseRow::Bot(bot))
        }
        "blob" => {
            let blob = read_blob(alloc, value)?;
            Ok(BaseRow::Blob(blob))
        }
        _ => Err(LineFault::NotALine),
    }
}

#[tactic(auto, unfolding(crate::specs::Lines::row_in))]
fn read_row(alloc: Global, value: &Value) -> Result<BaseRow, LineFault>
    ensures { Finds result (row_in (view value.now)) }
{
    let name = name_of(value)?;
    read_of_kind(alloc, name, value)
}

/// The row, where the text is its line.
fn if_line(alloc: Global, row: BaseRow, text: &str) -> Result<BaseRow, LineFault>
    ensures row { Finds result (if_line text.now row) }
    ensures holds { IfOk result HoldsRow }
{
    let line = line_of(alloc, &row)?;
    if line.as_str() == text {
        Ok(row)
    } else {
        Err(LineFault::NotALine)
    }
}

/// The row of a line.
///
/// # Errors
///
/// [`LineFault::NotALine`] exactly where the text is the line of no row, and
/// [`LineFault::Memory`].
#[tactic(auto, unfolding(crate::specs::Lines::row_of_line))]
pub fn read_line(alloc: Global, text: &str) -> Result<BaseRow, LineFault>
    ensures row { Finds result (row_of_line text.now) }
    ensures holds { IfOk result HoldsRow }
{
    let value = value_of(alloc, text)?;
    let row = read_row(alloc, &value)?;
    if_line(alloc, row, text)
}

/// A text of which a row is read is the line of that row: so no two rows are read of one line.
#[tactic(auto, using(crate::proofs::Back::lines_are_distinct))]
pub fn a_line_is_of_one_row()
    ensures { LinesAreDistinct }
{}
