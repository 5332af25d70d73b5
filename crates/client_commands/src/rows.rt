//! Replies that list rows, of which each is printed as a line.
ghost use Rattle.std.specs.Prelude.{◌≡◌, IfOk};
ghost use Rattle.std.specs.List.{flat_map};

use std::alloc::{AllocError, Global};

/// How a row is printed.
pub(crate) trait ShowRow {
    ghost use Rattle.std.specs.Prelude.{◌≡◌, ◌++◌, ℕ, List, OnOk};

    // The line of a row of the pool at a place.
    ghost line: { ℕ → Self → List ℕ };

    fn push_line(&self, alloc: Global, text: &mut Vec<u8>, place: u32) -> Result<(), AllocError>
        ensures { OnOk result (text.new.items ≡ text.old.items ++ line place self.now) };
}

/// The lines of all rows.
pub(crate) fn row_lines<R: ShowRow>(
    alloc: Global,
    place: u32,
    rows: &[R],
) -> Result<Vec<u8>, AllocError>
    ensures { IfOk result (λ text. text.items ≡ flat_map (R.line place) rows.now) }
{
    let mut text = Vec::new(alloc);
    for row in rows {
        row.push_line(alloc, &mut text, place)?;
    }
    Ok(text)
}
