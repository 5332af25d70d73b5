//! The row of a number, found and changed in place. Rows are numbered from 1, so the row of a
//! number stands at the place before it.
ghost use Rattle.std.specs.Prelude.{◌≡◌, None, map, MatchOption};
ghost use Rattle.std.specs.Option.{option_copied};
ghost use Rattle.swarm_model.specs.Numbers.{AreNumbered, change_at};
ghost use Rattle.row_changes.specs.Rows.{row_of, StandsAt, HoldsAt};

/// A row that has a number.
pub trait Row {
    ghost use Rattle.std.specs.Prelude.{ℕ};

    ghost no: { Self → ℕ };

    fn no(&self) -> u32
        ensures { result ≡ no self.now };
}

/// A change of a row, with all that it puts into the row.
pub trait Change<R> {
    ghost change: { Self → R → R };

    /// Which rows it may be made on.
    ghost fits: { R → Type 0 };

    fn apply(self, row: &mut R)
        requires { fits row.old }
        ensures { row.new ≡ change self row.old };
}

/// The place of the row of a number, where there is one.
pub fn place_of<R: Row>(rows: &[R], number: u32) -> Option<usize>
    requires { AreNumbered R.no 1 rows.now }
    ensures { MatchOption result (row_of R.no number rows.now ≡ None) (StandsAt rows.now number) }
{
    if number == 0 {
        return None;
    }
    let place = number as usize - 1;
    if place < rows.len() {
        Some(place)
    } else {
        None
    }
}

/// The row of a number.
pub fn row_of<R: Row>(rows: &[R], number: u32) -> Option<&R>
    requires { AreNumbered R.no 1 rows.now }
    ensures { option_copied result ≡ row_of R.no number rows.now }
{
    match place_of(rows, number) {
        None => None,
        Some(place) => Some(&rows[place]),
    }
}

fn change_in<R: Row, C: Change<R> + Drop>(rows: &mut [R], number: u32, by: C)
    requires numbered { AreNumbered R.no 1 rows.old }
    requires fits { HoldsAt R.no number C.fits rows.old }
    ensures { rows.new ≡ map (change_at R.no number (C.change by)) rows.old }
{
    match place_of(rows, number) {
        None => drop(by),
        Some(place) => by.apply(&mut rows[place]),
    }
}

/// Changes the row of a number, where there is one.
pub fn change_row<R: Row, C: Change<R> + Drop>(rows: &mut Vec<R>, number: u32, by: C)
    requires numbered { AreNumbered R.no 1 rows.old.items }
    requires fits { HoldsAt R.no number C.fits rows.old.items }
    ensures { rows.new.items ≡ map (change_at R.no number (C.change by)) rows.old.items }
{
    change_in(rows.as_mut_slice(), number, by);
}
