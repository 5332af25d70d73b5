ghost use Rattle.std.specs.Prelude.{MatchBool};
ghost use Rattle.swarm_model.specs.Numbers.{AreNumbered};

use row_changes::Row;

/// Whether the rows have the numbers 1, 2 and so on.
pub fn are_numbered<R: Row>(rows: &[R]) -> bool
    ensures { MatchBool result (AreNumbered R.no 1 rows.now) (AreNumbered R.no 1 rows.now → ⊥) }
{
    for place in 0..rows.len() {
        if rows[place].no() as usize != place + 1 {
            return false;
        }
    }
    true
}
