//! What the rows of tasks and bots tell without those of the blobs.
ghost use Rattle.row_copies.specs.RowsAlone.{RepliesReadRowsAlone, RowsAloneAreSound};

/// A request that only reads tasks and bots is answered without the blobs as it is with them.
#[tactic(auto, using(crate::proofs::RowsAlone::reply_of_rows_alone))]
pub fn replies_read_rows_alone()
    ensures { RepliesReadRowsAlone }
{}

/// A sound pool is sound without its blobs.
#[tactic(auto, using(crate::proofs::RowsAlone::sound_rows_alone))]
pub fn rows_alone_are_sound()
    ensures { RowsAloneAreSound }
{}
