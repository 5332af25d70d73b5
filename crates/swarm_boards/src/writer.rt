//! The writer of the copies, which begins with a base, publishes, and tells new readers.
ghost use Rattle.std.specs.Prelude.{◌≡◌, ◌≤◌, ◌^◌, ◌++◌, [], Some, drop, IfOk, MatchResult};
ghost use Rattle.left_right.specs.Sides.{view};
ghost use Rattle.swarm_model.specs.BaseRules.{IsBase};
ghost use Rattle.swarm_model.specs.History.{IsLegal};
ghost use Rattle.row_copies.specs.Kept.{kept_of};
ghost use Rattle.swarm_boards.specs.Published.{newcomer, informed};
ghost use Rattle.swarm_boards.specs.Posted.{IsPosted, IsPublished};

use crate::rule::{CopyReader, CopyWriter, Publishing, Telling};
use left_right::writer::Writer;
use row_copies::RowCopy;
use std::alloc::{AllocError, Global};
use std::mem;
use std::sync::Wait;
use swarm_model::PoolState;

/// Publishes what is pending, all at once.
pub(crate) fn publish_pending<R: Wait>(
    rt: &R,
    writer: CopyWriter,
) -> (CopyWriter, Result<(), AllocError>)
    requires legal { IsLegal (kept_of writer.desk.shown.value).base ((kept_of writer.desk.shown.value).log ++ drop writer.behind writer.log.items) }
    ensures { IsPublished (kept_of writer.desk.shown.value) (view writer.desk.place) (drop writer.behind writer.log.items) (kept_of result.0.desk.shown.value) (view result.0.desk.place) (drop result.0.behind result.0.log.items) result.1 }
{
    writer.publish_as::<Publishing, R>(rt)
}

/// A writer whose copies begin with the base. Nothing is published, and nothing pending.
pub(crate) fn open_writer<R: Wait>(
    rt: &R,
    alloc: Global,
    base: &PoolState,
    readers: usize,
) -> Result<CopyWriter, AllocError>
    requires base { IsBase base.now.settings (2 ^ 31) base.now }
    requires readers { (1 ≤ readers) × (readers ≤ 8) }
    ensures posted { IfOk result (λ writer. IsPosted base.now (kept_of writer.desk.shown.value) (view writer.desk.place) (drop writer.behind writer.log.items)) }
    ensures published { IfOk result (λ writer. (view writer.desk.place).seen ≡ []) }
    ensures pending { IfOk result (λ writer. drop writer.behind writer.log.items ≡ []) }
{
    let first = RowCopy::new(alloc, base)?;
    let second = RowCopy::new(alloc, base)?;
    let writer: CopyWriter = Writer::new(alloc, first, second, readers)?;
    // The base comes into the writer's view with the first copy that is shown.
    let (writer, published) = publish_pending(rt, writer);
    match published {
        Ok(()) => Ok(writer),
        Err(_) => {
            writer.take(rt);
            Err(AllocError)
        }
    }
}

/// One reader more, which is told what is published.
#[tactic(auto, using(crate::proofs::Rises::merges))]
pub(crate) fn told_reader(writer: &mut CopyWriter) -> Result<CopyReader, AllocError>
    ensures copy { kept_of writer.new.desk.shown.value ≡ kept_of writer.old.desk.shown.value }
    ensures known { view writer.new.desk.place ≡ view writer.old.desk.place }
    ensures pending { drop writer.new.behind writer.new.log.items ≡ drop writer.old.behind writer.old.log.items }
    ensures told { IfOk result (λ reader. view reader.place ≡ informed newcomer (view writer.old.desk.place)) }
{
    let mut reader = writer.factory().reader()?;
    reader.learn::<Telling>(writer.tell::<Telling>());
    Ok(reader)
}

/// Puts a writer where none is. It waits for no reader.
pub(crate) fn put_back<R: Wait>(rt: &R, place: &mut Option<CopyWriter>, writer: CopyWriter)
    ensures { place.new ≡ Some writer }
{
    // A writer has no `drop`, so one that stood there would have to be ended.
    if let Some(old) = mem::replace(place, Some(writer)) {
        old.take(rt);
    }
}
