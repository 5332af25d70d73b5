ghost use Rattle.std.specs.Prelude.{◌≡◌, ◌⊎◌, Some, Ok, IsSome, IfOk, OnOk, OnErr, length};
ghost use Rattle.swarm_batch.specs.Marks.{progress_text};
ghost use Rattle.swarm_batch.specs.Batches.{next_line, AreMarks};
ghost use Rattle.batch_plays.specs.Saving.{marked, text_at, IsUnsaved, ReadsAgain, AreProgress};

use dimensions::{Text, TryCopy};
use server_calls::Told;
use std::alloc::{AllocError, Global};
use std::mem;
use swarm_batch::{Batch, BatchFault, Marked, told_mark};

/// A batch, the progress that was saved of it last, and the one before.
#[derive(Drop)]
pub struct SavedBatch {
    pub batch: Batch,
    pub saved: Text,
    pub before: Text,
}

/// What is saved of a batch.
pub(crate) fn progress_of(alloc: Global, batch: &Batch) -> Result<Text, AllocError>
    ensures written { IfOk result (λ text. text ≡ progress_text batch.now.head batch.now.marks) }
    ensures good { IfOk result (λ text. AreMarks (length batch.now.lines) batch.now.marks) }
{
    Ok(Text::from_string(batch.progress(alloc)?))
}

impl SavedBatch {
    fn save(&mut self, alloc: Global) -> Result<(), AllocError>
        ensures ok { OnOk result (self.new ≡ record self.old { saved = progress_text self.old.batch.head self.old.batch.marks; before = self.old.saved }) }
        ensures good { OnOk result (AreMarks (length self.old.batch.lines) self.old.batch.marks) }
        ensures err { OnErr result (self.new ≡ self.old) }
    {
        let text = progress_of(alloc, &self.batch)?;
        self.before = mem::replace(&mut self.saved, text);
        Ok(())
    }

    /// Marks the line that comes next by what it was told, and saves the progress. What tells no mark
    /// changes nothing. Where memory is wanting the line may be marked, and nothing is saved.
    pub(crate) fn mark(&mut self, alloc: Global, told: &Told) -> Result<(), AllocError>
        requires progress { AreProgress self.old }
        requires next { IsSome (next_line self.old.batch) }
        ensures progress { OnOk result (AreProgress self.new) }
        ensures ok { OnOk result (self.new ≡ marked self.old told.now) }
        ensures err { OnErr result (IsUnsaved self.old told.now self.new) }
    {
        if told_mark(told).is_none() {
            return Ok(());
        }
        match self.batch.told(alloc, told)? {
            Marked::Again => Ok(()),
            Marked::Done => self.save(alloc),
        }
    }

    fn text(&self, saved: bool) -> &Text
        ensures { result.now ≡ text_at saved self.now }
    {
        if saved { &self.saved } else { &self.before }
    }

    /// Reads the batch again, from the progress that was saved last or from the one before.
    pub(crate) fn read_again(&mut self, alloc: Global, saved: bool) -> Result<(), AllocError>
        requires progress { AreProgress self.old }
        ensures progress { OnOk result (AreProgress self.new) }
        ensures ok { OnOk result (ReadsAgain saved self.old self.new) }
        ensures err { OnErr result (self.new ≡ self.old) }
    {
        let text = self.text(saved).try_copy(alloc)?;
        match self.batch.read_again(alloc, Some(text.as_str().as_bytes())) {
            Ok(()) => {
                self.saved = text;
                Ok(())
            }
            Err(BatchFault::Memory) => Err(AllocError),
            Err(BatchFault::Broken { .. }) => unreachable!(),
        }
    }

    pub(crate) fn into_batch(self) -> Batch
        ensures { result ≡ self.batch }
    {
        self.batch
    }
}
