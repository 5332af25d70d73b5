ghost use Rattle.std.specs.Prelude.{◌≡◌, AllPairs, MatchBool};
ghost use Rattle.swarm_model.specs.BaseRules.{AreCreatedInOrder};
ghost use Rattle.base_checks.specs.Rows.{HasLowerNumber};

use blob_rows::BlobRow;
use swarm_model::TaskRow;

/// Whether tasks of lower numbers were created no later, where they are numbered by their places.
pub fn are_in_order(tasks: &[TaskRow]) -> bool
    ensures { MatchBool result (AreCreatedInOrder tasks.now) (AreCreatedInOrder tasks.now → ⊥) }
{
    for place in 1..tasks.len() {
        if tasks[place].created < tasks[place - 1].created {
            return false;
        }
    }
    true
}

/// Whether the number of each blob is above those of the blobs before it.
pub fn have_rising_numbers(blobs: &[BlobRow]) -> bool
    ensures { MatchBool result (AllPairs HasLowerNumber blobs.now) (AllPairs HasLowerNumber blobs.now → ⊥) }
{
    for place in 1..blobs.len() {
        if blobs[place].no <= blobs[place - 1].no {
            return false;
        }
    }
    true
}
