//! The rows of a machine, place by place.
ghost use Rattle.std.specs.Prelude.{◌≡◌, ◌≤◌, ◌<◌, ◌+◌, ◌^◌, length, slice_get};
ghost use Rattle.std.specs.Option.{option_copied};

use crate::BaseLine;
use swarm_model::{BlobRow, BotRow, Machine, TaskRow, task_uncounted};

/// The most blobs of a pool.
const MOST_BLOBS: u32 = 262_144;

/// A kind of rows that each machine has.
pub(crate) trait MachineRow: BaseLine + Sized {
    ghost use Rattle.std.specs.Prelude.{List};
    ghost use Rattle.swarm_model.specs.declared.pool_state.PoolState.{PoolState};

    /// Those of a pool.
    ghost rows: { PoolState → List Self };

    /// At least as many as there are.
    fn most<M: Machine>(machine: &M) -> u32
        ensures { length (rows (M.kept machine.now).pool) ≤ result };

    /// The row at a place, from 0.
    fn row_at<M: Machine>(machine: &M, place: u32) -> Option<&Self>
        requires { place + 1 < 2 ^ 32 }
        ensures { option_copied result ≡ slice_get (rows (M.kept machine.now).pool) place };
}

impl MachineRow for TaskRow {
    ghost rows = { λ s. s.tasks };

    fn most<M: Machine>(machine: &M) -> u32 {
        // For the proof: the rows are sound.
        let _length = machine.length();
        machine.base().settings.most_tasks
    }

    fn row_at<M: Machine>(machine: &M, place: u32) -> Option<&TaskRow> {
        // For the proof: the rows are numbered by their places.
        let _length = machine.length();
        task_uncounted(machine, place + 1)
    }
}

impl MachineRow for BotRow {
    ghost rows = { λ s. s.bots };

    fn most<M: Machine>(machine: &M) -> u32 {
        // For the proof: the rows are sound.
        let _length = machine.length();
        machine.base().settings.most_bots
    }

    fn row_at<M: Machine>(machine: &M, place: u32) -> Option<&BotRow> {
        // For the proof: the rows are numbered by their places.
        let _length = machine.length();
        machine.bot(place + 1)
    }
}

impl MachineRow for BlobRow {
    ghost rows = { λ s. s.blobs };

    fn most<M: Machine>(machine: &M) -> u32 {
        // For the proof: the rows are sound.
        let _length = machine.length();
        MOST_BLOBS
    }

    fn row_at<M: Machine>(machine: &M, place: u32) -> Option<&BlobRow> {
        machine.blob_at(place)
    }
}
