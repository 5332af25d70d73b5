//! Boards: what a worker is asked of a pool, what is posted of its log, and what a board then shows.
//!
//! Each row is a transcript of seven connections (`test_transcript_reader` has the form), some of which
//! may be empty: `boards/playing.rt` says who answers each. There is one pool, `default`. A worker has
//! the first moment of the row, and after the first post the last one.
ghost use Rattle.std.specs.Prelude.{⊤};

mod board;
mod links;
mod playing;

use crate::boards::playing::play;
use std::alloc::Global;
use std::sync::Wait;
use swarm_machine::Pool;
use swarm_policy::{SettingsFault, read_settings};
use test_programs::TranscriptTest;
use test_transcript_reader::{Transcript, TranscriptError};

/// In the pool `ana` may do everything, and `bob` may add tasks.
const SETTINGS: &[u8] =
    b"pools = [{ name = \"default\", most_tasks = 16384, most_bots = 16, store_units = 64, grants = [{ caller = \"ana\", permissions = [\"swarming.pools.createTask\", \"swarming.pools.cancelTask\", \"swarming.pools.listTasks\", \"swarming.pools.listBots\", \"profile.pools.runBot\"] }, { caller = \"bob\", permissions = [\"swarming.pools.createTask\"] }] }]\n";

/// Rows over the program's machine.
#[derive(Drop)]
pub(crate) struct BoardRows<'a, R> {
    pub(crate) rt: &'a R,
}

impl<'a, R: Wait> TranscriptTest for BoardRows<'a, R> {
    ghost ready = { ⊤ };

    fn check(&self, alloc: Global, runs: &[Transcript]) -> Result<bool, TranscriptError> {
        let settings = match read_settings(alloc, SETTINGS) {
            Ok(settings) => settings,
            Err(SettingsFault::Memory) => return Err(TranscriptError::Memory),
            Err(SettingsFault::Broken { .. }) => return Ok(false),
        };
        if settings.pools.as_slice().len() != 1 {
            return Ok(false);
        }
        for transcript in runs {
            play::<Pool, R>(self.rt, alloc, &settings, transcript)?;
        }
        Ok(true)
    }

    fn check_over_lists(
        &self,
        _alloc: Global,
        _runs: &[Transcript],
    ) -> Result<bool, TranscriptError> {
        Ok(false)
    }
}
