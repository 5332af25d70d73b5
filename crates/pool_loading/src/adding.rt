//! One line of a log.
ghost use Rattle.std.specs.Prelude.{◌≡◌, OnOk, IsErrOf};
ghost use Rattle.swarm_model.specs.MachineState.{IsHistory};
ghost use Rattle.pool_loading.specs.Lines.{AddsLine, HoldsNothing, Refuses};

use crate::following::may_follow;
use entry_lines::{LineFault, read_line};
use std::alloc::{AllocError, Global};
use swarm_model::{Machine, PoolSettings, ReserveFault};

/// Why a line is not added to a log.
#[derive(Clone, Copy, Debug, PartialEq, Eq)]
pub(crate) enum LineStop {
    Memory,
    /// It is no line of an entry, or of one that isn't legal there.
    Refused,
}

impl From<AllocError> for LineStop {
    ghost use Rattle.std.specs.Prelude.{◌≡◌};
    ghost use Rattle.pool_loading.specs.declared.adding.LineStop.TheVariants.{Memory};

    ghost from_gives = { λ _ stop. stop ≡ Memory };

    fn from(_: AllocError) -> LineStop {
        LineStop::Memory
    }
}

/// Adds the entry of a line to the log, where it is legal there.
pub(crate) fn add_line<M: Machine>(
    alloc: Global,
    machine: &mut M,
    settings: &PoolSettings,
    line: &str,
) -> Result<(), LineStop>
    requires settings { settings.now ≡ (M.kept machine.old).pool.settings }
    requires history { IsHistory (M.kept machine.old) }
    requires nothing { HoldsNothing (M.kept machine.old) }
    ensures adds { OnOk result (AddsLine line.now (M.kept machine.old) (M.kept machine.new)) }
    ensures refused { IsErrOf result LineStop.Refused → Refuses line.now (M.kept machine.old) }
{
    let entry = match read_line(alloc, line) {
        Ok(entry) => entry,
        Err(LineFault::Memory) => return Err(LineStop::Memory),
        Err(LineFault::NotALine) => return Err(LineStop::Refused),
    };
    if !may_follow(alloc, machine, settings, &entry, line)? {
        return Err(LineStop::Refused);
    }
    match machine.reserve(&entry) {
        Ok(()) => {}
        Err(ReserveFault::Memory) => return Err(LineStop::Memory),
        Err(ReserveFault::LogFull) => return Err(LineStop::Refused),
    }
    machine.commit(entry, None);
    // For the proof: the log that the machine keeps is legal.
    let _length = machine.length();
    Ok(())
}
