ghost use Rattle.std.specs.Prelude.{◌≡◌, ◌+◌, ◌<◌, ◌≤◌, ◌^◌, ◌*◌};
ghost use Rattle.bot_core.specs.Bounds.{RunBounds};
ghost use Rattle.bot_core.specs.RunChanges.{new_run, start_run, drop_pending, drop_output, abandon_run, count_sent, is_dropped, add_output, end_run, end_of};
ghost use Rattle.bot_core.specs.Table.{apply_refusal};

use crate::{End, Run};
use refusal_codes::RefusalCode;

/// How many bytes may wait to be sent, so that an update stays below 65536 bytes.
pub(crate) const MOST_PENDING: u32 = 16384;

/// How many bytes of output a run may have.
const MOST_OUTPUT: u32 = 67108864;

/// The longest duration that is reported, in milliseconds.
const MOST_DURATION: u64 = 1 << 40;

/// A run that is claimed.
pub(crate) fn new_run(execution: u32, io: u32, grace: u32, tolerance: u32) -> Run
    ensures { result ≡ new_run execution io grace tolerance }
{
    Run {
        execution,
        io,
        grace,
        tolerance,
        started: 0,
        last_output: 0,
        last_send: 0,
        sent: 0,
        pending: 0,
        dropped: 0,
        dropping: false,
        stop: false,
        abandoned: false,
        refused: false,
        term: None,
        killed: false,
        hard_timeout: false,
        io_timeout: false,
        exit_code: 0,
        duration_ms: 0,
    }
}

/// The command runs from this moment on.
pub(crate) fn start_run(run: Run, moment: u64) -> Run
    ensures { result ≡ start_run moment run }
{
    Run {
        started: moment,
        last_output: moment,
        last_send: moment,
        ..run
    }
}

/// All pending output is dropped.
fn drop_pending(run: Run) -> Run
    requires { run.dropped + run.pending < 2 ^ 64 }
    ensures { result ≡ drop_pending run }
{
    Run {
        pending: 0,
        dropped: run.dropped + run.pending as u64,
        ..run
    }
}

/// All pending output is dropped, and all that still comes.
pub(crate) fn drop_output(run: Run) -> Run
    requires { run.dropped + run.pending < 2 ^ 64 }
    ensures { result ≡ drop_output run }
{
    Run {
        dropping: true,
        ..drop_pending(run)
    }
}

/// The server doesn't take updates of the run, so its command is to end.
pub(crate) fn abandon_run(run: Run) -> Run
    requires { run.dropped + run.pending < 2 ^ 64 }
    ensures { result ≡ abandon_run run }
{
    Run {
        abandoned: true,
        stop: true,
        ..drop_pending(run)
    }
}

/// An update was refused while the command runs.
pub(crate) fn apply_refusal(run: Run, code: Option<RefusalCode>) -> Run
    requires { run.dropped + run.pending < 2 ^ 64 }
    ensures { result ≡ apply_refusal code run }
{
    match code {
        Some(RefusalCode::StoreFull) => drop_output(run),
        Some(
            RefusalCode::NoTask
            | RefusalCode::NoBot
            | RefusalCode::NotClaimant
            | RefusalCode::AttemptOver,
        ) => abandon_run(run),
        _ => Run {
            refused: true,
            ..abandon_run(run)
        },
    }
}

/// The update was taken, and what was pending with it.
pub(crate) fn count_sent(run: Run, must_stop: bool) -> Run
    requires { run.sent + run.pending < 2 ^ 32 }
    ensures { result ≡ count_sent must_stop run }
{
    Run {
        sent: run.sent + run.pending,
        pending: 0,
        stop: run.stop || must_stop,
        ..run
    }
}

/// Output of `size` bytes came. Where the run would pass its limit, all of it is dropped.
pub(crate) fn add_output(run: Run, size: u32, moment: u64) -> Run
    requires sizes { run.sent + run.pending + size < 2 ^ 32 }
    requires dropped { run.dropped + size < 2 ^ 64 }
    ensures { result ≡ add_output size moment run }
{
    if run.abandoned || run.dropping || MOST_OUTPUT < run.sent + run.pending + size {
        Run {
            last_output: moment,
            dropped: run.dropped + size as u64,
            dropping: true,
            ..run
        }
    } else {
        Run {
            last_output: moment,
            pending: run.pending + size,
            ..run
        }
    }
}

/// The command has ended with this code.
pub(crate) fn end_run(run: Run, code: i32, moment: u64) -> Run
    ensures { result ≡ end_run code moment run }
{
    Run {
        exit_code: code,
        duration_ms: moment
            .saturating_sub(run.started)
            .saturating_mul(1000)
            .min(MOST_DURATION),
        ..run
    }
}

/// The end, as it is reported.
pub(crate) fn end_of(run: &Run) -> End
    ensures { result ≡ end_of run.now }
{
    End {
        exit_code: run.exit_code,
        duration_ms: run.duration_ms,
        hard_timeout: run.hard_timeout,
        io_timeout: run.io_timeout,
        dropped: run.dropped,
    }
}
