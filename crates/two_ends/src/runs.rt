//! The runs that a bot was told of, the newest first.
ghost use Rattle.std.specs.Prelude.{◌≡◌, ◌≤◌, ◌++◌, ℕ, List, IfSome, OnOk, OnErr};
ghost use Rattle.std.specs.Option.{option_copied};
ghost use Rattle.dimensions.specs.declared.bot_dims.BotDims.{BotDims};
ghost use Rattle.bot_core.specs.declared.action.Action.{Action};
ghost use Rattle.bot_worlds.specs.World.{newest, request_by, runs_after, with_output, with_start, with_told};

use bot_core::BotEvent;
use bot_worlds::ChildRun;
use dimensions::Seq;
use std::alloc::{AllocError, Global};

/// The run that the next action is of: the newest one once the event has come.
pub(crate) fn run_after<'a>(
    runs: &'a [ChildRun],
    event: &BotEvent,
    told: &'a Option<ChildRun>,
) -> Option<&'a ChildRun>
    ensures { (name : List ℕ) (dims : BotDims) (bytes pending : List ℕ) (action : Action) → request_by name dims (option_copied result) pending action ≡ request_by name dims (newest (runs_after told.now event.now bytes runs.now)) pending action }
{
    if let BotEvent::ClaimRun { .. } = event
        && let Some(run) = told
    {
        return Some(run);
    }
    runs.first()
}

fn add_run(runs: &mut Vec<ChildRun>, told: Option<ChildRun>) -> Result<(), AllocError>
    ensures added { OnOk result (runs.new.items ≡ with_told told runs.old.items) }
    ensures kept { OnErr result (runs.new.items ≡ runs.old.items) }
{
    if let Some(run) = told {
        runs.insert(0, run)?;
    }
    Ok(())
}

fn count_start(runs: &mut Vec<ChildRun>)
    requires once { IfSome (newest runs.old.items) (λ run. run.started ≤ 1) }
    ensures { runs.new.items ≡ with_start runs.old.items }
{
    if !runs.is_empty() {
        let run = &mut runs[0];
        run.started += 1;
    }
}

fn add_output(alloc: Global, runs: &mut Vec<ChildRun>, bytes: &[u8]) -> Result<(), AllocError>
    ensures added { OnOk result (runs.new.items ≡ with_output bytes.now runs.old.items) }
    ensures kept { OnErr result (runs.new.items ≡ runs.old.items) }
{
    if runs.is_empty() {
        return Ok(());
    }
    let mut wrote = Vec::from_slice(alloc, runs[0].wrote.as_slice())?;
    wrote.extend_from_slice(bytes)?;
    let run = &mut runs[0];
    run.wrote = Seq::from_vec(wrote);
    Ok(())
}

/// The runs once an event has come: a claim is answered with one more, its command was started, or it
/// wrote these bytes.
pub(crate) fn change_runs(
    alloc: Global,
    runs: &mut Vec<ChildRun>,
    event: &BotEvent,
    bytes: &[u8],
    told: Option<ChildRun>,
) -> Result<(), AllocError>
    requires once { IfSome (newest runs.old.items) (λ run. run.started ≤ 1) }
    ensures changed { OnOk result (runs.new.items ≡ runs_after told event.now bytes.now runs.old.items) }
    ensures kept { OnErr result (runs.new.items ≡ runs.old.items) }
{
    match event {
        BotEvent::ClaimRun { .. } => add_run(runs, told),
        BotEvent::Started => {
            count_start(runs);
            Ok(())
        }
        BotEvent::Output { .. } => add_output(alloc, runs, bytes),
        _ => Ok(()),
    }
}
