//! What a bot is told to do.
ghost use Rattle.std.specs.Prelude.{◌≡◌};
ghost use Rattle.serde_json.specs.View.{view};
ghost use Rattle.json_fields.specs.Readings.{GivesUnlessMemory, Reads};
ghost use Rattle.server_calls.specs.Commands.{sleep_in, claim_hint, terminate, poll_by, polled_in, checked_run, named_run_in, slice_in, tolerance_in, run_in, skip, claimed_in};

use crate::Told;
use crate::ids::RunId;
use crate::members::{check_keys, read_number, read_short_number};
use crate::places::{read_place, read_run_id};
use crate::run_properties::take_properties;
use dimensions::Seq;
use json_fields::{broken, read_required_text};
use serde_json::Value;
use std::alloc::Global;
use swarm_model::Reply;
use task_props::{PropFault, PropRule};

#[tactic(auto, unfolding(crate::specs::Commands::sleep_in))]
fn read_sleep(alloc: Global, body: &Value) -> Result<Told, PropFault>
    ensures { Reads result (sleep_in (view body.now)) }
{
    check_keys(alloc, body, &["cmd", "duration"])?;
    let secs = read_number(alloc, body, "duration", 18_446_744_073_709_551_615)?;
    Ok(Told::Good {
        place: 0,
        reply: Reply::Sleep { secs },
        bytes: Seq::new(alloc),
    })
}

fn read_claim_hint(alloc: Global, body: &Value) -> Result<Told, PropFault>
    ensures { Reads result (claim_hint (view body.now)) }
{
    check_keys(alloc, body, &["cmd"])?;
    Ok(Told::Good {
        place: 0,
        reply: Reply::ClaimHint,
        bytes: Seq::new(alloc),
    })
}

fn read_terminate(alloc: Global, body: &Value) -> Result<Told, PropFault>
    ensures { Reads result (terminate (view body.now)) }
{
    check_keys(alloc, body, &["cmd"])?;
    Ok(Told::Good {
        place: 0,
        reply: Reply::Terminate,
        bytes: Seq::new(alloc),
    })
}

fn poll_of(alloc: Global, cmd: &str, body: &Value) -> Result<Told, PropFault>
    ensures { Reads result (poll_by cmd.now (view body.now)) }
{
    match cmd {
        "sleep" => read_sleep(alloc, body),
        "claim" => read_claim_hint(alloc, body),
        "terminate" => read_terminate(alloc, body),
        _ => Err(broken(alloc, "cmd", PropRule::Grammar)),
    }
}

/// What a bot that asked what to do is told.
#[tactic(auto, unfolding(crate::specs::Commands::polled_in))]
pub(crate) fn read_polled(alloc: Global, body: &Value) -> Result<Told, PropFault>
    ensures { Reads result (polled_in (view body.now)) }
{
    let cmd = read_required_text(alloc, body, "cmd")?;
    poll_of(alloc, cmd, body)
}

#[tactic(auto, unfolding(crate::specs::Commands::checked_run))]
fn check_run_keys(alloc: Global, body: &Value) -> Result<&Value, PropFault>
    ensures { GivesUnlessMemory (λ v. view v.now) result (checked_run (view body.now)) }
{
    check_keys(
        alloc,
        body,
        &[
            "bot_ping_tolerance_secs",
            "cmd",
            "properties",
            "run_id",
            "slice",
        ],
    )
}

#[tactic(auto, unfolding(crate::specs::Commands::named_run_in))]
fn read_named_run(alloc: Global, body: &Value) -> Result<RunId, PropFault>
    ensures { Reads result (named_run_in (view body.now)) }
{
    read_run_id(alloc, body, "run_id")
}

#[tactic(auto, unfolding(crate::specs::Commands::slice_in))]
fn read_slice(alloc: Global, body: &Value) -> Result<u32, PropFault>
    ensures { Reads result (slice_in (view body.now)) }
{
    read_short_number(alloc, body, "slice")
}

#[tactic(auto, unfolding(crate::specs::Commands::tolerance_in))]
fn read_tolerance(alloc: Global, body: &Value) -> Result<u32, PropFault>
    ensures { Reads result (tolerance_in (view body.now)) }
{
    read_short_number(alloc, body, "bot_ping_tolerance_secs")
}

#[tactic(auto, unfolding(crate::specs::Commands::run_in))]
fn read_run(alloc: Global, body: Value) -> Result<Told, PropFault>
    ensures { Reads result (run_in (view body)) }
{
    check_run_keys(alloc, &body)?;
    let id = read_named_run(alloc, &body)?;
    let place = read_place(alloc, &[Some(id.place)])?;
    let slice = read_slice(alloc, &body)?;
    let tolerance = read_tolerance(alloc, &body)?;
    let properties = take_properties(alloc, body)?;
    let (task, try_no) = id.run;
    Ok(Told::Good {
        place,
        reply: Reply::Run {
            task,
            try_no,
            slice,
            tolerance,
            properties,
        },
        bytes: Seq::new(alloc),
    })
}

fn read_skip(alloc: Global, body: &Value) -> Result<Told, PropFault>
    ensures { Reads result (skip (view body.now)) }
{
    check_keys(alloc, body, &["cmd"])?;
    Ok(Told::Good {
        place: 0,
        reply: Reply::Skip,
        bytes: Seq::new(alloc),
    })
}

/// What a bot that asked for a task is told. The texts of its run are those of the body, which are
/// not copied.
#[tactic(auto, unfolding(crate::specs::Commands::claimed_in))]
pub(crate) fn read_claimed(alloc: Global, body: Value) -> Result<Told, PropFault>
    ensures { Reads result (claimed_in (view body)) }
{
    match read_required_text(alloc, &body, "cmd")? {
        "run" => read_run(alloc, body),
        "skip" => read_skip(alloc, &body),
        _ => Err(broken(alloc, "cmd", PropRule::Grammar)),
    }
}
