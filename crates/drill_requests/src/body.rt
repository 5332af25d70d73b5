//! The body of a request, JSON as in `docs/protocol.md`.
ghost use Rattle.std.specs.Prelude.{◌≡◌, ◌++◌, codes, IfOk, string_bytes};
ghost use Rattle.drill_requests.specs.Texts.{body, task_id, run_id, output, handshake_text, new_task_text, cancel_task_text, claim_text, final_update_text};

use crate::DrillRequest;
use base64::engine::general_purpose::STANDARD;
use std::alloc::{AllocError, Global};

/// What the run of a cycle's task writes, in base64.
fn output_of(alloc: Global, cycle: u32) -> Result<String, AllocError>
    ensures { IfOk result (λ text. string_bytes text ≡ output cycle) }
{
    let line = format!(in alloc; "cycle {cycle}\n")?;
    STANDARD.encode(alloc, line.as_bytes())
}

#[tactic(auto, unfolding(crate::specs::Texts::task_id))]
fn task_id_of(alloc: Global, cycle: u32) -> Result<String, AllocError>
    ensures { IfOk result (λ text. string_bytes text ≡ task_id cycle) }
{
    format!(in alloc; "{cycle:x}0")
}

#[tactic(auto, unfolding(crate::specs::Texts::run_id))]
fn run_id_of(alloc: Global, cycle: u32) -> Result<String, AllocError>
    ensures { IfOk result (λ text. string_bytes text ≡ run_id cycle) }
{
    format!(in alloc; "{cycle:x}1")
}

fn handshake_body(alloc: Global, bot: u32) -> Result<String, AllocError>
    ensures { IfOk result (λ text. string_bytes text ≡ handshake_text bot) }
{
    format!(in alloc;
        r#"{{"bot_id":"b{bot}","session":"s","dimensions":[{{"key":"pool","value":["default"]}},{{"key":"id","value":["b{bot}"]}}]}}"#
    )
}

fn new_task_body(alloc: Global, cycle: u32, priority: u32) -> Result<String, AllocError>
    ensures { IfOk result (λ text. string_bytes text ≡ new_task_text cycle priority) }
{
    format!(in alloc;
        r#"{{"name":"cycle {cycle}","priority":{priority},"task_slices":[{{"expiration_secs":600,"wait_for_capacity":true,"properties":{{"command":["true"],"dimensions":[{{"key":"pool","value":"default"}}]}}}}]}}"#
    )
}

fn cancel_task_body(alloc: Global, task: &str, kill_running: bool) -> Result<String, AllocError>
    ensures { IfOk result (λ text. string_bytes text ≡ cancel_task_text task.now kill_running) }
{
    format!(in alloc; r#"{{"task_id":"{task}","kill_running":{kill_running}}}"#)
}

fn claim_body(alloc: Global, bot: u32, cycle: u32) -> Result<String, AllocError>
    ensures { IfOk result (λ text. string_bytes text ≡ claim_text bot cycle) }
{
    format!(in alloc; r#"{{"pool":"default","bot_id":"b{bot}","claim_id":"c{cycle}"}}"#)
}

fn final_update_body(
    alloc: Global,
    bot: u32,
    run: &str,
    output: &str,
    exit_code: u32,
    hard_timeout: bool,
) -> Result<String, AllocError>
    ensures { IfOk result (λ text. string_bytes text ≡ final_update_text bot run.now output.now exit_code hard_timeout) }
{
    format!(in alloc;
        r#"{{"bot_id":"b{bot}","task_id":"{run}","output":"{output}","output_chunk_start":0,"exit_code":{exit_code},"duration_ms":1,"hard_timeout":{hard_timeout}}}"#
    )
}

/// The body of a request.
pub fn body_of(alloc: Global, request: DrillRequest) -> Result<String, AllocError>
    ensures { IfOk result (λ text. string_bytes text ≡ body request) }
{
    match request {
        DrillRequest::Handshake { bot } => handshake_body(alloc, bot),
        DrillRequest::NewTask { cycle, priority } => new_task_body(alloc, cycle, priority),
        DrillRequest::CancelTask {
            cycle,
            kill_running,
        } => {
            let task = task_id_of(alloc, cycle)?;
            cancel_task_body(alloc, task.as_str(), kill_running)
        }
        DrillRequest::Claim { bot, cycle } => claim_body(alloc, bot, cycle),
        DrillRequest::FinalUpdate {
            bot,
            cycle,
            exit_code,
            hard_timeout,
        } => {
            let run = run_id_of(alloc, cycle)?;
            let output = output_of(alloc, cycle)?;
            final_update_body(
                alloc,
                bot,
                run.as_str(),
                output.as_str(),
                exit_code,
                hard_timeout,
            )
        }
    }
}
