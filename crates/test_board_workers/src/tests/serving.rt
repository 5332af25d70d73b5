//! Workers and boards that serve links in memory, and what they are asked.
ghost use Rattle.std.specs.Prelude.{◌≤◌, length, map, IfOk, IsTrue};
ghost use Rattle.swarm_model.specs.Settings.{are_settings};

use board_workers::{BoardPlan, serve_with_boards};
use std::alloc::{AllocError, Global};
use std::marker::Send;
use std::sync::Wait;
use std::thread::Threads;
use sw_base::{Listener, StartFault, StepClock};
use swarm_http::Clock;
use swarm_keeper::NoKeeper;
use swarm_machine::Pool;
use swarm_model::{Machine, Settings};
use swarm_workers::WorkStop;
use test_sessions::no_keepers;

/// A clock whose moment stays, so that no deadline comes.
const STILL: StepClock = StepClock {
    at: 1000,
    step: 0,
    waited: 0,
};

/// Adds a request with its head.
fn push_request(text: &mut String, target: &str, body: &str) -> Result<(), AllocError> {
    let size = body.len();
    write!(
        text,
        "POST {target} HTTP/1.1\r\nX-Swarming-Caller: ana\r\nContent-Length: {size}\r\n\r\n{body}"
    )
}

/// Adds a request for a task. One that doesn't wait ends at once, since there is no bot.
pub fn push_task(text: &mut String, waits: bool) -> Result<(), AllocError> {
    let body = if waits {
        r#"{"task_slices":[{"expiration_secs":600,"wait_for_capacity":true,"properties":{"command":["true"],"dimensions":[{"key":"pool","value":"default"}]}}]}"#
    } else {
        r#"{"task_slices":[{"expiration_secs":600,"wait_for_capacity":false,"properties":{"command":["true"],"dimensions":[{"key":"pool","value":"default"}]}}]}"#
    };
    push_request(text, "/prpc/swarming.v2.Tasks/NewTask", body)
}

/// Adds a request for the number of tasks: of all, or of those that are pending.
pub fn push_count(text: &mut String, is_pending: bool) -> Result<(), AllocError> {
    let body = if is_pending {
        r#"{"pool":"default","state":"PENDING"}"#
    } else {
        r#"{"pool":"default"}"#
    };
    push_request(text, "/prpc/swarming.v2.Tasks/CountTasks", body)
}

/// Has so many workers, and as many boards, serve all links of the listener.
pub fn serve_all<R: Threads + Wait + Sync, P: Clock + Drop + Send, N: Listener>(
    rt: &R,
    alloc: Global,
    settings: &Settings,
    number: u32,
    board_clock: P,
    listener: &mut N,
) -> Result<(WorkStop, Vec<Pool>), StartFault>
    requires rules { IsTrue (are_settings settings.now) }
    requires number { (1 ≤ number) × (number ≤ 8) }
{
    let keepers = no_keepers(alloc, settings.pools.as_slice())?;
    let plan = BoardPlan {
        boards: number,
        connections: 1000,
        every: 1,
        rounds: 1_000_000,
    };
    serve_with_boards::<Pool, NoKeeper, R, StepClock, P, N>(
        rt,
        alloc,
        settings,
        keepers,
        "workers",
        number,
        1000,
        &STILL,
        "boards",
        plan,
        board_clock,
        listener,
    )
}
