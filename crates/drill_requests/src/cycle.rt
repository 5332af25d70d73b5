//! The requests of a cycle.
ghost use Rattle.std.specs.Prelude.{ℕ, ◌≡◌, ◌+◌, ◌++◌, ◌/◌, ◌%◌, ◌<◌, OnOk, length};
ghost use Rattle.drill_requests.specs.Draws.{value_after};
ghost use Rattle.drill_requests.specs.Requests.{run, killed_run, ending, cycle_from};

use crate::{Draws, DrillRequest};
use std::alloc::AllocError;

fn push_run(
    requests: &mut Vec<DrillRequest>,
    cycle: u32,
    bot: u32,
    exit_code: u32,
    hard_timeout: bool,
) -> Result<(), AllocError>
    ensures { OnOk result (requests.new.items ≡ requests.old.items ++ run cycle bot exit_code hard_timeout) }
{
    requests.push(DrillRequest::Claim { bot, cycle })?;
    requests.push(DrillRequest::FinalUpdate {
        bot,
        cycle,
        exit_code,
        hard_timeout,
    })?;
    Ok(())
}

fn push_killed_run(requests: &mut Vec<DrillRequest>, cycle: u32, bot: u32) -> Result<(), AllocError>
    ensures { OnOk result (requests.new.items ≡ requests.old.items ++ killed_run cycle bot) }
{
    requests.push(DrillRequest::Claim { bot, cycle })?;
    requests.push(DrillRequest::CancelTask {
        cycle,
        kill_running: true,
    })?;
    requests.push(DrillRequest::FinalUpdate {
        bot,
        cycle,
        exit_code: 0,
        hard_timeout: false,
    })?;
    Ok(())
}

fn push_ending(
    requests: &mut Vec<DrillRequest>,
    cycle: u32,
    bot: u32,
    way: u32,
) -> Result<(), AllocError>
    ensures { OnOk result (requests.new.items ≡ requests.old.items ++ ending cycle bot way) }
{
    if way == 0 {
        requests.push(DrillRequest::CancelTask {
            cycle,
            kill_running: false,
        })?;
        Ok(())
    } else if way == 1 {
        push_killed_run(requests, cycle, bot)
    } else if way == 2 {
        push_run(requests, cycle, bot, 137, true)
    } else {
        push_run(requests, cycle, bot, way - 3, false)
    }
}

/// Puts the requests of a cycle behind those that are there, by the next three numbers.
#[tactic(auto, unfolding(crate::specs::Draws::value_after, crate::specs::Requests::cycle_from))]
pub fn push_cycle(
    requests: &mut Vec<DrillRequest>,
    draws: &mut Draws,
    cycle: u32,
) -> Result<(), AllocError>
    ensures draws { OnOk result (draws.new.value ≡ value_after draws.old.value 3) }
    ensures requests { OnOk result (requests.new.items ≡ requests.old.items ++ cycle_from cycle draws.old.value) }
{
    let priority = draws.draw() % 256;
    let bot = draws.draw() % 8 + 1;
    let way = draws.draw() % 5;
    requests.push(DrillRequest::NewTask { cycle, priority })?;
    push_ending(requests, cycle, bot, way)
}

fn ending_length(way: u32) -> u64
    ensures count { (cycle bot : ℕ) → result ≡ length (ending cycle bot way) }
    ensures few { result < 4 }
{
    if way == 0 {
        1
    } else if way == 1 {
        3
    } else {
        2
    }
}

/// How many requests a cycle has, by the next three numbers.
#[tactic(auto, unfolding(crate::specs::Draws::value_after, crate::specs::Requests::cycle_from))]
pub fn cycle_length(draws: &mut Draws) -> u64
    ensures draws { draws.new.value ≡ value_after draws.old.value 3 }
    ensures count { (cycle : ℕ) → result ≡ length (cycle_from cycle draws.old.value) }
    ensures few { result < 5 }
{
    draws.draw();
    draws.draw();
    ending_length(draws.draw() % 5) + 1
}
