//! A session that is made from a number.
ghost use Rattle.std.specs.Prelude.{◌≡◌, ◌≤◌, ℕ, map, length, IfOk, IsTrue, string_bytes};
ghost use Rattle.drill_requests.specs.Texts.{drill_bytes};
ghost use Rattle.swarm_model.specs.Settings.{are_settings};
ghost use Rattle.swarm_history.specs.Machines.{logs_of, pools_of, start_at, starts_of};
ghost use Rattle.pool_summaries.specs.Summaries.{summary_of};
ghost use Rattle.remote_commands.specs.Streams.{PrintsMade};
ghost use Rattle.swarm_cli.specs.Drills.{Drills, drill_settings as spec_drill_settings, drill_status, drill_text};

use crate::serving::no_keepers;
use crate::telling::summary_of_machines;
use dimensions::Seq;
use drill_requests::drill_input;
use link_writer::print;
use std::alloc::{AllocError, Global};
use sw_base::{MemoryLink, StepClock};
use swarm_history::PlainDoor;
use swarm_http::{ConnectionCounts, Ended, Link, RequestReader, counted_session};
use swarm_keeper::NoKeeper;
use swarm_machine::Pool;
use swarm_model::{Machine, PoolSettings, Settings};
use swarm_policy::open_settings;

// The most bytes that a call on the link in memory moves.
const PIECE: usize = 65536;

fn drill_settings(alloc: Global) -> Result<Settings, AllocError>
    ensures exact { IfOk result (λ settings. settings ≡ spec_drill_settings) }
    ensures keeps_rules { IfOk result (λ settings. IsTrue (are_settings settings)) }
{
    let settings = open_settings(alloc)?;
    let mut pools = settings.pools.into_vec();
    pools[0].death_timeout_secs = 604_800;
    Ok(Settings {
        store: settings.store,
        pools: Seq::from_vec(pools),
    })
}

fn drill_status(ended: Ended) -> u8
    ensures { result ≡ drill_status ended }
{
    match ended {
        Ended::Closed | Ended::LastAsked | Ended::Retired => 0,
        Ended::ReadFault | Ended::WriteFault => 5,
        Ended::CutShort | Ended::BadHead => 7,
    }
}

#[tactic(auto, unfolding(crate::specs::Drills::drill_text))]
fn text_of(alloc: Global, requests: u32, accepted: u32, summary: &str) -> Result<String, AllocError>
    requires { accepted ≤ requests }
    ensures { IfOk result (λ text. string_bytes text ≡ drill_text requests accepted summary.now) }
{
    let refused = requests - accepted;
    format!(in alloc; "requests {requests} ok {accepted} refused {refused}\n{summary}")
}

fn drill_lines<M: Machine>(
    alloc: Global,
    pools: &[PoolSettings],
    machines: &[M],
    counted: &ConnectionCounts,
) -> Result<String, AllocError>
    requires pools { pools_of (map M.kept machines.now) ≡ pools.now }
    requires few { counted.now.accepted ≤ counted.now.requests }
    ensures { IfOk result (λ text. string_bytes text ≡ drill_text counted.now.requests counted.now.accepted (summary_of pools.now (start_at (starts_of (map M.kept machines.now))) (logs_of (map M.kept machines.now)))) }
{
    let summary = summary_of_machines(alloc, pools, machines)?;
    text_of(alloc, counted.requests, counted.accepted, summary.as_str())
}

fn print_drill<L: Link, M: Machine>(
    alloc: Global,
    pools: &[PoolSettings],
    machines: &[M],
    console: &mut L,
    counted: &ConnectionCounts,
) -> u8
    requires pools { pools_of (map M.kept machines.now) ≡ pools.now }
    requires few { counted.now.accepted ≤ counted.now.requests }
    ensures { PrintsMade (drill_text counted.now.requests counted.now.accepted (summary_of pools.now (start_at (starts_of (map M.kept machines.now))) (logs_of (map M.kept machines.now)))) (drill_status counted.now.ended)
        (L.state console.old) (L.state console.new) result }
{
    match drill_lines(alloc, pools, machines, counted) {
        Ok(text) => print(console, text.as_bytes(), drill_status(counted.ended)),
        Err(_) => 5,
    }
}

/// Serves the bytes over a door of these settings.
fn drill_over<L: Link>(
    alloc: Global,
    settings: &Settings,
    input: Vec<u8>,
    keepers: Vec<NoKeeper>,
    console: &mut L,
) -> u8
    requires exact { settings.now ≡ spec_drill_settings }
    requires rules { IsTrue (are_settings settings.now) }
    requires count { length keepers.items ≡ length settings.now.pools }
    ensures { (start cycles : ℕ) → input.items ≡ drill_bytes start cycles → Drills start cycles (L.state console.old) (L.state console.new) result }
{
    let Ok(mut reader) = RequestReader::new(alloc) else {
        return 5;
    };
    match PlainDoor::<Pool, NoKeeper>::new(alloc, settings, keepers) {
        Ok(mut door) => {
            let mut clock = StepClock {
                at: 1000,
                step: 1,
                waited: 0,
            };
            let mut link = MemoryLink::new(alloc, input, PIECE, Vec::new(alloc));
            let counted = counted_session(
                alloc,
                settings,
                &mut reader,
                &mut door,
                &mut clock,
                &mut link,
            );
            let (machines, _) = door.end();
            let pools = settings.pools.as_slice();
            print_drill(alloc, pools, &machines, console, &counted)
        }
        Err(_) => 5,
    }
}

/// Serves a session of so many cycles that is made from a number, and prints its counts and the
/// summary of its pool.
pub(crate) fn run_drill<L: Link>(alloc: Global, start: u32, cycles: u32, console: &mut L) -> u8
    ensures { Drills start cycles (L.state console.old) (L.state console.new) result }
{
    let Ok(settings) = drill_settings(alloc) else {
        return 5;
    };
    let Ok(input) = drill_input(alloc, start, cycles) else {
        return 5;
    };
    match no_keepers(alloc, settings.pools.as_slice()) {
        Ok(keepers) => drill_over(alloc, &settings, input, keepers, console),
        Err(_) => 5,
    }
}
