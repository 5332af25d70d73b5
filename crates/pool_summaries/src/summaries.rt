//! The lines that are printed of pools.
ghost use Rattle.std.specs.Prelude.{◌≡◌, ◌<◌, ◌^◌, ◌++◌, map, sum_by, IfOk, OnOk, string_bytes, slice_index_or, []};
ghost use Rattle.swarm_model.specs.Bases.{Base};
ghost use Rattle.pool_summaries.specs.Summaries.{pool_line, count_at, count_line, count_lines, front_line, told_of, all_told, summary_of, fronts_of};

use std::alloc::{AllocError, Global};
use swarm_model::{Machine, PoolSettings, STATES, TaskState};

#[tactic(auto, unfolding(crate::specs::Summaries::pool_line))]
fn write_pool_line(
    text: &mut String,
    name: &str,
    entries: u64,
    accepted: u64,
) -> Result<(), AllocError>
    ensures { OnOk result (string_bytes text.new ≡ string_bytes text.old ++ pool_line name.now entries accepted) }
{
    write!(text, "pool {name} entries {entries} accepted {accepted}\n")
}

#[tactic(auto, unfolding(crate::specs::Summaries::front_line))]
fn write_front_line(
    text: &mut String,
    name: &str,
    entries: u64,
    tasks: u64,
) -> Result<(), AllocError>
    ensures { OnOk result (string_bytes text.new ≡ string_bytes text.old ++ front_line name.now entries tasks) }
{
    write!(text, "pool {name} front {entries} tasks {tasks}\n")
}

#[tactic(auto, unfolding(crate::specs::Summaries::count_line))]
fn write_count_line(text: &mut String, state: TaskState, count: u64) -> Result<(), AllocError>
    ensures { OnOk result (string_bytes text.new ≡ string_bytes text.old ++ count_line state count) }
{
    let name = state.name();
    write!(text, "{name} {count}\n")
}

/// The count of a state.
fn count_of(counts: &[u64; 9], state: TaskState) -> u64
    ensures { result ≡ count_at counts.now state }
{
    counts[state.place() as usize]
}

fn write_count_lines(text: &mut String, counts: &[u64; 9]) -> Result<(), AllocError>
    ensures { OnOk result (string_bytes text.new ≡ string_bytes text.old ++ count_lines counts.now) }
{
    for state in &STATES {
        write_count_line(text, *state, count_of(counts, *state))?;
    }
    Ok(())
}

fn write_summary(
    text: &mut String,
    name: &str,
    entries: u64,
    accepted: u64,
    counts: &[u64; 9],
) -> Result<(), AllocError>
    ensures { OnOk result (string_bytes text.new ≡ string_bytes text.old ++ (pool_line name.now entries accepted ++ count_lines counts.now)) }
{
    write_pool_line(text, name, entries, accepted)?;
    write_count_lines(text, counts)
}

/// The sum of the counts.
fn total(counts: &[u64; 9]) -> u64
    requires { sum_by (λ count. count) counts.now < 2 ^ 64 }
    ensures { result ≡ sum_by (λ count. count) counts.now }
{
    let mut total: u64 = 0;
    for count in counts {
        total += *count;
    }
    total
}

/// What is told of a pool.
#[derive(Clone, Copy, Debug, PartialEq, Eq)]
enum Report {
    Summary,
    Front,
}

/// Adds what is told of one pool.
fn write_told<M: Machine>(
    text: &mut String,
    what: Report,
    pool: &PoolSettings,
    machine: &M,
) -> Result<(), AllocError>
    requires settings { (M.kept machine.now).pool.settings ≡ pool.now }
    ensures { OnOk result (string_bytes text.new ≡ string_bytes text.old ++ told_of what pool.now (M.kept machine.now).start (M.kept machine.now).log) }
{
    // For the proof: the base has at most so many tasks, and the log so many entries.
    let _most_tasks = pool.most_tasks;
    let _most_entries = pool.most_entries;
    let entries = machine.length();
    let counts = machine.tally();
    let tasks = total(&counts);
    let name = pool.name.as_str();
    match what {
        Report::Summary => write_summary(text, name, entries, tasks, &counts),
        Report::Front => write_front_line(text, name, entries, tasks),
    }
}

/// What is told of the pools, of each of which a machine has the rows and the log, in their order.
fn tell_pools<M: Machine>(
    alloc: Global,
    what: Report,
    pools: &[PoolSettings],
    machines: &[M],
) -> Result<String, AllocError>
    requires { map (λ m. m.pool.settings) (map M.kept machines.now) ≡ pools.now }
    ensures { IfOk result (λ text. (none : Base) → string_bytes text ≡ all_told what pools.now
        (λ place. slice_index_or (map (λ m. m.start) (map M.kept machines.now)) place none)
        (λ place. slice_index_or (map (λ m. m.log) (map M.kept machines.now)) place [])) }
{
    let mut text = String::new(alloc);
    for place in 0..pools.len() {
        write_told(&mut text, what, &pools[place], &machines[place])?;
    }
    Ok(text)
}

/// The summary of the pools, of each of which a machine has the rows and the log, in their order.
pub fn summary<M: Machine>(
    alloc: Global,
    pools: &[PoolSettings],
    machines: &[M],
) -> Result<String, AllocError>
    requires { map (λ m. m.pool.settings) (map M.kept machines.now) ≡ pools.now }
    ensures { IfOk result (λ text. (none : Base) → string_bytes text ≡ summary_of pools.now
        (λ place. slice_index_or (map (λ m. m.start) (map M.kept machines.now)) place none)
        (λ place. slice_index_or (map (λ m. m.log) (map M.kept machines.now)) place [])) }
{
    tell_pools(alloc, Report::Summary, pools, machines)
}

/// The front of each pool and how many tasks it has, a line for each pool, in their order.
pub fn fronts<M: Machine>(
    alloc: Global,
    pools: &[PoolSettings],
    machines: &[M],
) -> Result<String, AllocError>
    requires { map (λ m. m.pool.settings) (map M.kept machines.now) ≡ pools.now }
    ensures { IfOk result (λ text. (none : Base) → string_bytes text ≡ fronts_of pools.now
        (λ place. slice_index_or (map (λ m. m.start) (map M.kept machines.now)) place none)
        (λ place. slice_index_or (map (λ m. m.log) (map M.kept machines.now)) place [])) }
{
    tell_pools(alloc, Report::Front, pools, machines)
}
