//! The lines of a keeper, taken up one after another.
ghost use Rattle.std.specs.Prelude.{◌≡◌, ◌≢◌, ◌≤◌, ◌+◌, ℕ, [], true, false, None, IsTrue, IfOk, OnOk, IfErr, IfSome, IsErrOf, slice_get, length};
ghost use Rattle.sw_base.specs.Faults.{Rose};
ghost use Rattle.swarm_model.specs.MachineState.{IsHistory};
ghost use Rattle.pool_loading.specs.declared.store_part.StorePart.{StorePart};
ghost use Rattle.pool_loading.specs.Lines.{AddsLine, AreAll, HoldsNothing, IsRefusedOf, IsReplay, Refuses};

use crate::StorePart;
use crate::adding::{LineStop, add_line};
use crate::loading::LoadStop;
use dimensions::Text;
use std::alloc::Global;
use swarm_keeper::{Keeper, KeeperFault};
use swarm_model::{Machine, PoolSettings};

fn line_at<K: Keeper>(keeper: &mut K, at: u64) -> Result<Option<Text>, LoadStop>
    ensures line { IfOk result (λ line. IfSome (K.tables keeper.old) (λ t. line ≡ slice_get t.lines at)) }
    ensures stays { K.tables keeper.new ≡ K.tables keeper.old }
    ensures grows { K.faults keeper.old ≤ K.faults keeper.new }
    ensures failed { IsErrOf result LoadStop.Failed → Rose (K.faults keeper.old) (K.faults keeper.new) }
    ensures not_refused { IfErr result (λ stop. (part : StorePart) (at : ℕ) → stop ≢ LoadStop.Refused part at) }
    ensures sure_none { IsTrue K.SURE → IfOk result (λ line. line ≡ None) }
    ensures sure { IsTrue K.SURE → IfErr result (λ stop. stop ≡ LoadStop.Memory) }
{
    match keeper.line(at) {
        Ok(line) => Ok(line),
        Err(KeeperFault::Memory) => Err(LoadStop::Memory),
        Err(KeeperFault::Failed) => Err(LoadStop::Failed),
    }
}

/// How many lines a machine has taken up: the length of its log without the entries that led to its
/// base.
pub(crate) fn line_count<M: Machine>(machine: &M) -> u64
    ensures { result ≡ length (M.kept machine.now).log }
{
    machine.length() - machine.count()
}

fn add_at<M: Machine>(
    alloc: Global,
    machine: &mut M,
    settings: &PoolSettings,
    line: &str,
    at: u64,
) -> Result<(), LoadStop>
    requires settings { settings.now ≡ (M.kept machine.old).pool.settings }
    requires history { IsHistory (M.kept machine.old) }
    requires nothing { HoldsNothing (M.kept machine.old) }
    ensures adds { OnOk result (AddsLine line.now (M.kept machine.old) (M.kept machine.new)) }
    ensures refused { IfErr result (λ stop. (part : StorePart) (place : ℕ) → stop ≡ LoadStop.Refused part place → (part ≡ StorePart.Lines) × (place ≡ at) × Refuses line.now (M.kept machine.old)) }
    ensures not_failed { IfErr result (λ stop. stop ≢ LoadStop.Failed) }
{
    match add_line(alloc, machine, settings, line) {
        Ok(()) => Ok(()),
        Err(LineStop::Memory) => Err(LoadStop::Memory),
        Err(LineStop::Refused) => Err(LoadStop::Refused {
            part: StorePart::Lines,
            at,
        }),
    }
}

/// Takes up the next line, where there is one.
#[tactic(auto, using(crate::proofs::Replays::replay_more, crate::proofs::Replays::replay_all))]
fn load_next<M: Machine, K: Keeper>(
    alloc: Global,
    machine: &mut M,
    settings: &PoolSettings,
    keeper: &mut K,
) -> Result<bool, LoadStop>
    requires { IsReplay settings.now (K.tables keeper.old) (M.kept machine.old) }
    ensures replay { OnOk result (IsReplay settings.now (K.tables keeper.old) (M.kept machine.new)) }
    ensures more { IfOk result (λ more. more ≡ true → length (M.kept machine.new).log ≡ length (M.kept machine.old).log + 1) }
    ensures over { IfOk result (λ more. more ≡ false → (M.kept machine.new).log ≡ (M.kept machine.old).log) }
    ensures start { OnOk result ((M.kept machine.new).start ≡ (M.kept machine.old).start) }
    ensures all { IfOk result (λ more. more ≡ false → AreAll (K.tables keeper.old) (M.kept machine.new).log) }
    ensures refused { IfErr result (λ stop. (part : StorePart) (at : ℕ) → stop ≡ LoadStop.Refused part at → IsRefusedOf settings.now (K.tables keeper.old) part at) }
    ensures failed { IsErrOf result LoadStop.Failed → Rose (K.faults keeper.old) (K.faults keeper.new) }
    ensures sure_over { IsTrue K.SURE → IfOk result (λ more. more ≡ false) }
    ensures sure { IsTrue K.SURE → IfErr result (λ stop. stop ≡ LoadStop.Memory) }
    ensures stays { K.tables keeper.new ≡ K.tables keeper.old }
    ensures grows { K.faults keeper.old ≤ K.faults keeper.new }
{
    let at = line_count(machine);
    match line_at(keeper, at)? {
        None => Ok(false),
        Some(line) => {
            add_at(alloc, machine, settings, line.as_str(), at)?;
            Ok(true)
        }
    }
}

/// Takes up the lines of a keeper into a machine on their base, in order, up to the first that is
/// refused.
pub(crate) fn load_lines<M: Machine, K: Keeper>(
    alloc: Global,
    machine: &mut M,
    settings: &PoolSettings,
    keeper: &mut K,
) -> Result<(), LoadStop>
    requires replay { IsReplay settings.now (K.tables keeper.old) (M.kept machine.old) }
    requires new { (M.kept machine.old).log ≡ [] }
    ensures replay { OnOk result (IsReplay settings.now (K.tables keeper.old) (M.kept machine.new)) }
    ensures all { OnOk result (AreAll (K.tables keeper.old) (M.kept machine.new).log) }
    ensures start { OnOk result ((M.kept machine.new).start ≡ (M.kept machine.old).start) }
    ensures none { IsTrue K.SURE → OnOk result ((M.kept machine.new).log ≡ []) }
    ensures refused { IfErr result (λ stop. (part : StorePart) (at : ℕ) → stop ≡ LoadStop.Refused part at → IsRefusedOf settings.now (K.tables keeper.old) part at) }
    ensures failed { IsErrOf result LoadStop.Failed → Rose (K.faults keeper.old) (K.faults keeper.new) }
    ensures sure { IsTrue K.SURE → IfErr result (λ stop. stop ≡ LoadStop.Memory) }
    ensures stays { K.tables keeper.new ≡ K.tables keeper.old }
    ensures grows { K.faults keeper.old ≤ K.faults keeper.new }
{
    let mut more = true;
    while more {
        more = load_next(alloc, machine, settings, keeper)?;
    }
    Ok(())
}
