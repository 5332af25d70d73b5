//! A machine on the base that a keeper has.
ghost use Rattle.std.specs.Prelude.{◌≡◌, ◌≢◌, ◌≤◌, ℕ, [], IsTrue, IfOk, IfErr, IfSome, IsErrOf};
ghost use Rattle.sw_base.specs.Faults.{Rose};
ghost use Rattle.swarm_model.specs.BaseRules.{IsBase};
ghost use Rattle.swarm_model.specs.Bases.{empty_base};
ghost use Rattle.swarm_model.specs.Settings.{keeps_rules};
ghost use Rattle.base_lines.specs.Reading.{lines_in, AreRead, base_of};
ghost use Rattle.pool_loading.specs.declared.store_part.StorePart.{StorePart};
ghost use Rattle.pool_loading.specs.Lines.{IsRefusedOf, IsReplay};

use crate::StorePart;
use crate::base_reading::read_base;
use crate::loading::LoadStop;
use base_checks::is_base;
use base_lines::BaseRows;
use dimensions::TryCopy;
use std::alloc::Global;
use swarm_keeper::{Keeper, KeeperFault};
use swarm_model::{Machine, PoolSettings, PoolState};

/// How many entries came before the base.
fn count_of<K: Keeper>(keeper: &mut K) -> Result<u64, LoadStop>
    ensures count { IfOk result (λ count. IfSome (K.tables keeper.old) (λ t. count ≡ t.count)) }
    ensures stays { K.tables keeper.new ≡ K.tables keeper.old }
    ensures grows { K.faults keeper.old ≤ K.faults keeper.new }
    ensures failed { IsErrOf result LoadStop.Failed → Rose (K.faults keeper.old) (K.faults keeper.new) }
    ensures not_refused { IfErr result (λ stop. (part : StorePart) (at : ℕ) → stop ≢ LoadStop.Refused part at) }
    ensures sure_none { IsTrue K.SURE → IfOk result (λ count. count ≡ 0) }
    ensures sure { IsTrue K.SURE → IfErr result (λ stop. stop ≡ LoadStop.Memory) }
{
    match keeper.count() {
        Ok(count) => Ok(count),
        Err(KeeperFault::Memory) => Err(LoadStop::Memory),
        Err(KeeperFault::Failed) => Err(LoadStop::Failed),
    }
}

/// The rows as those of a pool with these settings, where it may open from them after so many entries.
fn checked_base(
    alloc: Global,
    settings: &PoolSettings,
    rows: BaseRows,
    count: u64,
) -> Result<PoolState, LoadStop>
    requires { AreRead rows }
    ensures rows { IfOk result (λ base. base ≡ base_of settings.now rows) }
    ensures is_base { IfOk result (IsBase settings.now count) }
    ensures refused { IfErr result (λ stop. (part : StorePart) (at : ℕ) → stop ≡ LoadStop.Refused part at → (part ≡ StorePart.Base) × (at ≡ lines_in rows) × (IsBase settings.now count (base_of settings.now rows) → ⊥)) }
    ensures not_failed { IfErr result (λ stop. stop ≢ LoadStop.Failed) }
{
    let at = rows.line_count();
    let settings = settings.try_copy(alloc)?;
    let base = rows.into_pool(settings);
    if !is_base(alloc, &base, count)? {
        return Err(LoadStop::Refused {
            part: StorePart::Base,
            at,
        });
    }
    Ok(base)
}

/// A machine of these settings on the base that the keeper has, before the first line of its log.
pub(crate) fn open_machine<M: Machine + Drop, K: Keeper>(
    alloc: Global,
    settings: &PoolSettings,
    keeper: &mut K,
) -> Result<M, LoadStop>
    requires { IsTrue (keeps_rules settings.now) }
    ensures replay { IfOk result (λ machine. IsReplay settings.now (K.tables keeper.old) (M.kept machine)) }
    ensures new { IfOk result (λ machine. (M.kept machine).log ≡ []) }
    ensures empty { IsTrue K.SURE → IfOk result (λ machine. (M.kept machine).start ≡ empty_base settings.now) }
    ensures refused { IfErr result (λ stop. (part : StorePart) (at : ℕ) → stop ≡ LoadStop.Refused part at → IsRefusedOf settings.now (K.tables keeper.old) part at) }
    ensures failed { IsErrOf result LoadStop.Failed → Rose (K.faults keeper.old) (K.faults keeper.new) }
    ensures sure { IsTrue K.SURE → IfErr result (λ stop. stop ≡ LoadStop.Memory) }
    ensures stays { K.tables keeper.new ≡ K.tables keeper.old }
    ensures grows { K.faults keeper.old ≤ K.faults keeper.new }
{
    let rows = read_base(alloc, keeper)?;
    let count = count_of(keeper)?;
    let base = checked_base(alloc, settings, rows, count)?;
    let machine = M::of_rows(alloc, base, count)?;
    Ok(machine)
}
