//! The rows of a base, read from the lines of a keeper one after another.
ghost use Rattle.std.specs.Prelude.{◌≡◌, ◌≢◌, ◌≤◌, ◌+◌, ℕ, true, false, Some, None, IsTrue, IfOk, OnOk, IfErr, IfSome, IsErrOf, slice_get};
ghost use Rattle.sw_base.specs.Faults.{Rose};
ghost use Rattle.base_lines.specs.Reading.{nothing_read, with_line, lines_in, most_lines, AreRead};
ghost use Rattle.pool_loading.specs.declared.store_part.StorePart.{StorePart};
ghost use Rattle.pool_loading.specs.Bases.{AreReadTo, AreOfAll, IsNoneOfItsPlace};

use crate::StorePart;
use crate::loading::LoadStop;
use base_lines::BaseRows;
use dimensions::Text;
use entry_lines::LineFault;
use std::alloc::Global;
use swarm_keeper::{Keeper, KeeperFault};

fn base_line_at<K: Keeper>(keeper: &mut K, at: u64) -> Result<Option<Text>, LoadStop>
    ensures line { IfOk result (λ line. IfSome (K.tables keeper.old) (λ t. line ≡ slice_get t.base at)) }
    ensures stays { K.tables keeper.new ≡ K.tables keeper.old }
    ensures grows { K.faults keeper.old ≤ K.faults keeper.new }
    ensures failed { IsErrOf result LoadStop.Failed → Rose (K.faults keeper.old) (K.faults keeper.new) }
    ensures not_refused { IfErr result (λ stop. (part : StorePart) (at : ℕ) → stop ≢ LoadStop.Refused part at) }
    ensures sure_none { IsTrue K.SURE → IfOk result (λ line. line ≡ None) }
    ensures sure { IsTrue K.SURE → IfErr result (λ stop. stop ≡ LoadStop.Memory) }
{
    match keeper.base_line(at) {
        Ok(line) => Ok(line),
        Err(KeeperFault::Memory) => Err(LoadStop::Memory),
        Err(KeeperFault::Failed) => Err(LoadStop::Failed),
    }
}

/// Adds the row of the line at this place.
fn add_row(alloc: Global, rows: &mut BaseRows, line: &str, at: u64) -> Result<(), LoadStop>
    ensures adds { OnOk result (with_line rows.old line.now ≡ Some rows.new) }
    ensures counted { OnOk result (lines_in rows.new ≡ lines_in rows.old + 1) }
    ensures read { AreRead rows.old → AreRead rows.new }
    ensures few { AreRead rows.old → lines_in rows.new ≤ most_lines }
    ensures refused { IfErr result (λ stop. (part : StorePart) (place : ℕ) → stop ≡ LoadStop.Refused part place → (part ≡ StorePart.Base) × (place ≡ at) × (with_line rows.old line.now ≡ None)) }
    ensures not_failed { IfErr result (λ stop. stop ≢ LoadStop.Failed) }
{
    match rows.add_line(alloc, line) {
        Ok(()) => Ok(()),
        Err(LineFault::Memory) => Err(LoadStop::Memory),
        Err(LineFault::NotALine) => Err(LoadStop::Refused {
            part: StorePart::Base,
            at,
        }),
    }
}

/// Reads the next line, where there is one.
#[tactic(auto, using(crate::proofs::Bases::read_all))]
fn read_next<K: Keeper>(
    alloc: Global,
    rows: &mut BaseRows,
    keeper: &mut K,
) -> Result<bool, LoadStop>
    requires { AreReadTo (K.tables keeper.old) rows.old }
    ensures read { OnOk result (AreReadTo (K.tables keeper.old) rows.new) }
    ensures more { IfOk result (λ more. more ≡ true → lines_in rows.new ≡ lines_in rows.old + 1) }
    ensures few { IfOk result (λ more. more ≡ true → lines_in rows.new ≤ most_lines) }
    ensures over { IfOk result (λ more. more ≡ false → rows.new ≡ rows.old) }
    ensures all { IfOk result (λ more. more ≡ false → IfSome (K.tables keeper.old) (AreOfAll rows.new)) }
    ensures refused { IfErr result (λ stop. (part : StorePart) (at : ℕ) → stop ≡ LoadStop.Refused part at → (part ≡ StorePart.Base) × IsNoneOfItsPlace (K.tables keeper.old) at) }
    ensures failed { IsErrOf result LoadStop.Failed → Rose (K.faults keeper.old) (K.faults keeper.new) }
    ensures sure_over { IsTrue K.SURE → IfOk result (λ more. more ≡ false) }
    ensures sure { IsTrue K.SURE → IfErr result (λ stop. stop ≡ LoadStop.Memory) }
    ensures stays { K.tables keeper.new ≡ K.tables keeper.old }
    ensures grows { K.faults keeper.old ≤ K.faults keeper.new }
{
    let at = rows.line_count();
    match base_line_at(keeper, at)? {
        None => Ok(false),
        Some(line) => {
            add_row(alloc, rows, line.as_str(), at)?;
            Ok(true)
        }
    }
}

/// The rows that the lines of the base tell, read in order up to the first that is none of its place.
pub(crate) fn read_base<K: Keeper>(alloc: Global, keeper: &mut K) -> Result<BaseRows, LoadStop>
    ensures read { IfOk result AreRead }
    ensures all { IfOk result (λ rows. IfSome (K.tables keeper.old) (AreOfAll rows)) }
    ensures none { IsTrue K.SURE → IfOk result (λ rows. rows ≡ nothing_read) }
    ensures refused { IfErr result (λ stop. (part : StorePart) (at : ℕ) → stop ≡ LoadStop.Refused part at → (part ≡ StorePart.Base) × IsNoneOfItsPlace (K.tables keeper.old) at) }
    ensures failed { IsErrOf result LoadStop.Failed → Rose (K.faults keeper.old) (K.faults keeper.new) }
    ensures sure { IsTrue K.SURE → IfErr result (λ stop. stop ≡ LoadStop.Memory) }
    ensures stays { K.tables keeper.new ≡ K.tables keeper.old }
    ensures grows { K.faults keeper.old ≤ K.faults keeper.new }
{
    let mut rows = BaseRows::new(alloc);
    let mut more = true;
    while more {
        more = read_next(alloc, &mut rows, keeper)?;
    }
    Ok(rows)
}
