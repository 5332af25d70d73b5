//! What came is compared with what is wanted.
use crate::fault::{Fault, fault_at};
use std::alloc::Global;

/// The fault that something else came.
fn differs(alloc: Global, line: usize, wanted: &[u8], came: &[u8]) -> Result<(), Fault> {
    let wanted = String::from_utf8_lossy(alloc, wanted)?;
    let came = String::from_utf8_lossy(alloc, came)?;
    let wanted = wanted.as_str();
    let came = came.as_str();
    Err(fault_at(
        line,
        format!(in alloc; "`{wanted}` is wanted, and not `{came}`"),
    ))
}

pub(crate) fn check_bytes(
    alloc: Global,
    line: usize,
    wanted: &[u8],
    came: &[u8],
) -> Result<(), Fault> {
    if wanted == came {
        return Ok(());
    }
    differs(alloc, line, wanted, came)
}

pub(crate) fn check_number(
    alloc: Global,
    line: usize,
    wanted: u64,
    came: u64,
) -> Result<(), Fault> {
    if wanted == came {
        return Ok(());
    }
    Err(fault_at(
        line,
        format!(in alloc; "{wanted} is wanted, and not {came}"),
    ))
}

pub(crate) fn check_true(
    alloc: Global,
    line: usize,
    holds: bool,
    wanted: &'static str,
) -> Result<(), Fault> {
    if holds {
        return Ok(());
    }
    Err(fault_at(line, String::from_str(alloc, wanted)))
}
