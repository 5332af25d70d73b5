//! What the store of a run keeps of pools: it is put there before the run, and compared behind it.

use dimensions::Text;
use std::alloc::{AllocError, Global};
use sw_base::StartFault;
use swarm_keeper::{Keeper, KeeperFault, MemoryKeeper, MemoryStore, Store};
use test_transcript_reader::{
    PoolRecords, Transcript, TranscriptError, compare_begun_records, compare_records,
};

fn keeper_error(line: usize, fault: KeeperFault) -> TranscriptError {
    match fault {
        KeeperFault::Memory => TranscriptError::Memory,
        KeeperFault::Failed => TranscriptError::Store { line },
    }
}

fn start_error(line: usize, fault: StartFault) -> TranscriptError {
    match fault {
        StartFault::Memory => TranscriptError::Memory,
        StartFault::Failed => TranscriptError::Store { line },
    }
}

fn texts_of(alloc: Global, lines: &[String]) -> Result<Vec<Text>, AllocError> {
    let mut texts = Vec::new(alloc);
    for line in lines {
        texts.push(Text::from_str(alloc, line.as_str())?)?;
    }
    Ok(texts)
}

/// Gives a keeper other records.
fn put_records(
    alloc: Global,
    keeper: &mut MemoryKeeper,
    records: &PoolRecords,
) -> Result<(), KeeperFault> {
    let base = texts_of(alloc, records.base.as_slice())?;
    keeper.replace(base.as_slice(), records.count)?;
    for line in records.lines.iter() {
        keeper.append(line.as_str(), None, &[], None)?;
    }
    Ok(())
}

/// The records that a keeper has.
fn records_of(
    alloc: Global,
    keeper: &mut MemoryKeeper,
    wanted: &PoolRecords,
) -> Result<PoolRecords, KeeperFault> {
    let folder = wanted.folder.as_str();
    let pool = wanted.pool.as_str();
    let count = keeper.count()?;
    let mut records = PoolRecords::new(alloc, wanted.line, folder, pool, count)?;
    for at in 0..u64::MAX {
        let Some(line) = keeper.base_line(at)? else {
            break;
        };
        records.base.push(String::from_str(alloc, line.as_str())?)?;
    }
    for at in 0..u64::MAX {
        let Some(line) = keeper.line(at)? else {
            break;
        };
        records.lines.push(String::from_str(alloc, line.as_str())?)?;
    }
    Ok(records)
}

/// Gives the store other records of a pool.
fn put_pool(
    alloc: Global,
    store: &mut MemoryStore,
    records: &PoolRecords,
) -> Result<(), TranscriptError> {
    let folder = records.folder.as_str();
    let pool = records.pool.as_str();
    match store.attach(alloc, folder, pool) {
        Ok(mut keeper) => {
            let result = put_records(alloc, &mut keeper, records);
            store.detach(folder, pool, keeper);
            match result {
                Ok(()) => Ok(()),
                Err(fault) => Err(keeper_error(records.line, fault)),
            }
        }
        Err(fault) => Err(start_error(records.line, fault)),
    }
}

/// What the store keeps of a pool.
fn kept_of(
    alloc: Global,
    store: &mut MemoryStore,
    wanted: &PoolRecords,
) -> Result<PoolRecords, TranscriptError> {
    let folder = wanted.folder.as_str();
    let pool = wanted.pool.as_str();
    match store.attach(alloc, folder, pool) {
        Ok(mut keeper) => {
            let result = records_of(alloc, &mut keeper, wanted);
            store.detach(folder, pool, keeper);
            match result {
                Ok(came) => Ok(came),
                Err(fault) => Err(keeper_error(wanted.line, fault)),
            }
        }
        Err(fault) => Err(start_error(wanted.line, fault)),
    }
}

/// Cuts a line by its last byte, the one of this number among those of the base and then of the log, and
/// answers what a start over these records tells of it, where they are those of the first pool.
fn cut_line(
    alloc: Global,
    records: &mut PoolRecords,
    number: usize,
) -> Result<Option<String>, AllocError> {
    if let Some(line) = records.base.get_mut(number) {
        line.pop();
        return Ok(Some(format!(in alloc; "store 0 base {number}\n")?));
    }
    let number = number.saturating_sub(records.base.len());
    if let Some(line) = records.lines.get_mut(number) {
        line.pop();
        return Ok(Some(format!(in alloc; "store 0 {number}\n")?));
    }
    Ok(None)
}

/// Gives the store the first records that a transcript puts there, with the line of this number cut. It
/// answers what a start tells of that, where there is such a line.
pub(crate) fn put_cut(
    alloc: Global,
    transcript: &Transcript,
    number: usize,
    store: &mut MemoryStore,
) -> Result<Option<String>, TranscriptError> {
    let Some(records) = transcript.records_before.first() else {
        return Ok(None);
    };
    let mut cut = records.first(alloc, records.lines.len())?;
    let told = cut_line(alloc, &mut cut, number)?;
    if told.is_some() {
        put_pool(alloc, store, &cut)?;
    }
    Ok(told)
}

/// Gives the store what a transcript puts there before its run.
pub(crate) fn put_before(
    alloc: Global,
    transcript: &Transcript,
    store: &mut MemoryStore,
) -> Result<(), TranscriptError> {
    for records in transcript.records_before.iter() {
        put_pool(alloc, store, records)?;
    }
    Ok(())
}

/// Compares what the store keeps behind the run of a transcript.
pub(crate) fn compare_behind(
    alloc: Global,
    transcript: &Transcript,
    store: &mut MemoryStore,
) -> Result<(), TranscriptError> {
    for records in transcript.records_after.iter() {
        compare_records(alloc, records, &kept_of(alloc, store, records)?)?;
    }
    Ok(())
}

/// Compares what the store keeps behind the run of a transcript in which so many replies were begun.
pub(crate) fn compare_begun_behind(
    alloc: Global,
    transcript: &Transcript,
    begun: usize,
    store: &mut MemoryStore,
) -> Result<(), TranscriptError> {
    let replies = transcript.console.replies.len();
    for records in transcript.records_after.iter() {
        let came = kept_of(alloc, store, records)?;
        compare_begun_records(alloc, records, &came, replies, begun)?;
    }
    Ok(())
}
