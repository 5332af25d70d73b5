//! One run of a transcript, over links, files, a store and a runner in memory.

use crate::failing_call::{FailingCall, with_one_more};
use crate::links::{dialer_of, listener_of};
use dimensions::TryCopy;
use runners::MemoryRunner;
use std::alloc::{AllocError, Global};
use std::collections::VecDeque;
use std::marker::Send;
use std::sync::Wait;
use std::thread::Threads;
use sw_base::{Clock, MemoryDialer, MemoryFiles, MemoryLink, MemoryListener};
use swarm_cli::run;
use swarm_keeper::MemoryStore;
use test_transcript_reader::Transcript;

/// How a run of a transcript is done.
#[derive(Clone, Copy)]
pub(crate) struct Manner {
    /// The size of the pieces in which its bytes come.
    pub(crate) piece: usize,
    pub(crate) failing: FailingCall,
    /// At most so many bytes come over the last link that is dialed, where it is a number.
    pub(crate) most: Option<usize>,
}

impl Manner {
    /// As the transcript says, but for the size of the pieces.
    pub(crate) fn in_pieces(piece: usize) -> Manner {
        Manner {
            piece,
            failing: FailingCall::NoCall,
            most: None,
        }
    }
}

/// What is left of a run.
#[derive(Drop)]
pub(crate) struct Ended {
    pub(crate) console: MemoryLink,
    pub(crate) listener: MemoryListener,
    pub(crate) dialer: MemoryDialer,
    pub(crate) runner: MemoryRunner,
    pub(crate) status: u8,
}

/// The files of a transcript, for one run.
fn files_of(alloc: Global, transcript: &Transcript) -> Result<MemoryFiles, AllocError> {
    let mut files = Vec::new(alloc);
    for file in transcript.files.iter() {
        let path = String::from_str(alloc, file.path.as_str())?;
        files.push((path, Vec::from_slice(alloc, file.bytes.as_slice())?))?;
    }
    let fails = Vec::from_slice(alloc, transcript.file_fails.as_slice())?;
    Ok(MemoryFiles::new(files, fails))
}

/// The store of a transcript, which keeps nothing yet.
pub(crate) fn store_of(alloc: Global, transcript: &Transcript) -> Result<MemoryStore, AllocError> {
    let attach_fails = Vec::from_slice(alloc, transcript.attach_fails.as_slice())?;
    let mut keeper_fails = Vec::new(alloc);
    for fails in transcript.keeper_fails.iter() {
        keeper_fails.push(Vec::from_slice(alloc, fails.as_slice())?)?;
    }
    Ok(MemoryStore::new(alloc, attach_fails, keeper_fails))
}

/// The runner of a transcript, for one run.
fn runner_of(alloc: Global, transcript: &Transcript) -> Result<MemoryRunner, AllocError> {
    let mut answers = VecDeque::new(alloc);
    for answer in transcript.runner_answers.iter() {
        answers.push_back(answer.try_copy(alloc)?)?;
    }
    Ok(MemoryRunner::new(alloc, answers))
}

/// Runs a transcript over a clock and a store.
pub(crate) fn run_over<T: Threads + Wait + Sync, C: Clock + Drop + Send>(
    rt: &T,
    alloc: Global,
    transcript: &Transcript,
    manner: Manner,
    clock: &mut C,
    store: &mut MemoryStore,
) -> Result<Ended, AllocError> {
    let piece = manner.piece;
    let failing = manner.failing;
    let mut files = files_of(alloc, transcript)?;
    let mut listener = listener_of(alloc, transcript, piece, failing)?;
    let mut dialer = dialer_of(alloc, transcript, piece, failing, manner.most)?;
    let mut runner = runner_of(alloc, transcript)?;
    let input = Vec::from_slice(alloc, transcript.console.input.as_slice())?;
    let fails = transcript.console.fails.as_slice();
    let fails = with_one_more(alloc, fails, failing.on_console())?;
    let mut console = MemoryLink::new(alloc, input, piece, fails);
    let status = run(
        rt,
        alloc,
        transcript.words.as_slice(),
        &mut console,
        clock,
        &mut files,
        store,
        &mut listener,
        &mut dialer,
        &mut runner,
    );
    Ok(Ended {
        console,
        listener,
        dialer,
        runner,
        status,
    })
}
