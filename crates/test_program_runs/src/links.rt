//! The links of a transcript, and what a run wrote to them.
ghost use Rattle.std.specs.Prelude.{IfOk};
ghost use Rattle.sw_base.specs.Listeners.{IsGiven};

use crate::failing_call::{FailingCall, with_one_more};
use std::alloc::{AllocError, Global};
use sw_base::{Acceptor, MemoryAcceptor, MemoryDialer, MemoryLink, MemoryListener};
use test_transcript_reader::{
    Conversation, Transcript, TranscriptError, compare_begun, compare_link, compare_links,
};

/// An acceptor to which these links come, a call at most `piece` bytes at a time.
fn acceptor_of(
    alloc: Global,
    links: &[Conversation],
    piece: usize,
    fails: &[u64],
    failing: FailingCall,
) -> Result<MemoryAcceptor, AllocError>
    ensures { IfOk result (λ a. IsGiven (⟦<MemoryAcceptor as Acceptor>⟧.state a)) }
{
    let Some((last, before)) = links.split_last() else {
        let fails = Vec::from_slice(alloc, fails)?;
        return Ok(MemoryAcceptor::new(alloc, fails));
    };
    let mut acceptor = acceptor_of(alloc, before, piece, fails, failing)?;
    let input = Vec::from_slice(alloc, last.input.as_slice())?;
    let more = failing.on_connection(before.len());
    let fails = with_one_more(alloc, last.fails.as_slice(), more)?;
    acceptor.add(alloc, input, piece, fails)?;
    Ok(acceptor)
}

/// The listener of a transcript, for one run.
pub(crate) fn listener_of(
    alloc: Global,
    transcript: &Transcript,
    piece: usize,
    failing: FailingCall,
) -> Result<MemoryListener, AllocError> {
    let fails = Vec::from_slice(alloc, transcript.listen_fails.as_slice())?;
    let mut listener = MemoryListener::new(alloc, fails);
    let links = transcript.connections.as_slice();
    let fails = transcript.accept_fails.as_slice();
    listener.add(acceptor_of(alloc, links, piece, fails, failing)?)?;
    for links in transcript.further_connections.iter() {
        let links = links.as_slice();
        listener.add(acceptor_of(alloc, links, piece, &[], FailingCall::NoCall)?)?;
    }
    Ok(listener)
}

/// Adds the link of a dial, twice where a call on it fails beside those that it names.
fn add_dialed(
    alloc: Global,
    dialer: &mut MemoryDialer,
    link: &Conversation,
    piece: usize,
    failing: Option<u64>,
    most: usize,
) -> Result<(), AllocError> {
    let input = link.input.as_slice();
    let input = &input[..most.min(input.len())];
    let fails = link.fails.as_slice();
    if failing.is_some() {
        let bytes = Vec::from_slice(alloc, input)?;
        dialer.add(bytes, piece, with_one_more(alloc, fails, failing)?)?;
    }
    let bytes = Vec::from_slice(alloc, input)?;
    dialer.add(bytes, piece, Vec::from_slice(alloc, fails)?)
}

/// The dialer of a transcript, for one run. Where `most` is a number, the last link gives at most so
/// many bytes.
pub(crate) fn dialer_of(
    alloc: Global,
    transcript: &Transcript,
    piece: usize,
    failing: FailingCall,
    most: Option<usize>,
) -> Result<MemoryDialer, AllocError> {
    let fails = transcript.dial_fails.as_slice();
    let mut dialer = MemoryDialer::new(alloc, with_one_more(alloc, fails, failing.dial())?);
    let count = transcript.dials.len();
    for (at, link) in transcript.dials.iter().enumerate() {
        let most = match most {
            Some(most) if at.saturating_add(1) == count => most,
            _ => usize::MAX,
        };
        add_dialed(alloc, &mut dialer, link, piece, failing.on_dialed(at), most)?;
    }
    Ok(dialer)
}

/// Compares what was written to a link, of which a call failed or none did.
fn compare_one(
    alloc: Global,
    wanted: &Conversation,
    came: &MemoryLink,
    is_failing: bool,
) -> Result<(), TranscriptError> {
    if is_failing {
        compare_begun(alloc, wanted, came.output(), came.flushed_output())?;
        return Ok(());
    }
    compare_link(alloc, wanted, came.output())
}

/// Compares what a run wrote to the links that came to an acceptor.
fn compare_accepted(
    alloc: Global,
    transcript: &Transcript,
    wanted: &[Conversation],
    acceptor: Option<&MemoryAcceptor>,
    failing: FailingCall,
) -> Result<(), TranscriptError> {
    let Some(acceptor) = acceptor else {
        return compare_links(transcript, wanted.len(), 0);
    };
    let came = acceptor.served();
    for (at, (wanted, link)) in wanted.iter().zip(came.iter()).enumerate() {
        compare_one(alloc, wanted, link, failing.on_connection(at).is_some())?;
    }
    compare_links(transcript, wanted.len(), came.len())
}

/// Compares what a run wrote to the links that came.
pub(crate) fn compare_served(
    alloc: Global,
    transcript: &Transcript,
    listener: &MemoryListener,
    failing: FailingCall,
) -> Result<(), TranscriptError> {
    let mut ended = listener.ended().iter();
    let wanted = transcript.connections.as_slice();
    compare_accepted(alloc, transcript, wanted, ended.next(), failing)?;
    for wanted in transcript.further_connections.iter() {
        let wanted = wanted.as_slice();
        let acceptor = ended.next();
        compare_accepted(alloc, transcript, wanted, acceptor, FailingCall::NoCall)?;
    }
    Ok(())
}

/// Compares what a run wrote to the links that it dialed.
pub(crate) fn compare_dialed(
    alloc: Global,
    transcript: &Transcript,
    dialer: &MemoryDialer,
    failing: FailingCall,
) -> Result<(), TranscriptError> {
    let wanted = transcript.dials.as_slice();
    let came = dialer.ended();
    for (at, link) in came.iter().enumerate() {
        if let Some(wanted) = wanted.get(failing.dialed_conversation(at)) {
            compare_one(alloc, wanted, link, failing.on_dialed(at).is_some())?;
        }
    }
    compare_links(transcript, failing.dialed_links(wanted.len()), came.len())
}

/// Whether a call failed on the link of this number that came.
pub(crate) fn has_served_failing(listener: &MemoryListener, at: usize) -> bool {
    let Some(acceptor) = listener.ended().first() else {
        return false;
    };
    match acceptor.served().get(at) {
        Some(link) => link.has_failed(),
        None => false,
    }
}

/// Whether a call failed on the link of this number that was dialed.
pub(crate) fn has_dialed_failing(dialer: &MemoryDialer, at: usize) -> bool {
    match dialer.ended().get(at) {
        Some(link) => link.has_failed(),
        None => false,
    }
}
