//! The requests of a bot's actions.
ghost use Rattle.std.specs.Prelude.{◌≡◌, [], IfOk, take};
ghost use Rattle.std.specs.Option.{option_copied, option_map};
ghost use Rattle.swarm_model.specs.declared.request.Request.TheVariants as ask;
ghost use Rattle.bot_requests.specs.Bodies.{session_name as spec_session_name, claim_name as spec_claim_name};
ghost use Rattle.bot_worlds.specs.World.{bare, chunk_of as spec_chunk_of, last_of as spec_last_of, report_of as spec_report_of, request_by as spec_request_by};

use bot_core::{Action, End};
use bot_worlds::{ChildRun, Sent};
use dimensions::{BotDims, Seq, Text, TryCopy};
use sha2::{Digest, Sha256};
use std::alloc::{AllocError, Global};
use swarm_model::{Chunk, Last, Request};

#[tactic(auto, unfolding(bot_requests::specs::Bodies::session_name))]
fn session_name(alloc: Global, first: u64, session: u64) -> Result<Text, AllocError>
    ensures { IfOk result (λ name. name ≡ spec_session_name first session) }
{
    let name = format!(in alloc; "{first}-{session}")?;
    Ok(Text::from_string(name))
}

#[tactic(auto, unfolding(bot_requests::specs::Bodies::claim_name))]
fn claim_name(alloc: Global, first: u64, session: u64, claim: u64) -> Result<Text, AllocError>
    ensures { IfOk result (λ name. name ≡ spec_claim_name first session claim) }
{
    let name = format!(in alloc; "{first}-{session}-{claim}")?;
    Ok(Text::from_string(name))
}

/// A request with which no bytes come.
fn bare_request(alloc: Global, request: Request) -> Sent
    ensures { result ≡ bare request }
{
    Sent {
        request,
        bytes: Seq::new(alloc),
    }
}

fn handshake(
    alloc: Global,
    name: &Text,
    dims: &BotDims,
    first: u64,
    session: u64,
) -> Result<Sent, AllocError>
    ensures { IfOk result (λ sent. sent ≡ bare (ask.Handshake name.now (spec_session_name first session) dims.now [])) }
{
    let request = Request::Handshake {
        bot: name.try_copy(alloc)?,
        session: session_name(alloc, first, session)?,
        dims: dims.try_copy(alloc)?,
        quarantined: Text::new(alloc),
    };
    Ok(bare_request(alloc, request))
}

fn poll(alloc: Global, name: &Text, dims: &BotDims) -> Result<Sent, AllocError>
    ensures { IfOk result (λ sent. sent ≡ bare (ask.Poll name.now dims.now [])) }
{
    let request = Request::Poll {
        bot: name.try_copy(alloc)?,
        dims: dims.try_copy(alloc)?,
        quarantined: Text::new(alloc),
    };
    Ok(bare_request(alloc, request))
}

fn claim_of(
    alloc: Global,
    name: &Text,
    first: u64,
    session: u64,
    claim: u64,
) -> Result<Sent, AllocError>
    ensures { IfOk result (λ sent. sent ≡ bare (ask.Claim name.now (spec_claim_name first session claim))) }
{
    let request = Request::Claim {
        bot: name.try_copy(alloc)?,
        claim: claim_name(alloc, first, session, claim)?,
    };
    Ok(bare_request(alloc, request))
}

/// The first `size` of these bytes, or all of them where there are fewer.
#[tactic(auto, using(std::proofs::lemmas::List::take_all))]
pub(crate) fn first_bytes(bytes: &[u8], size: u32) -> &[u8]
    ensures { result.now ≡ take size bytes.now }
{
    if size as usize <= bytes.len() {
        &bytes[..size as usize]
    } else {
        bytes
    }
}

fn chunk_of(start: u32, size: u32, pending: &[u8]) -> Option<Chunk>
    ensures { result ≡ spec_chunk_of start size pending.now }
{
    if size == 0 {
        return None;
    }
    let bytes = first_bytes(pending, size);
    Some(Chunk {
        start,
        size,
        digest: Sha256::digest(bytes),
    })
}

fn last_of(alloc: Global, end: &End) -> Last
    ensures { result ≡ spec_last_of end.now }
{
    Last {
        exit_code: end.exit_code,
        duration_ms: end.duration_ms,
        hard_timeout: end.hard_timeout,
        io_timeout: end.io_timeout,
        dropped: end.dropped,
        files: Seq::new(alloc),
    }
}

fn last_or_none(alloc: Global, last: &Option<End>) -> Option<Last>
    ensures { result ≡ option_map spec_last_of last.now }
{
    match last {
        None => None,
        Some(end) => Some(last_of(alloc, end)),
    }
}

/// A report of the run, with the first `size` of the bytes that wait.
fn report_of(
    alloc: Global,
    name: &Text,
    start: u32,
    size: u32,
    last: &Option<End>,
    pending: &[u8],
    run: &ChildRun,
) -> Result<Sent, AllocError>
    ensures { IfOk result (λ sent. sent ≡ spec_report_of name.now start size last.now pending.now run.now) }
{
    let bytes = Vec::from_slice(alloc, first_bytes(pending, size))?;
    let request = Request::Update {
        bot: name.try_copy(alloc)?,
        task: run.task,
        try_no: run.try_no,
        chunk: chunk_of(start, size, pending),
        last: last_or_none(alloc, last),
    };
    Ok(Sent {
        request,
        bytes: Seq::from_vec(bytes),
    })
}

/// The request that an action of the bot sends, where it sends one; `run` is the newest run.
pub(crate) fn request_by(
    alloc: Global,
    name: &Text,
    dims: &BotDims,
    run: Option<&ChildRun>,
    pending: &[u8],
    action: &Action,
) -> Result<Option<Sent>, AllocError>
    ensures { IfOk result (λ sent. sent ≡ spec_request_by name.now dims.now (option_copied run.entry) pending.now action.now) }
{
    match action {
        Action::Handshake { first, session } => {
            Ok(Some(handshake(alloc, name, dims, *first, *session)?))
        }
        Action::Poll => Ok(Some(poll(alloc, name, dims)?)),
        Action::Claim {
            first,
            session,
            claim,
        } => Ok(Some(claim_of(alloc, name, *first, *session, *claim)?)),
        Action::Send { start, size, last } => match run {
            None => Ok(None),
            Some(run) => Ok(Some(report_of(alloc, name, *start, *size, last, pending, run)?)),
        },
        Action::Prepare
        | Action::Start
        | Action::Look { .. }
        | Action::Sleep { .. }
        | Action::Signal { .. }
        | Action::Upload
        | Action::CleanUp
        | Action::Stop { .. } => Ok(None),
    }
}
