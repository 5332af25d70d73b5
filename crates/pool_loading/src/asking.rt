//! The request for which a kept entry stands.
ghost use Rattle.std.specs.Prelude.{◌≡◌, IfOk, unwrap_or, option_map};
ghost use Rattle.swarm_model.specs.Entries.{asks, poll_of, claim_of, handshake_of, event_of, terminate_of, cancel_of, update_of, without_caller};
ghost use Rattle.swarm_model.specs.Finding.{task_of};
ghost use Rattle.pool_loading.specs.Asking.{as_asked};

use dimensions::{BotDims, Text, TryCopy};
use std::alloc::{AllocError, Global};
use swarm_model::{
    BotRow, Chunk, EntryKind, EventKind, Last, Machine, Request, TaskRow, task_uncounted,
};
use task_props::{Digest, SharedTask};

/// A request with its caller.
#[derive(Drop)]
pub(crate) struct EntryRequest {
    pub caller: Text,
    pub request: Request,
}

/// A request whose caller no answer looks at.
fn without_caller(alloc: Global, request: Request) -> EntryRequest
    ensures { as_asked result ≡ without_caller request }
{
    EntryRequest {
        caller: Text::new(alloc),
        request,
    }
}

fn text_or(new: &Option<Text>, old: &Text, alloc: Global) -> Result<Text, AllocError>
    ensures { IfOk result (λ text. text ≡ unwrap_or new.now old.now) }
{
    match new {
        Some(text) => text.try_copy(alloc),
        None => old.try_copy(alloc),
    }
}

fn dims_or(new: &Option<BotDims>, old: &BotDims, alloc: Global) -> Result<BotDims, AllocError>
    ensures { IfOk result (λ dims. dims ≡ unwrap_or new.now old.now) }
{
    match new {
        Some(dims) => dims.try_copy(alloc),
        None => old.try_copy(alloc),
    }
}

fn new_request(alloc: Global, who: &Text, request: &SharedTask) -> Result<EntryRequest, AllocError>
    ensures { IfOk result (λ r. as_asked r ≡ record { who = who.now; request = Request.New request.now }) }
{
    let caller = who.try_copy(alloc)?;
    let request = request.try_copy(alloc)?;
    Ok(EntryRequest {
        caller,
        request: Request::New(request),
    })
}

fn poll_request(
    alloc: Global,
    dims: &Option<BotDims>,
    q: &Option<Text>,
    bot: &BotRow,
) -> Result<EntryRequest, AllocError>
    ensures { IfOk result (λ r. as_asked r ≡ poll_of dims.now q.now bot.now) }
{
    let name = bot.name.try_copy(alloc)?;
    let dims = dims_or(dims, &bot.dims, alloc)?;
    let quarantined = text_or(q, &bot.quarantined, alloc)?;
    let request = Request::Poll {
        bot: name,
        dims,
        quarantined,
    };
    Ok(without_caller(alloc, request))
}

fn claim_request(alloc: Global, claim: &Text, bot: &BotRow) -> Result<EntryRequest, AllocError>
    ensures { IfOk result (λ r. as_asked r ≡ claim_of claim.now bot.now) }
{
    let name = bot.name.try_copy(alloc)?;
    let claim = claim.try_copy(alloc)?;
    Ok(without_caller(alloc, Request::Claim { bot: name, claim }))
}

fn contact_request(alloc: Global, bot: &BotRow) -> Result<EntryRequest, AllocError>
    ensures { IfOk result (λ r. as_asked r ≡ handshake_of bot.now) }
{
    handshake_request(alloc, &bot.name, &bot.session, &bot.dims, &bot.quarantined)
}

fn event_request(
    alloc: Global,
    kind: EventKind,
    message: &Text,
    bot: &BotRow,
) -> Result<EntryRequest, AllocError>
    ensures { IfOk result (λ r. as_asked r ≡ event_of kind message.now bot.now) }
{
    let name = bot.name.try_copy(alloc)?;
    let message = message.try_copy(alloc)?;
    let request = Request::Event {
        bot: name,
        kind,
        message,
    };
    Ok(without_caller(alloc, request))
}

fn terminate_request(alloc: Global, bot: &BotRow) -> Result<EntryRequest, AllocError>
    ensures { IfOk result (λ r. as_asked r ≡ terminate_of bot.now) }
{
    let name = bot.name.try_copy(alloc)?;
    Ok(without_caller(alloc, Request::Terminate { bot: name }))
}

fn update_request(
    alloc: Global,
    task: u32,
    try_no: u32,
    chunk: &Option<Chunk>,
    last: &Option<Last>,
    bot: &BotRow,
) -> Result<EntryRequest, AllocError>
    ensures { IfOk result (λ r. as_asked r ≡ update_of task try_no chunk.now last.now bot.now) }
{
    let name = bot.name.try_copy(alloc)?;
    let last = last.try_copy(alloc)?;
    let request = Request::Update {
        bot: name,
        task,
        try_no,
        chunk: *chunk,
        last,
    };
    Ok(without_caller(alloc, request))
}

fn handshake_request(
    alloc: Global,
    name: &Text,
    session: &Text,
    dims: &BotDims,
    quarantined: &Text,
) -> Result<EntryRequest, AllocError>
    ensures { IfOk result (λ r. as_asked r ≡ without_caller (Request.Handshake name.now session.now dims.now quarantined.now)) }
{
    let bot = name.try_copy(alloc)?;
    let session = session.try_copy(alloc)?;
    let dims = dims.try_copy(alloc)?;
    let quarantined = quarantined.try_copy(alloc)?;
    let request = Request::Handshake {
        bot,
        session,
        dims,
        quarantined,
    };
    Ok(without_caller(alloc, request))
}

fn put_request(alloc: Global, digest: &Digest, size: u32) -> EntryRequest
    ensures { as_asked result ≡ without_caller (Request.PutBlob digest.now digest.now size) }
{
    let request = Request::PutBlob {
        named: *digest,
        actual: *digest,
        size,
    };
    without_caller(alloc, request)
}

fn cancel_request(alloc: Global, task: &TaskRow) -> Result<EntryRequest, AllocError>
    ensures { IfOk result (λ r. as_asked r ≡ cancel_of task.now) }
{
    let caller = task.creator.try_copy(alloc)?;
    let request = Request::Cancel {
        task: task.no,
        try_no: 0,
        kill: true,
    };
    Ok(EntryRequest { caller, request })
}

fn cancel_asked<M: Machine>(
    alloc: Global,
    machine: &M,
    t: u32,
) -> Result<Option<EntryRequest>, AllocError>
    ensures { IfOk result (λ o. option_map as_asked o ≡ option_map cancel_of (task_of (M.kept machine.now).pool t)) }
{
    match task_uncounted(machine, t) {
        Some(task) => Ok(Some(cancel_request(alloc, task)?)),
        None => Ok(None),
    }
}

/// The request for which the entry stands, with its caller. None, where the entry is a deadline's,
/// or names a task or a bot that isn't there.
pub(crate) fn asked<M: Machine>(
    alloc: Global,
    machine: &M,
    kind: &EntryKind,
) -> Result<Option<EntryRequest>, AllocError>
    ensures { IfOk result (λ o. option_map as_asked o ≡ asks (M.kept machine.now).pool kind.now) }
{
    match kind {
        EntryKind::New { who, request, .. } => Ok(Some(new_request(alloc, who, request)?)),
        EntryKind::Cancel { t } => cancel_asked(alloc, machine, *t),
        EntryKind::Kill { t } => cancel_asked(alloc, machine, *t),
        EntryKind::Handshake {
            id,
            session,
            dims,
            q,
            ..
        } => Ok(Some(handshake_request(alloc, id, session, dims, q)?)),
        EntryKind::Poll { b, dims, q, .. } => match machine.bot(*b) {
            Some(bot) => Ok(Some(poll_request(alloc, dims, q, bot)?)),
            None => Ok(None),
        },
        EntryKind::Claim { b, claim, .. } => match machine.bot(*b) {
            Some(bot) => Ok(Some(claim_request(alloc, claim, bot)?)),
            None => Ok(None),
        },
        EntryKind::Contact { b } => match machine.bot(*b) {
            Some(bot) => Ok(Some(contact_request(alloc, bot)?)),
            None => Ok(None),
        },
        EntryKind::Event { b, e, text } => match machine.bot(*b) {
            Some(bot) => Ok(Some(event_request(alloc, *e, text, bot)?)),
            None => Ok(None),
        },
        EntryKind::Update {
            b,
            t,
            try_no,
            chunk,
            last,
        } => match machine.bot(*b) {
            Some(bot) => Ok(Some(update_request(alloc, *t, *try_no, chunk, last, bot)?)),
            None => Ok(None),
        },
        EntryKind::Terminate { b } => match machine.bot(*b) {
            Some(bot) => Ok(Some(terminate_request(alloc, bot)?)),
            None => Ok(None),
        },
        EntryKind::Put { digest, size } => Ok(Some(put_request(alloc, digest, *size))),
        EntryKind::Slice { .. }
        | EntryKind::Silence { .. }
        | EntryKind::Dead { .. }
        | EntryKind::Blob { .. } => Ok(None),
    }
}
