//! Copies of entries.
ghost use Rattle.std.specs.Prelude.{◌≡◌, ◌≤◌, ◌^◌, length, take, drop, IfOk};
ghost use Rattle.swarm_model.specs.MachineState.{IsHistory};

use dimensions::{BotDims, Text, TryCopy};
use std::alloc::{AllocError, Global};
use swarm_model::{Chunk, Entry, EntryKind, Last, Machine, TaskState};
use task_props::SharedTask;

fn copy_new(
    alloc: Global,
    t: u32,
    who: &Text,
    request: &SharedTask,
    state: TaskState,
    slice: u32,
    from: Option<u32>,
) -> Result<EntryKind, AllocError>
    ensures { IfOk result (λ copy. copy ≡ EntryKind.New t who.now request.now state slice from) }
{
    let who = who.try_copy(alloc)?;
    let request = request.try_copy(alloc)?;
    Ok(EntryKind::New {
        t,
        who,
        request,
        state,
        slice,
        from,
    })
}

fn copy_handshake(
    alloc: Global,
    b: u32,
    id: &Text,
    session: &Text,
    dims: &BotDims,
    q: &Text,
) -> Result<EntryKind, AllocError>
    ensures { IfOk result (λ copy. copy ≡ EntryKind.Handshake b id.now session.now dims.now q.now) }
{
    let id = id.try_copy(alloc)?;
    let session = session.try_copy(alloc)?;
    let dims = dims.try_copy(alloc)?;
    let q = q.try_copy(alloc)?;
    Ok(EntryKind::Handshake {
        b,
        id,
        session,
        dims,
        q,
    })
}

fn copy_poll(
    alloc: Global,
    b: u32,
    dims: &Option<BotDims>,
    q: &Option<Text>,
    hint: bool,
) -> Result<EntryKind, AllocError>
    ensures { IfOk result (λ copy. copy ≡ EntryKind.Poll b dims.now q.now hint) }
{
    let dims = dims.try_copy(alloc)?;
    let q = q.try_copy(alloc)?;
    Ok(EntryKind::Poll { b, dims, q, hint })
}

fn copy_update(
    alloc: Global,
    b: u32,
    t: u32,
    try_no: u32,
    chunk: Option<Chunk>,
    last: &Option<Last>,
) -> Result<EntryKind, AllocError>
    ensures { IfOk result (λ copy. copy ≡ EntryKind.Update b t try_no chunk last.now) }
{
    let last = last.try_copy(alloc)?;
    Ok(EntryKind::Update {
        b,
        t,
        try_no,
        chunk,
        last,
    })
}

/// A copy of what happened. It shares the request of a new task.
fn copy_kind(alloc: Global, kind: &EntryKind) -> Result<EntryKind, AllocError>
    ensures { IfOk result (λ copy. copy ≡ kind.now) }
{
    Ok(match kind {
        EntryKind::Slice { t, to } => EntryKind::Slice { t: *t, to: *to },
        EntryKind::Silence { t } => EntryKind::Silence { t: *t },
        EntryKind::Dead { b } => EntryKind::Dead { b: *b },
        EntryKind::Blob { n, kept } => EntryKind::Blob { n: *n, kept: *kept },
        EntryKind::New {
            t,
            who,
            request,
            state,
            slice,
            from,
        } => copy_new(alloc, *t, who, request, *state, *slice, *from)?,
        EntryKind::Cancel { t } => EntryKind::Cancel { t: *t },
        EntryKind::Kill { t } => EntryKind::Kill { t: *t },
        EntryKind::Handshake {
            b,
            id,
            session,
            dims,
            q,
        } => copy_handshake(alloc, *b, id, session, dims, q)?,
        EntryKind::Poll { b, dims, q, hint } => copy_poll(alloc, *b, dims, q, *hint)?,
        EntryKind::Claim { b, t, claim } => EntryKind::Claim {
            b: *b,
            t: *t,
            claim: claim.try_copy(alloc)?,
        },
        EntryKind::Contact { b } => EntryKind::Contact { b: *b },
        EntryKind::Event { b, e, text } => EntryKind::Event {
            b: *b,
            e: *e,
            text: text.try_copy(alloc)?,
        },
        EntryKind::Update {
            b,
            t,
            try_no,
            chunk,
            last,
        } => copy_update(alloc, *b, *t, *try_no, *chunk, last)?,
        EntryKind::Terminate { b } => EntryKind::Terminate { b: *b },
        EntryKind::Put { digest, size } => EntryKind::Put {
            digest: *digest,
            size: *size,
        },
    })
}

fn copy_entry(alloc: Global, entry: &Entry) -> Result<Entry, AllocError>
    ensures { IfOk result (λ copy. copy ≡ entry.now) }
{
    let kind = copy_kind(alloc, &entry.kind)?;
    Ok(Entry {
        moment: entry.moment,
        pass: entry.pass,
        kind,
    })
}

/// The next `most` entries of a machine's log from the place `from`, or all where fewer are there.
pub(crate) fn copy_log<M: Machine>(
    alloc: Global,
    machine: &M,
    from: u64,
    most: u32,
) -> Result<Vec<Entry>, AllocError>
    requires first { (M.kept machine.now).start.count ≡ 0 }
    ensures copied { IfOk result (λ entries. entries.items ≡ take most (drop from (M.kept machine.now).log)) }
    ensures history { IsHistory (M.kept machine.now) }
{
    let count = machine.length().saturating_sub(from).min(u64::from(most));
    let mut entries = Vec::with_capacity(alloc, count as usize)?;
    for place in 0..count {
        let Some(entry) = machine.entry(from + place) else {
            unreachable!();
        };
        entries.push_reserved(copy_entry(alloc, entry)?);
    }
    Ok(entries)
}
