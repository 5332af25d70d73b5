//! What is written of each kind of entry.
ghost use Rattle.std.specs.Prelude.{◌≡◌, IfOk, OnOk, codes};
ghost use Rattle.serde_json.specs.Data.{put, no_members};
ghost use Rattle.serde_json.specs.View.{members_view};
ghost use Rattle.entry_lines.specs.Kinds.{kind_members as spec_kind_members, kind_name as spec_kind_name, KindFits};

use dimensions::{BotDims, Text};
use json_values::with;
use line_parts::{LineField, request_value, uuid_of, with_field};
use serde_json::{Map, Value};
use std::alloc::{AllocError, Global};
use swarm_model::{Chunk, EntryKind, EventKind, Last, TaskState};
use task_props::NewTask;

/// The name that stands under the key `k`.
pub(crate) fn kind_name(kind: &EntryKind) -> &'static str
    ensures { result.now ≡ spec_kind_name kind.now }
{
    match kind {
        EntryKind::Slice { .. } => "slice",
        EntryKind::Silence { .. } => "silence",
        EntryKind::Dead { .. } => "dead",
        EntryKind::Blob { .. } => "blob",
        EntryKind::New { .. } => "new",
        EntryKind::Cancel { .. } => "cancel",
        EntryKind::Kill { .. } => "kill",
        EntryKind::Handshake { .. } => "handshake",
        EntryKind::Poll { .. } => "poll",
        EntryKind::Claim { .. } => "claim",
        EntryKind::Contact { .. } => "contact",
        EntryKind::Event { .. } => "event",
        EntryKind::Update { .. } => "update",
        EntryKind::Terminate { .. } => "terminate",
        EntryKind::Put { .. } => "put",
    }
}

/// The members of an object with this field alone.
fn one_member<A: LineField>(
    alloc: Global,
    key: &str,
    field: &A,
) -> Result<Map<String, Value>, AllocError>
    ensures value { IfOk result (λ members. members_view members.entries ≡ put key.now (A.data_of field.now) no_members) }
    ensures holds { OnOk result (A.Holds field.now) }
{
    with_field(alloc, Map::new(alloc), key, field)
}

/// The members of an object with these two fields.
fn two_members<A: LineField, B: LineField>(
    alloc: Global,
    first_key: &str,
    first: &A,
    second_key: &str,
    second: &B,
) -> Result<Map<String, Value>, AllocError>
    ensures value { IfOk result (λ members. members_view members.entries ≡ put first_key.now (A.data_of first.now) (put second_key.now (B.data_of second.now) no_members)) }
    ensures holds_first { OnOk result (A.Holds first.now) }
    ensures holds_second { OnOk result (B.Holds second.now) }
{
    let members = one_member(alloc, second_key, second)?;
    with_field(alloc, members, first_key, first)
}

fn new_members(
    alloc: Global,
    t: u32,
    who: &Text,
    request: &NewTask,
    state: TaskState,
    slice: u32,
    from: Option<u32>,
) -> Result<Map<String, Value>, AllocError>
    ensures value { IfOk result (λ members. members_view members.entries ≡ spec_kind_members (EntryKind.New t who.now request.now state slice from)) }
    ensures holds { OnOk result (KindFits (EntryKind.New t who.now request.now state slice from)) }
{
    let uuid = uuid_of(alloc, &request.request_uuid)?;
    let members = two_members(alloc, "uuid", &uuid, "who", who)?;
    let members = with_field(alloc, members, "t", &t)?;
    let members = with_field(alloc, members, "state", &state)?;
    let members = with_field(alloc, members, "slice", &slice)?;
    let value = request_value(alloc, request)?;
    let members = with(alloc, members, "request", value)?;
    with_field(alloc, members, "from", &from)
}

fn handshake_members(
    alloc: Global,
    b: u32,
    id: &Text,
    session: &Text,
    dims: &BotDims,
    q: &Text,
) -> Result<Map<String, Value>, AllocError>
    ensures value { IfOk result (λ members. members_view members.entries ≡ spec_kind_members (EntryKind.Handshake b id.now session.now dims.now q.now)) }
    ensures holds { OnOk result (KindFits (EntryKind.Handshake b id.now session.now dims.now q.now)) }
{
    let members = two_members(alloc, "q", q, "session", session)?;
    let members = with_field(alloc, members, "id", id)?;
    let members = with_field(alloc, members, "dims", dims)?;
    with_field(alloc, members, "b", &b)
}

fn poll_members(
    alloc: Global,
    b: u32,
    dims: &Option<BotDims>,
    q: &Option<Text>,
    hint: bool,
) -> Result<Map<String, Value>, AllocError>
    ensures value { IfOk result (λ members. members_view members.entries ≡ spec_kind_members (EntryKind.Poll b dims.now q.now hint)) }
    ensures holds { OnOk result (KindFits (EntryKind.Poll b dims.now q.now hint)) }
{
    let members = two_members(alloc, "hint", &hint, "q", q)?;
    let members = with_field(alloc, members, "dims", dims)?;
    with_field(alloc, members, "b", &b)
}

fn update_members(
    alloc: Global,
    b: u32,
    t: u32,
    try_no: u32,
    chunk: &Option<Chunk>,
    last: &Option<Last>,
) -> Result<Map<String, Value>, AllocError>
    ensures value { IfOk result (λ members. members_view members.entries ≡ spec_kind_members (EntryKind.Update b t try_no chunk.now last.now)) }
    ensures holds { OnOk result (KindFits (EntryKind.Update b t try_no chunk.now last.now)) }
{
    let members = two_members(alloc, "t", &t, "try", &try_no)?;
    let members = with_field(alloc, members, "last", last)?;
    let members = with_field(alloc, members, "chunk", chunk)?;
    with_field(alloc, members, "b", &b)
}

fn claim_members(
    alloc: Global,
    b: u32,
    t: u32,
    claim: &Text,
) -> Result<Map<String, Value>, AllocError>
    ensures value { IfOk result (λ members. members_view members.entries ≡ spec_kind_members (EntryKind.Claim b t claim.now)) }
    ensures holds { OnOk result (KindFits (EntryKind.Claim b t claim.now)) }
{
    let members = two_members(alloc, "claim", claim, "t", &t)?;
    with_field(alloc, members, "b", &b)
}

fn event_members(
    alloc: Global,
    b: u32,
    e: EventKind,
    text: &Text,
) -> Result<Map<String, Value>, AllocError>
    ensures value { IfOk result (λ members. members_view members.entries ≡ spec_kind_members (EntryKind.Event b e text.now)) }
    ensures holds { OnOk result (KindFits (EntryKind.Event b e text.now)) }
{
    let members = two_members(alloc, "e", &e, "text", text)?;
    with_field(alloc, members, "b", &b)
}

/// The members of the kind of an entry, without those that every entry has.
pub(crate) fn kind_members(
    alloc: Global,
    kind: &EntryKind,
) -> Result<Map<String, Value>, AllocError>
    ensures value { IfOk result (λ members. members_view members.entries ≡ spec_kind_members kind.now) }
    ensures holds { OnOk result (KindFits kind.now) }
{
    match kind {
        EntryKind::Slice { t, to } => two_members(alloc, "t", t, "to", to),
        EntryKind::Silence { t } => one_member(alloc, "t", t),
        EntryKind::Dead { b } => one_member(alloc, "b", b),
        EntryKind::Blob { n, kept } => two_members(alloc, "kept", kept, "n", n),
        EntryKind::New {
            t,
            who,
            request,
            state,
            slice,
            from,
        } => new_members(alloc, *t, who, request, *state, *slice, *from),
        EntryKind::Cancel { t } => one_member(alloc, "t", t),
        EntryKind::Kill { t } => one_member(alloc, "t", t),
        EntryKind::Handshake {
            b,
            id,
            session,
            dims,
            q,
        } => handshake_members(alloc, *b, id, session, dims, q),
        EntryKind::Poll { b, dims, q, hint } => poll_members(alloc, *b, dims, q, *hint),
        EntryKind::Claim { b, t, claim } => claim_members(alloc, *b, *t, claim),
        EntryKind::Contact { b } => one_member(alloc, "b", b),
        EntryKind::Event { b, e, text } => event_members(alloc, *b, *e, text),
        EntryKind::Update {
            b,
            t,
            try_no,
            chunk,
            last,
        } => update_members(alloc, *b, *t, *try_no, chunk, last),
        EntryKind::Terminate { b } => one_member(alloc, "b", b),
        EntryKind::Put { digest, size } => two_members(alloc, "digest", digest, "size", size),
    }
}
