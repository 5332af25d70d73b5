ghost use Rattle.std.specs.Prelude.{◌≡◌, ◌+◌, length};
ghost use Rattle.std.specs.List.{sum_by};
ghost use Rattle.std.specs.Option.{option_map_or};
ghost use Rattle.swarm_model.specs.Words.{capped};
ghost use Rattle.swarm_model.specs.Entries.{weight, weight_of, values_weight, dims_weight, chunk_weight, last_weight, task_weight, properties_weight, slice_weight, cache_weight, file_weight, pair_weight};
ghost use Rattle.swarm_model.specs.StateWeight.{attempt_weight, retried_weight, task_row_weight, bot_row_weight, state_weight};

use crate::{Attempt, BotRow, Chunk, Entry, EntryKind, Last, MaybeRetried, PoolState, TaskRow};
use dimensions::{BotDims, Seq, Text};
use task_props::{Cache, File, NewTask, Properties, Slice};

/// The bytes that a digest with its size counts for.
const DIGEST_WEIGHT: u64 = 36;

/// What counts for the weight of a log or of rows. A weight past the greatest `u64` is told as that.
trait Weighs {
    ghost use Rattle.std.specs.Prelude.{ℕ};

    ghost weight: { Self → ℕ };

    fn weight(&self) -> u64
        ensures { result ≡ capped (weight self.now) };
}

fn weight_of_all<T: Weighs>(items: &[T]) -> u64
    ensures { result ≡ capped (sum_by T.weight items.now) }
{
    let mut sum = 0u64;
    for item in items {
        sum = sum.saturating_add(item.weight());
    }
    sum
}

impl Weighs for Text {
    ghost use Rattle.std.specs.Prelude.{length};

    ghost weight = { length };

    fn weight(&self) -> u64 {
        self.as_str().len() as u64
    }
}

impl Weighs for (Text, Text) {
    ghost use Rattle.swarm_model.specs.Entries.{pair_weight};

    ghost weight = { pair_weight };

    fn weight(&self) -> u64 {
        self.0.weight().saturating_add(self.1.weight())
    }
}

impl Weighs for Cache {
    ghost use Rattle.swarm_model.specs.Entries.{cache_weight};

    ghost weight = { cache_weight };

    fn weight(&self) -> u64 {
        self.name.weight().saturating_add(self.path.weight())
    }
}

impl Weighs for File {
    ghost use Rattle.swarm_model.specs.Entries.{file_weight};

    ghost weight = { file_weight };

    fn weight(&self) -> u64 {
        self.path.weight().saturating_add(DIGEST_WEIGHT)
    }
}

impl Weighs for (Text, Seq<Text>) {
    ghost use Rattle.swarm_model.specs.Entries.{values_weight};

    ghost weight = { values_weight };

    fn weight(&self) -> u64 {
        self.0
            .weight()
            .saturating_add(weight_of_all(self.1.as_slice()))
    }
}

impl Weighs for BotDims {
    ghost use Rattle.swarm_model.specs.Entries.{dims_weight};

    ghost weight = { dims_weight };

    fn weight(&self) -> u64 {
        weight_of_all(self.pairs())
    }
}

impl Weighs for Chunk {
    ghost use Rattle.swarm_model.specs.Entries.{chunk_weight};

    ghost weight = { chunk_weight };

    fn weight(&self) -> u64 {
        DIGEST_WEIGHT
    }
}

impl Weighs for Last {
    ghost use Rattle.swarm_model.specs.Entries.{last_weight};

    ghost weight = { last_weight };

    fn weight(&self) -> u64 {
        weight_of_all(self.files.as_slice())
    }
}

fn weight_if_some<T: Weighs>(value: &Option<T>) -> u64
    ensures { result ≡ capped (option_map_or T.weight value.now 0) }
{
    match value {
        Some(value) => value.weight(),
        None => 0,
    }
}

impl Weighs for Slice {
    ghost use Rattle.swarm_model.specs.Entries.{slice_weight};

    ghost weight = { slice_weight };

    fn weight(&self) -> u64 {
        properties_weight(&self.properties)
    }
}

fn properties_weight(p: &Properties) -> u64
    ensures { result ≡ capped (properties_weight p.now) }
{
    let files = weight_of_all(p.inputs.as_slice()).saturating_add(weight_of_all(
        p.outputs.as_slice(),
    ));
    let places = weight_of_all(p.caches.as_slice()).saturating_add(files);
    let asked = weight_of_all(p.dimensions.pairs()).saturating_add(places);
    let env = weight_of_all(p.env.as_slice()).saturating_add(asked);
    weight_of_all(p.command.as_slice()).saturating_add(env)
}

fn task_weight(request: &NewTask) -> u64
    ensures { result ≡ capped (task_weight request.now) }
{
    let slices = weight_of_all(request.task_slices.as_slice());
    let texts = request.request_uuid.weight().saturating_add(slices);
    request.name.weight().saturating_add(texts)
}

fn new_weight(who: &Text, request: &NewTask) -> u64
    ensures { result ≡ capped (length who.now + task_weight request.now) }
{
    who.weight().saturating_add(task_weight(request))
}

fn handshake_weight(id: &Text, session: &Text, dims: &BotDims, q: &Text) -> u64
    ensures { result ≡ capped (length id.now + (length session.now + (dims_weight dims.now + length q.now))) }
{
    let told = dims.weight().saturating_add(q.weight());
    id.weight()
        .saturating_add(session.weight().saturating_add(told))
}

fn poll_weight(dims: &Option<BotDims>, q: &Option<Text>) -> u64
    ensures { result ≡ capped (option_map_or dims_weight dims.now 0 + option_map_or length q.now 0) }
{
    weight_if_some(dims).saturating_add(weight_if_some(q))
}

fn update_weight(chunk: &Option<Chunk>, last: &Option<Last>) -> u64
    ensures { result ≡ capped (option_map_or chunk_weight chunk.now 0 + option_map_or last_weight last.now 0) }
{
    weight_if_some(chunk).saturating_add(weight_if_some(last))
}

/// What an entry weighs, in bytes: those of all its texts, and 36 for each digest.
pub fn weight(entry: &Entry) -> u64
    ensures { result ≡ capped (weight entry.now) }
{
    match &entry.kind {
        EntryKind::New { who, request, .. } => new_weight(who, request),
        EntryKind::Handshake {
            id,
            session,
            dims,
            q,
            ..
        } => handshake_weight(id, session, dims, q),
        EntryKind::Poll { dims, q, .. } => poll_weight(dims, q),
        EntryKind::Claim { claim, .. } => claim.weight(),
        EntryKind::Event { text, .. } => text.weight(),
        EntryKind::Update { chunk, last, .. } => update_weight(chunk, last),
        EntryKind::Put { .. } => DIGEST_WEIGHT,
        EntryKind::Slice { .. }
        | EntryKind::Silence { .. }
        | EntryKind::Dead { .. }
        | EntryKind::Blob { .. }
        | EntryKind::Cancel { .. }
        | EntryKind::Kill { .. }
        | EntryKind::Contact { .. }
        | EntryKind::Terminate { .. } => 0,
    }
}

impl Weighs for Attempt {
    ghost use Rattle.swarm_model.specs.StateWeight.{attempt_weight};

    ghost weight = { attempt_weight };

    fn weight(&self) -> u64 {
        let chunks = weight_of_all(self.chunks.as_slice());
        let told = chunks.saturating_add(weight_if_some(&self.last));
        self.claim.weight().saturating_add(told)
    }
}

fn retried_weight(retried: &MaybeRetried) -> u64
    ensures { result ≡ capped (option_map_or retried_weight retried.now 0) }
{
    match retried.as_ref() {
        Some(lost) => lost.attempt.weight(),
        None => 0,
    }
}

impl Weighs for TaskRow {
    ghost use Rattle.swarm_model.specs.StateWeight.{task_row_weight};

    ghost weight = { task_row_weight };

    fn weight(&self) -> u64 {
        let runs = weight_if_some(&self.attempt).saturating_add(retried_weight(&self.retried));
        let asked = task_weight(&self.request).saturating_add(runs);
        self.creator.weight().saturating_add(asked)
    }
}

impl Weighs for BotRow {
    ghost use Rattle.swarm_model.specs.StateWeight.{bot_row_weight};

    ghost weight = { bot_row_weight };

    fn weight(&self) -> u64 {
        handshake_weight(&self.name, &self.session, &self.dims, &self.quarantined)
    }
}

/// What the rows of a pool weigh, in bytes: those of all their texts, and 36 for each digest that they
/// keep.
pub fn rows_weight(state: &PoolState) -> u64
    ensures { result ≡ capped (state_weight state.now) }
{
    let bots = weight_of_all(state.bots.as_slice());
    weight_of_all(state.tasks.as_slice()).saturating_add(bots)
}
