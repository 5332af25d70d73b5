//! Prepare: the inputs of a run are fetched, and the runner lays them out.
ghost use Rattle.std.specs.Prelude.{◌≡◌, ◌↔◌, ◌++◌, ◌∷◌, [], IfOk, OnOk, IsSome, IsTrue, MatchResult};
ghost use Rattle.swarm_model.specs.declared.reply.Reply.TheVariants as blob;
ghost use Rattle.bot_turns.specs.ServerTurns.{OfRun};
ghost use Rattle.bot_turns.specs.Ends.{StillTells};
ghost use Rattle.bot_turns.specs.Inputs.{fetch_refusal as spec_fetch_refusal, BytesOrEvent, FetchesFile, FetchesAll, FetchEnds, FetchesInputs, prepared_caches, without_caches, LaysOut, IsPrepareTurn};

use crate::events::refusal_event;
use bot_core::BotEvent;
use bot_requests::{Hands, get_blob_request};
use dimensions::{Seq, Text, TryCopy};
use named_caches::CacheTable;
use refusal_codes::RefusalCode;
use routes::Route;
use runners::{PreparedCache, Runner};
use server_calls::{Exchanged, Told, exchange};
use std::alloc::{AllocError, Global};
use sw_base::{Dialer, StartFault};
use swarm_model::Reply;
use task_props::{Cache, File};

#[tactic(auto, using(crate::proofs::EventLemmas::is_transient_refusal))]
fn fetch_refusal(code: RefusalCode) -> BotEvent
    ensures { result ≡ spec_fetch_refusal code }
{
    if code.is_transient() {
        refusal_event(code)
    } else {
        BotEvent::RunnerFailed
    }
}

fn is_blob_of(reply: &Reply, file: &File) -> bool
    ensures { IsTrue result ↔ (reply.now ≡ blob.Blob file.now.digest file.now.size) }
{
    match reply {
        Reply::Blob { digest, size } => *digest == file.digest && *size == file.size,
        _ => false,
    }
}

/// The bytes of a file, where its blob came.
fn bytes_of(file: &File, exchanged: Exchanged) -> Result<Result<Seq<u8>, BotEvent>, AllocError>
    ensures { IfOk result (λ r. BytesOrEvent file.now exchanged r) }
{
    match exchanged {
        Exchanged::Told(Told::Good { reply, bytes, .. }) => {
            if is_blob_of(&reply, file) {
                Ok(Ok(bytes))
            } else {
                Ok(Err(BotEvent::RunnerFailed))
            }
        }
        Exchanged::Told(Told::No { code, .. }) => Ok(Err(fetch_refusal(code))),
        Exchanged::NoReply | Exchanged::Lost => Ok(Err(BotEvent::Lost)),
        Exchanged::Memory => Err(AllocError),
    }
}

fn fetch_file<W: Dialer>(
    alloc: Global,
    hands: &Hands,
    dialer: &mut W,
    file: &File,
) -> Result<Result<Seq<u8>, BotEvent>, AllocError>
    ensures { IfOk result (λ r. FetchesFile hands.now file.now r (W.state dialer.old) (W.state dialer.new)) }
{
    let request = get_blob_request(alloc, hands, &file.digest)?;
    let address = hands.address.as_str();
    let exchanged = exchange(alloc, dialer, address, request.as_slice(), Route::GetBlob);
    bytes_of(file, exchanged)
}

fn push_input(
    alloc: Global,
    inputs: &mut Seq<(Text, Seq<u8>)>,
    path: &Text,
    bytes: Seq<u8>,
) -> Result<(), AllocError>
    ensures { OnOk result (inputs.new ≡ inputs.old ++ (path.now, bytes) ∷ []) }
{
    inputs.try_push((path.try_copy(alloc)?, bytes))?;
    Ok(())
}

/// The files with their paths, or the event of the first that isn't fetched.
#[tactic(auto, using(crate::proofs::FetchLemmas::fetched_at, crate::proofs::FetchLemmas::ended_at))]
fn fetch_all<W: Dialer>(
    alloc: Global,
    hands: &Hands,
    dialer: &mut W,
    files: &[File],
) -> Result<Result<Seq<(Text, Seq<u8>)>, BotEvent>, AllocError>
    ensures { IfOk result (λ r. MatchResult r (λ inputs. FetchesAll hands.now files.now inputs (W.state dialer.old) (W.state dialer.new)) (λ e. FetchEnds hands.now files.now e (W.state dialer.old) (W.state dialer.new))) }
{
    let mut inputs = Seq::new(alloc);
    for file in files {
        match fetch_file(alloc, hands, dialer, file)? {
            Ok(bytes) => push_input(alloc, &mut inputs, &file.path, bytes)?,
            Err(event) => return Ok(Err(event)),
        }
    }
    Ok(Ok(inputs))
}

fn fetch_inputs<W: Dialer>(
    alloc: Global,
    hands: &Hands,
    dialer: &mut W,
) -> Result<Result<Seq<(Text, Seq<u8>)>, BotEvent>, AllocError>
    requires { IsSome hands.now.run }
    ensures { IfOk result (λ r. OfRun hands.now.run (λ run p. FetchesInputs hands.now p r (W.state dialer.old) (W.state dialer.new))) }
{
    let Some((_, properties)) = &hands.run else {
        unreachable!()
    };
    fetch_all(alloc, hands, dialer, properties.inputs.as_slice())
}

/// Takes the caches of a run out of the table, where they are there.
fn take_caches(
    alloc: Global,
    table: &mut CacheTable,
    caches: &[Cache],
) -> Result<Seq<PreparedCache>, AllocError>
    ensures prepared { IfOk result (λ prepared. prepared ≡ prepared_caches caches.now table.old.entries) }
    ensures left { OnOk result (table.new ≡ record table.old { entries = without_caches caches.now table.old.entries }) }
{
    let mut prepared = Seq::new(alloc);
    for cache in caches {
        let name = cache.name.try_copy(alloc)?;
        let path = cache.path.try_copy(alloc)?;
        let is_kept = table.take(cache.name.as_str()).is_some();
        prepared.try_push(PreparedCache {
            name,
            path,
            is_kept,
        })?;
    }
    Ok(prepared)
}

/// Has the runner lay out the run.
#[tactic(auto, using(crate::proofs::TellLemmas::performs_tells))]
fn prepare_folder<R: Runner>(
    alloc: Global,
    hands: &mut Hands,
    runner: &mut R,
    inputs: &[(Text, Seq<u8>)],
) -> Result<BotEvent, AllocError>
    requires { IsSome hands.old.run }
    ensures turn { IfOk result (λ e. OfRun hands.old.run (λ run p. LaysOut run p inputs.now hands.old e (R.state runner.old) (R.state runner.new) hands.new)) }
    ensures tells { StillTells (R.state runner.old) (R.state runner.new) }
{
    let Some((run, properties)) = &hands.run else {
        unreachable!()
    };
    let caches = take_caches(alloc, &mut hands.caches, properties.caches.as_slice())?;
    match runner.prepare(run, inputs, caches.as_slice()) {
        Ok(()) => Ok(BotEvent::Prepared),
        Err(StartFault::Failed) => Ok(BotEvent::RunnerFailed),
        Err(StartFault::Memory) => Err(AllocError),
    }
}

pub(crate) fn prepare_run<W: Dialer, R: Runner>(
    alloc: Global,
    hands: &mut Hands,
    dialer: &mut W,
    runner: &mut R,
) -> Result<BotEvent, AllocError>
    requires { IsSome hands.old.run }
    ensures turn { IfOk result (λ e. IsPrepareTurn hands.old e (W.state dialer.old) (W.state dialer.new) (R.state runner.old) (R.state runner.new) hands.new) }
    ensures tells { StillTells (R.state runner.old) (R.state runner.new) }
{
    match fetch_inputs(alloc, hands, dialer)? {
        Ok(inputs) => prepare_folder(alloc, hands, runner, inputs.as_slice()),
        Err(event) => Ok(event),
    }
}
