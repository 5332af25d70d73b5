//! A batch and a pool, turn by turn.
ghost use Rattle.std.specs.Prelude.{◌≡◌, ◌==◌, ◌&&◌, ◌≤◌, ◌∷◌, [], not, IfOk, IfErr, OnOk, OnErr, length};
ghost use Rattle.sha2.specs.Sha256.{sha256};
ghost use Rattle.dimensions.specs.Alike.{same};
ghost use Rattle.swarm_model.specs.MachineState.{IsHistory};
ghost use Rattle.pool_loading.specs.Records.{AreFilled};
ghost use Rattle.swarm_batch.specs.Batches.{AreMarks};
ghost use Rattle.swarm_batch.specs.Marks.{progress_text};
ghost use Rattle.batch_plays.specs.declared.turn.BatchTurn.TheVariants.{Send as SpecSend};
ghost use Rattle.batch_plays.specs.Once.{IsUnsent, AreSentOnce};
ghost use Rattle.batch_plays.specs.Turns.{OfNext, SendsNext, LosesReply, AsksAsOther, Turned, PlayedTo, PlayedPart, Settles, carries as spec_carries, may_ask as spec_may_ask};
ghost use Rattle.batch_plays.specs.World.{world_of, world_at, IsReady};

use crate::pool::{ask_line, ask_pool};
use crate::saved_batch::{SavedBatch, progress_of};
use crate::turn::BatchTurn;
use dimensions::Text;
use request_fits::fits;
use sha2::{Digest as Hash, Sha256};
use std::alloc::{AllocError, Global};
use swarm_batch::Batch;
use swarm_model::{Machine, Request, Settings};
use task_props::Digest;

/// Sends the line that comes next, marks it by its reply, and saves the progress.
fn send<M: Machine>(
    alloc: Global,
    settings: &Settings,
    machine: &mut M,
    files: &mut SavedBatch,
    who: &Text,
    moment: u64,
) -> Result<(), AllocError>
    requires ready { IsReady settings.now (M.kept machine.old) files.old }
    ensures ready { OnOk result (IsReady settings.now (M.kept machine.new) files.new) }
    ensures start { (M.kept machine.new).start ≡ (M.kept machine.old).start }
    ensures sent { OnOk result (Turned settings.now who.now (world_of (M.kept machine.old) files.old) (SpecSend moment) (world_of (M.kept machine.new) files.new)) }
    ensures stopped { OnErr result (PlayedPart settings.now who.now (world_of (M.kept machine.old) files.old) (SpecSend moment ∷ []) (M.kept machine.new).log files.new.batch) }
{
    let Some(line) = files.batch.next() else {
        return Ok(());
    };
    let told = ask_line(alloc, settings, machine, &files.batch, who, line, moment)?;
    files.mark(alloc, &told)
}

/// Sends the line that comes next, and loses its reply.
fn lose<M: Machine>(
    alloc: Global,
    settings: &Settings,
    machine: &mut M,
    files: &SavedBatch,
    who: &Text,
    moment: u64,
) -> Result<(), AllocError>
    requires ready { IsReady settings.now (M.kept machine.old) files.now }
    ensures ready { OnOk result (IsReady settings.now (M.kept machine.new) files.now) }
    ensures start { (M.kept machine.new).start ≡ (M.kept machine.old).start }
    ensures lost { OnOk result (OfNext (world_of (M.kept machine.old) files.now) (world_of (M.kept machine.new) files.now) (LosesReply settings.now who.now (world_of (M.kept machine.old) files.now) moment (world_of (M.kept machine.new) files.now))) }
    ensures settled { OnErr result (Settles (M.kept machine.old).log (M.kept machine.new).log) }
{
    let Some(line) = files.batch.next() else {
        return Ok(());
    };
    let _told = ask_line(alloc, settings, machine, &files.batch, who, line, moment)?;
    Ok(())
}

fn is_content(digest: &Digest, size: u32, bytes: &[u8]) -> bool
    ensures { result ≡ (same digest.now (sha256 bytes.now) && (size == length bytes.now)) }
{
    *digest == Sha256::digest(bytes) && size as usize == bytes.len()
}

/// Whether these are the bytes that come with the request.
fn carries(request: &Request, bytes: &[u8]) -> bool
    ensures { result ≡ spec_carries request.now bytes.now }
{
    match request {
        Request::PutBlob { actual, size, .. } => is_content(actual, *size, bytes),
        Request::Update { chunk, .. } => match chunk {
            None => true,
            Some(chunk) => is_content(&chunk.digest, chunk.size, bytes),
        },
        _ => true,
    }
}

/// Whether the only pool may be asked so.
fn may_ask(settings: &Settings, request: &Request, bytes: &[u8]) -> bool
    ensures { result ≡ spec_may_ask settings.now request.now bytes.now }
{
    match settings.pools.as_slice().first() {
        Some(pool) => fits(pool, request) && carries(request, bytes),
        None => false,
    }
}

/// Hands the pool a request of another caller.
fn ask_other<M: Machine>(
    alloc: Global,
    settings: &Settings,
    machine: &mut M,
    files: &SavedBatch,
    who: &Text,
    other: &Text,
    request: &Request,
    bytes: &[u8],
    moment: u64,
) -> Result<(), AllocError>
    requires ready { IsReady settings.now (M.kept machine.old) files.now }
    ensures ready { OnOk result (IsReady settings.now (M.kept machine.new) files.now) }
    ensures start { (M.kept machine.new).start ≡ (M.kept machine.old).start }
    ensures asked { OnOk result (AsksAsOther settings.now who.now (world_of (M.kept machine.old) files.now) other.now request.now bytes.now moment (world_of (M.kept machine.new) files.now)) }
    ensures settled { OnErr result (Settles (M.kept machine.old).log (M.kept machine.new).log) }
{
    if !may_ask(settings, request, bytes) || *other == *who {
        return Ok(());
    }
    let _reply = ask_pool(alloc, machine, moment, other, request, bytes)?;
    Ok(())
}

/// Plays one turn.
fn play_turn<M: Machine>(
    alloc: Global,
    settings: &Settings,
    machine: &mut M,
    files: &mut SavedBatch,
    who: &Text,
    turn: &BatchTurn,
) -> Result<(), AllocError>
    requires ready { IsReady settings.now (M.kept machine.old) files.old }
    ensures ready { OnOk result (IsReady settings.now (M.kept machine.new) files.new) }
    ensures start { (M.kept machine.new).start ≡ (M.kept machine.old).start }
    ensures turned { OnOk result (Turned settings.now who.now (world_of (M.kept machine.old) files.old) turn.now (world_of (M.kept machine.new) files.new)) }
    ensures stopped { OnErr result (PlayedPart settings.now who.now (world_of (M.kept machine.old) files.old) (turn.now ∷ []) (M.kept machine.new).log files.new.batch) }
{
    match turn {
        BatchTurn::Send { moment } => send(alloc, settings, machine, files, who, *moment),
        BatchTurn::Lost { moment } => lose(alloc, settings, machine, files, who, *moment),
        BatchTurn::Stop { saved } => files.read_again(alloc, *saved),
        BatchTurn::Other {
            who: other,
            request,
            bytes,
            moment,
        } => ask_other(
            alloc,
            settings,
            machine,
            files,
            who,
            other,
            request,
            bytes.as_slice(),
            *moment,
        ),
    }
}

/// The progress of a batch, twice: as what is saved last, and as what was before.
fn begin<M: Machine>(alloc: Global, machine: &M, batch: &Batch) -> Result<(Text, Text), AllocError>
    ensures history { IsHistory (M.kept machine.now) }
    ensures few { length batch.now.lines ≤ 4096 }
    ensures good { AreMarks (length batch.now.lines) batch.now.marks }
    ensures saved { IfOk result (λ texts. texts.0 ≡ progress_text batch.now.head batch.now.marks) }
    ensures before { IfOk result (λ texts. texts.1 ≡ progress_text batch.now.head batch.now.marks) }
{
    // For the proof: a machine keeps a legal log, and a batch has few lines.
    let _length = machine.length();
    let _marks = batch.marks();
    let saved = progress_of(alloc, batch)?;
    let before = progress_of(alloc, batch)?;
    Ok((saved, before))
}

/// Plays turns of a batch of `who` over a machine, under settings that have its pool alone. What is
/// saved of the batch at the begin is its progress.
///
/// # Errors
///
/// Only want of memory. The machine and the batch come back as a part of the turns left them.
pub fn play_batch<M: Machine>(
    alloc: Global,
    settings: &Settings,
    mut machine: M,
    batch: Batch,
    who: &Text,
    turns: &[BatchTurn],
) -> Result<(M, Batch), (AllocError, M, Batch)>
    requires one { settings.now.pools ≡ (M.kept machine).pool.settings ∷ [] }
    requires filled { AreFilled (M.kept machine) }
    ensures played { IfOk result (λ left. PlayedTo settings.now who.now (world_at (M.kept machine) batch) turns.now (M.kept left.0).log left.1) }
    ensures stopped { IfErr result (λ left. PlayedPart settings.now who.now (world_at (M.kept machine) batch) turns.now (M.kept left.1).log left.2) }

    // More turns can be played.
    ensures one { IfOk result (λ left. settings.now.pools ≡ (M.kept left.0).pool.settings ∷ []) }
    ensures filled { IfOk result (λ left. AreFilled (M.kept left.0)) }

    // Nothing of the batch was sent before. Then each task is sent once.
    ensures once { IfOk result (λ left. IsUnsent who.now (M.kept machine).start (M.kept machine).log batch → AreSentOnce who.now (M.kept machine).log (M.kept left.0).log batch left.1) }
{
    let (saved, before) = match begin(alloc, &machine, &batch) {
        Ok(texts) => texts,
        Err(fault) => return Err((fault, machine, batch)),
    };
    let mut files = SavedBatch {
        batch,
        saved,
        before,
    };
    for turn in turns {
        match play_turn(alloc, settings, &mut machine, &mut files, who, turn) {
            Ok(()) => {}
            Err(fault) => return Err((fault, machine, files.into_batch())),
        }
    }
    Ok((machine, files.into_batch()))
}
