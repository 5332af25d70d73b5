//! What a machine is asked, and what it answers.
ghost use Rattle.std.specs.Prelude.{◌≡◌, ◌==◌, ◌&&◌, length, true, IfOk, OnErr};
ghost use Rattle.sha2.specs.Sha256.{sha256};
ghost use Rattle.dimensions.specs.Alike.{same};
ghost use Rattle.swarm_model.specs.Fits.{fits as spec_fits};
ghost use Rattle.pool_loading.specs.Records.{AreFilled};
ghost use Rattle.bot_worlds.specs.Pool.{IsCalled, call_by, carries as spec_carries, is_of_bot as spec_is_of_bot};
ghost use Rattle.bot_worlds.specs.Turns.{Settles};

use dimensions::Text;
use pool_doors::CallFault;
use request_fits::fits;
use sha2::{Digest as Hash, Sha256};
use std::alloc::{AllocError, Global};
use swarm_history::serve_unkept;
use swarm_model::{Machine, Reply, Request, Rule};
use task_props::Digest;

fn is_content(digest: &Digest, size: u32, bytes: &[u8]) -> bool
    ensures { result ≡ (same digest.now (sha256 bytes.now) && (size == length bytes.now)) }
{
    *digest == Sha256::digest(bytes) && size as usize == bytes.len()
}

/// Whether these are the bytes that come with the request.
fn carries(request: &Request, bytes: &[u8]) -> bool
    ensures { result ≡ spec_carries request.now bytes.now }
{
    match request {
        Request::PutBlob { actual, size, .. } => is_content(actual, *size, bytes),
        Request::Update { chunk, .. } => match chunk {
            None => true,
            Some(chunk) => is_content(&chunk.digest, chunk.size, bytes),
        },
        _ => true,
    }
}

/// Whether a bot of this name asks as a bot.
pub(crate) fn is_of_bot(name: &Text, request: &Request) -> bool
    ensures { result ≡ spec_is_of_bot name.now request.now }
{
    match request {
        Request::Handshake { bot, .. } => *bot == *name,
        Request::Poll { bot, .. } => *bot == *name,
        Request::Claim { bot, .. } => *bot == *name,
        Request::Event { bot, .. } => *bot == *name,
        Request::Update { bot, .. } => *bot == *name,
        _ => false,
    }
}

/// Whether the machine may be asked so.
pub(crate) fn may_ask<M: Machine>(machine: &M, request: &Request, bytes: &[u8]) -> bool
    ensures { result ≡ (spec_fits (M.kept machine.now).start.rows.settings request.now && spec_carries request.now bytes.now) }
{
    fits(&machine.base().settings, request) && carries(request, bytes)
}

/// Settles what is due and answers the request. A log that has no room for the entry that comes next
/// is told so.
///
/// # Errors
///
/// Only want of memory. What was settled before it stays in the log.
pub(crate) fn ask<M: Machine>(
    alloc: Global,
    machine: &mut M,
    moment: u64,
    who: &Text,
    request: &Request,
    bytes: &[u8],
) -> Result<Reply, AllocError>
    requires filled { AreFilled (M.kept machine.old) }
    requires may { (spec_fits (M.kept machine.old).start.rows.settings request.now && spec_carries request.now bytes.now) ≡ true }
    ensures filled { AreFilled (M.kept machine.new) }
    ensures start { (M.kept machine.new).start ≡ (M.kept machine.old).start }
    ensures called { IfOk result (λ answered. IsCalled (M.kept machine.old).start (call_by who.now moment request.now) (M.kept machine.old).log (M.kept machine.new).log answered) }
    ensures settles { OnErr result (Settles (M.kept machine.old).start (M.kept machine.old).log (M.kept machine.new).log) }
{
    // For the proof: the machine keeps a legal log.
    let _length = machine.length();
    match serve_unkept(alloc, machine, moment, who, request, bytes) {
        Ok(answered) => Ok(answered.reply),
        Err(CallFault::LogFull) => Ok(Reply::No(Rule::LogFull)),
        Err(CallFault::Memory) => Err(AllocError),
        Err(CallFault::Keeper) => unreachable!(),
    }
}
