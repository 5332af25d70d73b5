//! Upload: the outputs of a run are collected and put.
ghost use Rattle.std.specs.Prelude.{◌≡◌, IfOk, OnOk, IsSome};
ghost use Rattle.sha2.specs.Sha256.{sha256};
ghost use Rattle.bot_turns.specs.ServerTurns.{OfRun};
ghost use Rattle.bot_turns.specs.Ends.{StillTells};
ghost use Rattle.bot_turns.specs.Outputs.{put_reply as spec_put_reply, put_result as spec_put_result, PutsBytes, UploadsOutput, then_file, Uploads, IsUploadTurn};

use crate::events::refusal_event;
use bot_core::BotEvent;
use bot_requests::{Hands, put_blob_request};
use dimensions::{Seq, Text, TryCopy};
use routes::Route;
use runners::{CollectFault, Runner};
use server_calls::{Exchanged, Told, exchange};
use sha2::{Digest as Hash, Sha256};
use std::alloc::{AllocError, Global};
use sw_base::Dialer;
use swarm_model::Reply;
use task_props::{Digest, File};

/// How long a file may be: a blob of the pool is no longer.
const MOST_COLLECTED: u64 = 16_777_216;

fn put_reply(reply: &Reply) -> Result<(), BotEvent>
    ensures { result ≡ spec_put_reply reply.now }
{
    match reply {
        Reply::Put { .. } => Ok(()),
        _ => Err(BotEvent::Lost),
    }
}

fn put_result(exchanged: &Exchanged) -> Option<Result<(), BotEvent>>
    ensures { result ≡ spec_put_result exchanged.now }
{
    match exchanged {
        Exchanged::Told(Told::Good { reply, .. }) => Some(put_reply(reply)),
        Exchanged::Told(Told::No { code, .. }) => Some(Err(refusal_event(*code))),
        Exchanged::NoReply | Exchanged::Lost => Some(Err(BotEvent::Lost)),
        Exchanged::Memory => None,
    }
}

fn put_bytes<W: Dialer>(
    alloc: Global,
    hands: &Hands,
    dialer: &mut W,
    digest: &Digest,
    bytes: &[u8],
) -> Result<Result<(), BotEvent>, AllocError>
    requires { digest.now ≡ sha256 bytes.now }
    ensures { IfOk result (λ r. PutsBytes hands.now bytes.now r (W.state dialer.old) (W.state dialer.new)) }
{
    let request = put_blob_request(alloc, hands, digest, bytes)?;
    let address = hands.address.as_str();
    let exchanged = exchange(alloc, dialer, address, request.as_slice(), Route::PutBlob);
    put_result(&exchanged).ok_or(AllocError)
}

/// The file of an output, where it can be collected.
#[tactic(auto, using(crate::proofs::TellLemmas::collects_tells))]
fn upload_output<W: Dialer, R: Runner>(
    alloc: Global,
    hands: &Hands,
    dialer: &mut W,
    runner: &mut R,
    path: &Text,
) -> Result<Result<Option<File>, BotEvent>, AllocError>
    ensures puts { IfOk result (λ r. UploadsOutput hands.now path.now r (W.state dialer.old) (W.state dialer.new) (R.state runner.old) (R.state runner.new)) }
    ensures tells { StillTells (R.state runner.old) (R.state runner.new) }
{
    let bytes = match runner.collect(path, MOST_COLLECTED) {
        Ok(Some(bytes)) => bytes,
        Ok(None) => return Ok(Ok(None)),
        Err(CollectFault::Memory) => return Err(AllocError),
        Err(_) => return Ok(Ok(None)),
    };
    let digest = Sha256::digest(bytes.as_slice());
    if let Err(event) = put_bytes(alloc, hands, dialer, &digest, bytes.as_slice())? {
        return Ok(Err(event));
    }
    Ok(Ok(Some(File {
        path: path.try_copy(alloc)?,
        digest,
        size: bytes.as_slice().len() as u32,
    })))
}

fn push_file(files: &mut Seq<File>, file: Option<File>) -> Result<(), AllocError>
    ensures { OnOk result (files.new ≡ then_file files.old file) }
{
    if let Some(file) = file {
        files.try_push(file)?;
    }
    Ok(())
}

/// The files of outputs, and the event that ended the upload, where one did.
#[tactic(auto, using(crate::proofs::UploadLemmas::uploaded_at, crate::proofs::UploadLemmas::ended_at, crate::proofs::TellLemmas::tells_on))]
fn upload_all<W: Dialer, R: Runner>(
    alloc: Global,
    hands: &Hands,
    dialer: &mut W,
    runner: &mut R,
    paths: &[Text],
) -> Result<(Seq<File>, Option<BotEvent>), AllocError>
    ensures puts { IfOk result (λ r. Uploads r.1 hands.now paths.now r.0 (W.state dialer.old) (W.state dialer.new) (R.state runner.old) (R.state runner.new)) }
    ensures tells { StillTells (R.state runner.old) (R.state runner.new) }
{
    let mut files = Seq::new(alloc);
    for path in paths {
        match upload_output(alloc, hands, dialer, runner, path)? {
            Ok(file) => push_file(&mut files, file)?,
            Err(event) => return Ok((files, Some(event))),
        }
    }
    Ok((files, None))
}

fn upload_of_run<W: Dialer, R: Runner>(
    alloc: Global,
    hands: &Hands,
    dialer: &mut W,
    runner: &mut R,
) -> Result<(Seq<File>, Option<BotEvent>), AllocError>
    requires { IsSome hands.now.run }
    ensures puts { IfOk result (λ r. OfRun hands.now.run (λ run p. Uploads r.1 hands.now p.outputs r.0 (W.state dialer.old) (W.state dialer.new) (R.state runner.old) (R.state runner.new))) }
    ensures tells { StillTells (R.state runner.old) (R.state runner.new) }
{
    let Some((_, properties)) = &hands.run else {
        unreachable!()
    };
    upload_all(alloc, hands, dialer, runner, properties.outputs.as_slice())
}

pub(crate) fn upload_outputs<W: Dialer, R: Runner>(
    alloc: Global,
    hands: &mut Hands,
    dialer: &mut W,
    runner: &mut R,
) -> Result<BotEvent, AllocError>
    requires { IsSome hands.old.run }
    ensures turn { IfOk result (λ e. IsUploadTurn hands.old e (W.state dialer.old) (W.state dialer.new) (R.state runner.old) (R.state runner.new) hands.new) }
    ensures tells { StillTells (R.state runner.old) (R.state runner.new) }
{
    let (files, ended) = upload_of_run(alloc, hands, dialer, runner)?;
    hands.files = files;
    Ok(ended.unwrap_or(BotEvent::Uploaded))
}
