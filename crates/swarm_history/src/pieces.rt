ghost use Rattle.std.specs.Prelude.{◌≡◌, length, IsTrue, IfOk, is_some};
ghost use Rattle.std.specs.List.{All, AllZip};
ghost use Rattle.sha2.specs.Sha256.{sha256};
ghost use Rattle.swarm_model.specs.Finding.{has_blob};
ghost use Rattle.swarm_model.specs.MachineState.{AreHeld};
ghost use Rattle.pool_doors.specs.Doors.{ArePieces, IsPieceOf};
ghost use Rattle.pool_laws.specs.NamedBlobs.{HasPart, HasNamed};

use dimensions::Seq;
use std::alloc::{AllocError, Global};
use swarm_model::{Machine, Part, Reply};
use task_props::Digest;

/// A copy of the bytes that a machine holds under a digest.
fn piece_of<M: Machine>(alloc: Global, machine: &M, digest: &Digest) -> Result<Seq<u8>, AllocError>
    requires { IsTrue (is_some ((M.kept machine.now).held digest.now)) }
    ensures named { IfOk result (λ piece. sha256 piece ≡ digest.now) }
    ensures sized { IfOk result (λ piece. IsTrue (has_blob (M.kept machine.now).pool digest.now (length piece))) }
{
    let bytes = machine.bytes(digest).unwrap();
    Ok(Seq::from_vec(Vec::from_slice(alloc, bytes)?))
}

/// A copy of each part's blob, in their order.
fn pieces_of_parts<M: Machine>(
    alloc: Global,
    machine: &M,
    parts: &[Part],
) -> Result<Seq<Seq<u8>>, AllocError>
    requires held { AreHeld (M.kept machine.now) }
    requires present { All (HasPart (M.kept machine.now).pool) parts.now }
    ensures { IfOk result (AllZip IsPieceOf parts.now) }
{
    let mut pieces = Vec::new(alloc);
    for part in parts {
        let piece = piece_of(alloc, machine, &part.digest)?;
        pieces.push(piece)?;
    }
    Ok(Seq::from_vec(pieces))
}

/// Copies of the blobs that a reply names, in their order.
pub fn pieces_of<M: Machine>(
    alloc: Global,
    machine: &M,
    reply: &Reply,
) -> Result<Seq<Seq<u8>>, AllocError>
    requires held { AreHeld (M.kept machine.now) }
    requires present { HasNamed (M.kept machine.now).pool reply.now }
    ensures { IfOk result (ArePieces reply.now) }
{
    match reply {
        Reply::Stdout { parts, .. } => pieces_of_parts(alloc, machine, parts.as_slice()),
        Reply::Blob { digest, .. } => {
            let piece = piece_of(alloc, machine, digest)?;
            Ok(Seq::from_vec(vec![in alloc; piece]?))
        }
        _ => Ok(Seq::new(alloc)),
    }
}
