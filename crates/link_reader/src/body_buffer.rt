ghost use Rattle.std.specs.Prelude.{◌≡◌, ◌≤◌, ◌<◌, None, IfOk, vec_capacity};
ghost use Rattle.sw_base.specs.Link.{IsClean};
ghost use Rattle.link_reader.specs.Pieces.{TakesPiece};

use crate::pending::read_at;
use std::alloc::{AllocError, Global};
use std::marker::Model;
use sw_base::{Failed, Link};

// How much room a read of a body has, at most.
const ROOM_LIMIT: usize = 65536;

// The most bytes that one read takes of a body that isn't kept.
const PIECE_LIMIT: usize = 4096;

/// The bytes of a body that have come, as long as there is memory for all of them. Contracts see
/// the bytes, or none from the moment on when there was no memory.
#[derive(Drop)]
pub struct BodyBuffer {
    // What has come is the first `filled` of these. The others are room for the next read, and
    // each was set to zero once.
    bytes: Vec<u8>,
    filled: usize,
    whole: bool,
}

impl Model for BodyBuffer {
    ghost use Rattle.std.specs.Prelude.{ℕ, ◌≤◌, List, length, take, Option, Some, None, if◌then◌else◌};

    ghost Value = { Option (List ℕ) };

    ghost view = { λ b. if b.whole then Some (take b.filled b.bytes.items) else None };

    ghost invariant = { λ b. b.filled ≤ length b.bytes.items };
}

impl BodyBuffer {
    ghost use Rattle.std.specs.Prelude.{◌≡◌, ◌≤◌, ◌<◌, ℕ, List, length, option_map};
    ghost use Rattle.sw_base.specs.Link.{IsClean};
    ghost use Rattle.link_reader.specs.Pieces.{IsKept, TakesPiece};

    /// Reserves the `size` bytes of a body at once, of which those of `front` have come.
    pub fn new(alloc: Global, size: usize, front: &[u8]) -> BodyBuffer
        ensures { IsKept result front.now }
    {
        match reserved(alloc, size, front) {
            Ok(bytes) => BodyBuffer {
                bytes,
                filled: front.len(),
                whole: true,
            },
            Err(_) => BodyBuffer {
                bytes: Vec::new(alloc),
                filled: 0,
                whole: false,
            },
        }
    }

    /// Reads once: `most` bytes at most, and 0 at the end of the input.
    pub fn read<L: Link>(&mut self, link: &mut L, most: usize) -> Result<usize, Failed>
        requires some { 0 < most }
        requires clean { IsClean (L.state link.old) }
        ensures { TakesPiece (L.state link.old) (L.state link.new) self.old self.new most result }
    {
        let room = most.min(ROOM_LIMIT);
        if !self.whole || self.bytes.resize(self.filled + room, 0).is_err() {
            self.whole = false;
            return skip_piece(link, most);
        }
        let n = read_at(&mut self.bytes, self.filled, link)?;
        self.filled += n;
        Ok(n)
    }

    pub fn into_bytes(self) -> Option<Vec<u8>>
        ensures { option_map (λ v. v.items) result ≡ self }
    {
        let BodyBuffer {
            mut bytes,
            filled,
            whole,
        } = self;
        bytes.truncate(filled);
        if whole { Some(bytes) } else { None }
    }
}

/// `front`, with room for `size` bytes in all.
fn reserved(alloc: Global, size: usize, front: &[u8]) -> Result<Vec<u8>, AllocError>
    ensures bytes { IfOk result (λ v. v.items ≡ front.now) }
    ensures room { IfOk result (λ v. size ≤ vec_capacity v) }
{
    let mut bytes = Vec::with_capacity(alloc, size)?;
    bytes.extend_from_slice(front)?;
    Ok(bytes)
}

/// Reads once and forgets what came: `most` bytes at most. A function of its own, so that reads
/// into a buffer don't pay for `piece`.
#[cold]
#[inline(never)]
fn skip_piece<L: Link>(link: &mut L, most: usize) -> Result<usize, Failed>
    requires some { 0 < most }
    requires clean { IsClean (L.state link.old) }
    ensures { TakesPiece (L.state link.old) (L.state link.new) None None most result }
{
    let mut piece = [0u8; PIECE_LIMIT];
    let room = most.min(PIECE_LIMIT);
    link.read(&mut piece[..room])
}
