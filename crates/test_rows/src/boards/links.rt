//! Links of a row.
ghost use Rattle.std.specs.Prelude.{IfOk};
ghost use Rattle.sw_base.specs.Link.{IsClean};

use std::alloc::{AllocError, Global};
use sw_base::{Link, MemoryLink};
use test_transcript_reader::{Conversation, TranscriptError, compare_link};

/// How many bytes a call of a link moves at most.
const PIECE: usize = 4096;

/// A link that gives what is sent over a connection; nothing where there is none.
pub(crate) fn link_of(
    alloc: Global,
    connection: Option<&Conversation>,
) -> Result<MemoryLink, AllocError>
    ensures { IfOk result (λ link. IsClean (⟦<MemoryLink as Link>⟧.state link)) }
{
    let mut input = Vec::new(alloc);
    if let Some(connection) = connection {
        input.extend_from_slice(connection.input.as_slice())?;
    }
    Ok(MemoryLink::new(alloc, input, PIECE, Vec::new(alloc)))
}

/// Compares what was written to the link of a connection with its rows.
pub(crate) fn compare(
    alloc: Global,
    connection: Option<&Conversation>,
    link: &MemoryLink,
) -> Result<(), TranscriptError> {
    match connection {
        Some(connection) => compare_link(alloc, connection, link.output()),
        None => Ok(()),
    }
}
