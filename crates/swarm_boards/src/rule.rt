//! What the views and the poster know of the published entries, and the rule that ties it to the copies.
ghost use Rattle.swarm_boards.specs.Published.{Keeps, newcomer, Shows, Publishes, informed};

use atomic_table::{Join, Split};
use crossbeam_utils::rule::{Outcome, Protocol};
use left_right::reader::Reader;
use left_right::writer::Writer;
use row_copies::RowCopy;
use std::collections::LinkedList;
use swarm_model::{Entry, PoolState};

/// What one reader, or the writer, knows. No value of it is made.
pub struct Seen {
    /// The rows from which the copies began, where they are known.
    pub base: Option<PoolState>,
    /// The published entries that it saw last.
    pub seen: LinkedList<Entry>,
    /// The lists of published entries of which it was told.
    pub told: LinkedList<LinkedList<Entry>>,
}

/// The copy that is shown goes on from all that anyone has seen or was told.
pub struct Published;

impl Protocol<RowCopy, Seen> for Published {
    ghost holds = { Keeps };

    ghost first = { newcomer };
}

/// A reader sees what is published.
pub(crate) struct Sees;

impl Outcome<RowCopy, Seen> for Sees {
    ghost then = { Shows };
}

/// The writer shows a copy, and knows what it shows.
pub(crate) struct Publishing;

impl Outcome<RowCopy, Seen> for Publishing {
    ghost then = { Publishes };
}

/// A reader is told what the writer knows. The writer knows it still.
pub(crate) struct Telling;

impl Split<Seen> for Telling {
    ghost left = { λ v. v };

    ghost right = { λ v. v };
}

impl Join<Seen> for Telling {
    ghost both = { informed };

    ghost spent = { newcomer };
}

pub(crate) type CopyReader = Reader<RowCopy, Seen, Published>;

pub(crate) type CopyWriter = Writer<RowCopy, Entry, Seen, Published>;
