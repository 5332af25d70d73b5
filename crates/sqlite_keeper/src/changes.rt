ghost use Rattle.std.specs.Prelude.{◌≡◌, ℕ, List, IfSome};
ghost use Rattle.swarm_keeper.specs.Tables.{appended, without, with_blob};
ghost use Rattle.sqlite_keeper.specs.Files.{Changes, Knows, put, put_back, taken_out};

use crate::known::{Begun, BlobBefore};
use crate::pool_file::PoolFile;
use sqlite::Error;
use swarm_keeper::Digest;

/// The bytes that a digest gets, or that it is dropped.
#[derive(Clone, Copy)]
pub(crate) struct BlobChange<'a> {
    pub digest: Digest,
    pub bytes: Option<&'a [u8]>,
}

#[derive(Clone, Copy)]
pub(crate) enum LineChange<'a> {
    Add(&'a str),
    /// The line of this number, from 1, is the last one.
    DropLast(u64),
}

/// What becomes of two blobs, one after the other, and of the lines of a log.
#[derive(Clone, Copy)]
pub(crate) struct Change<'a> {
    pub first: Option<BlobChange<'a>>,
    pub second: Option<BlobChange<'a>>,
    pub line: LineChange<'a>,
}

fn dropped<'a>(remove: Option<Digest>) -> Option<BlobChange<'a>>
    ensures { (blobs : List (List ℕ × List ℕ)) → put result blobs ≡ without remove blobs }
{
    match remove {
        Some(digest) => Some(BlobChange {
            digest,
            bytes: None,
        }),
        None => None,
    }
}

fn added<'a>(add: Option<Digest>, bytes: &'a [u8]) -> Option<BlobChange<'a>>
    ensures { (blobs : List (List ℕ × List ℕ)) → put result blobs ≡ with_blob add bytes.now blobs }
{
    match add {
        Some(digest) => Some(BlobChange {
            digest,
            bytes: Some(bytes),
        }),
        None => None,
    }
}

fn back<'a>(before: &'a Option<BlobBefore>) -> Option<BlobChange<'a>>
    ensures { (blobs : List (List ℕ × List ℕ)) → put result blobs ≡ put_back before.now blobs }
{
    match before {
        Some(blob) => Some(BlobChange {
            digest: blob.digest,
            bytes: match &blob.bytes {
                Some(bytes) => Some(bytes.as_slice()),
                None => None,
            },
        }),
        None => None,
    }
}

/// Keeps a line, after it removes a blob and adds one.
pub(crate) fn append<F: PoolFile>(
    file: &mut F,
    line: &str,
    add: Option<Digest>,
    bytes: &[u8],
    remove: Option<Digest>,
) -> Result<(), Error>
    ensures { Changes result (F.stands file.old) (F.stands file.new) (appended line.now add bytes.now remove) }
{
    file.change(&Change {
        first: dropped(remove),
        second: added(add, bytes),
        line: LineChange::Add(line),
    })
}

/// Takes out what stands there of a call that added the last line.
pub(crate) fn take_out<F: PoolFile>(file: &mut F, begun: &Begun) -> Result<(), Error>
    requires { IfSome (F.stands file.old) (Knows begun.now.known) }
    ensures { Changes result (F.stands file.old) (F.stands file.new) (taken_out begun.now) }
{
    file.change(&Change {
        first: back(&begun.added),
        second: back(&begun.removed),
        line: LineChange::DropLast(begun.known.lines),
    })
}
