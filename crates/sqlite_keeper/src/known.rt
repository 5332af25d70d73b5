use dimensions::{Seq, Text};
use sqlite::{Error, ErrorCode};
use std::alloc::Global;
use swarm_keeper::Digest;

/// Where a file lies on the disk, whatever its name.
#[derive(Clone, Copy, PartialEq, Eq)]
pub(crate) struct Place {
    pub device: u64,
    pub inode: u64,
}

/// Where a file lies, how much it has, and its last line: by these it is known again.
#[derive(Drop)]
pub(crate) struct Known {
    pub place: Place,
    pub count: u64,
    pub base_lines: u64,
    pub lines: u64,
    /// The last line of the log, empty where there is none.
    pub last: Text,
}

impl Known {
    ghost use Rattle.std.specs.Prelude.{◌≡◌, IsTrue, IfOk, suc};
    ghost use Rattle.sqlite_keeper.specs.Files.{has_numbers_of as same_numbers};

    /// Whether both have as many lines, and as many entries before them.
    pub fn has_numbers_of(&self, other: &Known) -> bool
        ensures { result ≡ same_numbers self.now other.now }
    {
        self.count == other.count
            && self.base_lines == other.base_lines
            && self.lines == other.lines
    }

    pub fn is(&self, other: &Known) -> bool
        ensures { IsTrue result → IsTrue (same_numbers self.now other.now) }
    {
        if self.place == other.place && self.last == other.last {
            return self.has_numbers_of(other);
        }
        false
    }

    /// The same file with one more line.
    pub fn after(&self, alloc: Global, line: &str) -> Result<Known, Error>
        ensures count { IfOk result (λ known. known.count ≡ self.now.count) }
        ensures base_lines { IfOk result (λ known. known.base_lines ≡ self.now.base_lines) }
        ensures lines { IfOk result (λ known. known.lines ≡ suc self.now.lines) }
    {
        let Some(lines) = self.lines.checked_add(1) else {
            return Err(Error::SqliteFailure(ErrorCode::TooBig));
        };
        Ok(Known {
            place: self.place,
            count: self.count,
            base_lines: self.base_lines,
            lines,
            last: Text::from_str(alloc, line)?,
        })
    }
}

/// What a digest had in a file, if it was there.
#[derive(Drop)]
pub(crate) struct BlobBefore {
    pub digest: Digest,
    pub bytes: Option<Seq<u8>>,
}

/// What a file is where a call stands in it that adds a line, and what it had of the blobs of the call
/// before.
#[derive(Drop)]
pub(crate) struct Begun {
    pub known: Known,
    pub added: Option<BlobBefore>,
    pub removed: Option<BlobBefore>,
}
