ghost use Rattle.std.specs.Prelude.{◌≡◌, IfOk, IfSome, slice_get, length, Option};
ghost use Rattle.swarm_keeper.specs.Tables.{Tables, replaced, bytes_of};
ghost use Rattle.sqlite_keeper.specs.Files.{Changes, IsLast, changed_by};

use crate::changes::Change;
use crate::known::Place;
use crate::opened_tables::OpenedTables;
use dimensions::{Seq, Text};
use sqlite::Error;
use swarm_keeper::Digest;

/// The file of a pool, open or shut. Each call on it is one transaction. One that fails may stand in the file
/// or not, and then the file may be of no more use until it is opened anew.
pub(crate) trait PoolFile: Drop {
    /// What stands in the file, where it tells it.
    ghost stands: { Self → Option Tables };

    /// Opens it, and locks it against all others. It is made where there is none.
    fn open(&mut self) -> Result<(), Error>
        ensures { stands self.new ≡ stands self.old };

    fn shut(&mut self)
        ensures { stands self.new ≡ stands self.old };

    /// Copies the log beside the file into it, and shuts it. A failure loses nothing: the log is read again
    /// when the file is opened.
    fn close(&mut self) -> Result<(), Error>
        ensures { stands self.new ≡ stands self.old };

    /// Where a file lies at its path.
    fn place(&self) -> Result<Place, Error>;

    /// Looks at the tables and at the type of each value in them. They are made where the file has no table
    /// at all, and those of the first version become those of the second. Other tables beside them and
    /// further rows of `meta` are left alone.
    fn open_tables(&mut self) -> Result<OpenedTables, Error>;

    /// Adds a line or drops the last one, after it changes two blobs.
    fn change(&mut self, change: &Change<'_>) -> Result<(), Error>
        requires { IfSome (stands self.old) (λ t. IsLast change.now.line (length t.lines)) }
        ensures { Changes result (stands self.old) (stands self.new) (changed_by change.now) };

    /// Keeps the lines of a base and the count of the entries before it, and deletes all other lines. The
    /// blobs stay.
    fn replace(&mut self, base: &[Text], count: u64) -> Result<(), Error>
        ensures { Changes result (stands self.old) (stands self.new) (replaced base.now count) };

    fn count(&mut self) -> Result<u64, Error>
        ensures count { IfOk result (λ count. IfSome (stands self.old) (λ t. count ≡ t.count)) }
        ensures stays { stands self.new ≡ stands self.old };

    fn base_lines(&mut self) -> Result<u64, Error>
        ensures lines { IfOk result (λ lines. IfSome (stands self.old) (λ t. lines ≡ length t.base)) }
        ensures stays { stands self.new ≡ stands self.old };

    fn lines(&mut self) -> Result<u64, Error>
        ensures lines { IfOk result (λ lines. IfSome (stands self.old) (λ t. lines ≡ length t.lines)) }
        ensures stays { stands self.new ≡ stands self.old };

    /// The line of the base at a place, from 0.
    fn base_line(&mut self, at: u64) -> Result<Option<Text>, Error>
        ensures line { IfOk result (λ line. IfSome (stands self.old) (λ t. line ≡ slice_get t.base at)) }
        ensures stays { stands self.new ≡ stands self.old };

    /// The line of the log at a place, from 0.
    fn line(&mut self, at: u64) -> Result<Option<Text>, Error>
        ensures line { IfOk result (λ line. IfSome (stands self.old) (λ t. line ≡ slice_get t.lines at)) }
        ensures stays { stands self.new ≡ stands self.old };

    fn blob(&mut self, digest: &Digest) -> Result<Option<Seq<u8>>, Error>
        ensures bytes { IfOk result (λ bytes. IfSome (stands self.old) (λ t. bytes ≡ bytes_of t.blobs digest.now)) }
        ensures stays { stands self.new ≡ stands self.old };
}
