ghost use Rattle.std.specs.Prelude.{◌≡◌, ◌&&◌, ℕ, Bool, false, IsTrue, None, is_some, IfOk, OnOk, OnErr, IfSome, slice_get, option_map, Option};
ghost use Rattle.swarm_keeper.specs.Tables.{Tables, Counts, appended, replaced, bytes_of};

use dimensions::{Seq, Text};
use std::alloc::{AllocError, AllocFailed};

/// The SHA-256 of a content (FIPS 180-4).
pub type Digest = [u8; 32];

/// Why a keeper's call was not done.
#[derive(Clone, Copy, Debug, PartialEq, Eq)]
pub enum KeeperFault {
    Memory,
    /// The keeper failed, and counts it.
    Failed,
}

impl From<AllocError> for KeeperFault {
    ghost use Rattle.std.specs.Prelude.{◌≡◌};
    ghost use Rattle.swarm_keeper.specs.declared.keeper.KeeperFault.TheVariants.{Memory};

    ghost from_gives = { λ _ fault. fault ≡ Memory };

    fn from(_: AllocError) -> KeeperFault {
        KeeperFault::Memory
    }
}

impl<T: Drop> From<AllocFailed<T>> for KeeperFault {
    ghost use Rattle.std.specs.Prelude.{◌≡◌};
    ghost use Rattle.swarm_keeper.specs.declared.keeper.KeeperFault.TheVariants.{Memory};

    ghost from_gives = { λ _ fault. fault ≡ Memory };

    fn from(_: AllocFailed<T>) -> KeeperFault {
        KeeperFault::Memory
    }
}

/// What keeps the lines of one pool's base and of its log since then, and the bytes of its blobs.
///
/// What a failed call began is undone before anything else is kept or told: at once, or as a later
/// call begins, which fails until it is undone. Where it can't be undone until the keeper goes back
/// to its store, or the process is killed before, the next keeper may find it whole.
pub trait Keeper {
    /// What is kept, where the keeper tells it.
    ghost tables: { Self → Option Tables };

    /// How often a call of it failed.
    ghost faults: { Self → ℕ };

    /// Whether keepers of this type tell what they keep.
    ghost TELLS: { Bool };

    ghost tells: { (keeper : Self) → is_some (tables keeper) ≡ TELLS };

    ghost SURE: { Bool };

    /// Whether it never fails, and keeps and tells nothing.
    const SURE: bool;

    ghost sure_untold: { (SURE && TELLS) ≡ false };

    /// Keeps one more line of the log, with the bytes of a blob that it adds, and drops those of a
    /// blob that it removes: all of it or nothing. `bytes` are not looked at where no blob is added.
    fn append(
        &mut self,
        line: &str,
        add: Option<Digest>,
        bytes: &[u8],
        remove: Option<Digest>,
    ) -> Result<(), KeeperFault>
        ensures kept { OnOk result (tables self.new ≡ option_map (appended line.now add bytes.now remove) (tables self.old)) }
        ensures stays { OnErr result (tables self.new ≡ tables self.old) }
        ensures counts { Counts SURE (faults self.old) (faults self.new) result };

    /// Keeps the lines of another base, before which so many entries came, and drops the lines of
    /// the log: all of it or nothing. The blobs stay.
    fn replace(&mut self, base: &[Text], count: u64) -> Result<(), KeeperFault>
        ensures kept { OnOk result (tables self.new ≡ option_map (replaced base.now count) (tables self.old)) }
        ensures stays { OnErr result (tables self.new ≡ tables self.old) }
        ensures counts { Counts SURE (faults self.old) (faults self.new) result };

    /// How many entries came before the base.
    fn count(&mut self) -> Result<u64, KeeperFault>
        ensures count { IfOk result (λ count. IfSome (tables self.old) (λ t. count ≡ t.count)) }
        ensures stays { tables self.new ≡ tables self.old }
        ensures counts { Counts SURE (faults self.old) (faults self.new) result }
        ensures sure { IsTrue SURE → IfOk result (λ count. count ≡ 0) };

    /// The line of the base at a place, from 0.
    fn base_line(&mut self, at: u64) -> Result<Option<Text>, KeeperFault>
        ensures line { IfOk result (λ line. IfSome (tables self.old) (λ t. line ≡ slice_get t.base at)) }
        ensures stays { tables self.new ≡ tables self.old }
        ensures counts { Counts SURE (faults self.old) (faults self.new) result }
        ensures sure { IsTrue SURE → IfOk result (λ line. line ≡ None) };

    /// The line of the log at a place, from 0.
    fn line(&mut self, at: u64) -> Result<Option<Text>, KeeperFault>
        ensures line { IfOk result (λ line. IfSome (tables self.old) (λ t. line ≡ slice_get t.lines at)) }
        ensures stays { tables self.new ≡ tables self.old }
        ensures counts { Counts SURE (faults self.old) (faults self.new) result }
        ensures sure { IsTrue SURE → IfOk result (λ line. line ≡ None) };

    /// The bytes of a blob.
    fn blob(&mut self, digest: &Digest) -> Result<Option<Seq<u8>>, KeeperFault>
        ensures bytes { IfOk result (λ bytes. IfSome (tables self.old) (λ t. bytes ≡ bytes_of t.blobs digest.now)) }
        ensures stays { tables self.new ≡ tables self.old }
        ensures counts { Counts SURE (faults self.old) (faults self.new) result }
        ensures sure { IsTrue SURE → IfOk result (λ bytes. bytes ≡ None) };
}
