ghost use Rattle.std.specs.Prelude.{◌≡◌, ◌^◌, length, Some, None, IsTrue, IfOk, IfSome, OnOk, OnErr, option_map};
ghost use Rattle.std.specs.Option.{option_copied};
ghost use Rattle.sha2.specs.Sha256.{sha256};
ghost use Rattle.content_store.specs.Contents.{bytes_of};
ghost use Rattle.swarm_model.specs.BaseRules.{IsBase};
ghost use Rattle.swarm_model.specs.Bytes.{nothing_held, brings, filled, held_after, held_after_fill};
ghost use Rattle.swarm_model.specs.Effects.{after};
ghost use Rattle.swarm_model.specs.Finding.{blob_placed, has_blob};
ghost use Rattle.swarm_model.specs.History.{tally};
ghost use Rattle.swarm_model.specs.Settings.{keeps_rules};
ghost use Rattle.pool_log.specs.Reached.{MayComeNext};

use blob_rows::Filled;
use pool_queries::PoolQueries;
use std::alloc::{AllocError, Global};
use swarm_model::{BlobRow, Entry, PoolState};
use task_props::Digest;

/// The rows of a pool, which its log changes entry by entry, and the bytes of its blobs.
///
/// Only `of_rows` and `reserve` take memory.
pub trait PoolRows: PoolQueries + Sized + Drop {
    ghost use Rattle.std.specs.Prelude.{List, Option};
    ghost use Rattle.content_store.specs.Contents.{Content};
    ghost use Rattle.swarm_model.specs.declared.entry.Entry.{Entry};

    /// The entry for which all lies ready.
    ghost ready: { Self → Option Entry };

    /// The contents that are held.
    ghost held: { Self → List Content };

    /// The rows of a base. Nothing is ready, and no bytes are held.
    fn of_rows(alloc: Global, base: &PoolState) -> Result<Self, AllocError>
        requires rules { IsTrue (keeps_rules base.now.settings) }
        requires base { IsBase base.now.settings (2 ^ 31) base.now }
        ensures state { IfOk result (λ rows. Self.state rows ≡ base.now) }
        ensures ready { IfOk result (λ rows. ready rows ≡ None) }
        ensures held { IfOk result (λ rows. bytes_of (held rows) ≡ nothing_held) };

    /// Nothing is ready any more.
    fn release(&mut self)
        ensures state { Self.state self.new ≡ Self.state self.old }
        ensures ready { ready self.new ≡ None }
        ensures held { held self.new ≡ held self.old };

    /// Makes ready all that the entry changes, so that `apply` takes no memory.
    fn reserve(&mut self, entry: &Entry) -> Result<(), AllocError>
        ensures state { Self.state self.new ≡ Self.state self.old }
        ensures ok { OnOk result (ready self.new ≡ Some entry.now) }
        ensures err { OnErr result (ready self.new ≡ None) }
        ensures held { held self.new ≡ held self.old };

    /// What the entry does, for which all lies ready. `bytes` are those of the content that is put, or
    /// of the chunk that is reported; they are held where the entry places a blob.
    fn apply(&mut self, entry: &Entry, bytes: Option<&[u8]>)
        requires ready { ready self.old ≡ Some entry.now }
        requires next { MayComeNext (Self.state self.old) entry.now }
        requires bytes { IfSome bytes (λ b. brings entry.now.kind ≡ Some (sha256 b.now, length b.now)) }
        ensures state { Self.state self.new ≡ after (Self.state self.old) entry.now }
        ensures ready { ready self.new ≡ None }
        ensures held { bytes_of (held self.new) ≡ held_after (Self.state self.old) entry.now.kind (option_map (λ b. b.now) bytes.entry) (bytes_of (held self.old)) };

    /// Brings the bytes of a blob. Nothing is ready any more.
    fn fill(&mut self, digest: &Digest, bytes: &[u8]) -> Filled
        ensures told { result ≡ filled (Self.state self.old) digest.now bytes.now }
        ensures state { Self.state self.new ≡ Self.state self.old }
        ensures ready { ready self.new ≡ None }
        ensures held { bytes_of (held self.new) ≡ held_after_fill result digest.now bytes.now (bytes_of (held self.old)) };

    /// The bytes that are held under the digest.
    fn bytes(&self, digest: &Digest) -> Option<&[u8]>
        ensures held { option_map (λ b. b.now) result ≡ bytes_of (held self.now) digest.now }
        ensures named { IfSome result (λ b. sha256 b.now ≡ digest.now) }
        ensures sized { IfSome result (λ b. IsTrue (has_blob (Self.state self.now) digest.now (length b.now))) };

    /// How many tasks are in each of the nine states.
    fn tally(&self) -> [u64; 9]
        ensures { result ≡ tally (Self.state self.now) };

    /// The moment of the last entry; where there is none, that of the base.
    fn last(&self) -> u64
        ensures { result ≡ (Self.state self.now).last };

    /// How many blobs were ever placed.
    fn placed(&self) -> u32
        ensures { result ≡ (Self.state self.now).placed };

    /// The blob row at this place, from 0.
    fn blob_at(&self, at: u32) -> Option<&BlobRow>
        ensures { option_copied result ≡ blob_placed (Self.state self.now) at };
}
