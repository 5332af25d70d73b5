ghost use Rattle.std.specs.Prelude.{◌≡◌, ◌≤◌, ◌+◌, length, IfOk, IsNone};
ghost use Rattle.std.specs.Option.{option_copied};
ghost use Rattle.swarm_model.specs.Blobs.{probe};
ghost use Rattle.swarm_model.specs.Finding.{blob_of, blob_numbered};
ghost use Rattle.swarm_model.specs.Slices.{capable, first};
ghost use Rattle.swarm_model.specs.Reuse.{sent, newest_source};
ghost use Rattle.swarm_model.specs.Answers.{claimed};
ghost use Rattle.swarm_model.specs.Deadlines.{next_deadline};
ghost use Rattle.swarm_model.specs.Uses.{is_used};

use crate::ReadQueries;
use blob_rows::Held;
use dimensions::{BotDims, DimSet, Text};
use std::alloc::{AllocError, Global};
use std::sync::ledger::Ledger;
use swarm_model::{BlobRow, Deadline, Steps, TaskRow};
use task_props::Digest;

/// What the rules ask of a pool's rows, beside what a reader asks. A task row that is handed out may
/// cost one step, and a query that finds none costs nothing.
pub trait PoolQueries: ReadQueries {
    /// The task that the caller sent under this uuid.
    fn sent<'a, L: Ledger>(
        &'a self,
        who: &Text,
        uuid: &Text,
        steps: &mut Steps<L>,
    ) -> Option<&'a TaskRow>
        ensures value { option_copied result ≡ sent (Self.state self.now) who.now uuid.now }
        ensures cost { steps.new ≤ steps.old + 1 }
        ensures free { IsNone result → steps.new ≡ steps.old };

    /// The newest task whose outcome a slice of properties with this hash may take at the moment.
    /// A machine that keeps no hashes takes memory to make them.
    fn newest_source<'a, L: Ledger>(
        &'a self,
        alloc: Global,
        moment: u64,
        digest: &Digest,
        steps: &mut Steps<L>,
    ) -> Result<Option<&'a TaskRow>, AllocError>
        ensures value { IfOk result (λ found. option_copied found ≡ newest_source (Self.state self.now) moment digest.now) }
        ensures cost { steps.new ≤ steps.old + 1 };

    /// The task that the bot claimed under this id, by its run or by the one that was tried again.
    fn by_claim<'a, L: Ledger>(
        &'a self,
        bot: u32,
        claim: &Text,
        steps: &mut Steps<L>,
    ) -> Option<&'a TaskRow>
        ensures value { option_copied result ≡ claimed (Self.state self.now) bot claim.now }
        ensures cost { steps.new ≤ steps.old + 1 }
        ensures free { IsNone result → steps.new ≡ steps.old };

    /// The task that the bot of this number gets, with these dimensions.
    fn first_for<'a, L: Ledger>(
        &'a self,
        no: u32,
        dims: &BotDims,
        steps: &mut Steps<L>,
    ) -> Option<&'a TaskRow>
        ensures value { option_copied result ≡ first (Self.state self.now) no dims.now }
        ensures cost { steps.new ≤ steps.old + 1 }
        ensures free { IsNone result → steps.new ≡ steps.old };

    /// Whether a bot that may take work, busy or not, has these dimensions.
    fn capable(&self, dims: &DimSet) -> bool
        ensures { result ≡ capable (Self.state self.now) dims.now };

    fn blob_count(&self) -> usize
        ensures { result ≡ length (Self.state self.now).blobs };

    /// The blob of a digest.
    fn blob_of<'a>(&'a self, digest: &Digest) -> Option<&'a BlobRow>
        ensures { option_copied result ≡ blob_of (Self.state self.now) digest.now };

    fn blob_numbered(&self, number: u32) -> Option<&BlobRow>
        ensures { option_copied result ≡ blob_numbered (Self.state self.now) number };

    /// What would become of a blob that is put.
    fn probe(&self, digest: &Digest, size: u32) -> Held
        ensures { result ≡ probe (Self.state self.now) digest.now size };

    /// Whether a task that waits or runs needs the blob of a digest.
    fn is_used(&self, digest: &Digest) -> bool
        ensures { result ≡ is_used (Self.state self.now) digest.now };

    /// The earliest of all deadlines.
    fn next_deadline(&self) -> Option<Deadline>
        ensures { result ≡ next_deadline (Self.state self.now) };
}
