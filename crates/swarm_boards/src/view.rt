ghost use Rattle.std.specs.Prelude.{◌≡◌, ◌≤◌, ◌<◌, ◌^◌, Some, length, IfOk, IsTrue, IsSomeAnd};
ghost use Rattle.left_right.specs.Sides.{view};
ghost use Rattle.swarm_model.specs.Fits.{fits};
ghost use Rattle.swarm_model.specs.Soundness.{IsSound};
ghost use Rattle.pool_views.specs.Views.{reads_rows, IsAsked};
ghost use Rattle.row_copies.specs.Kept.{kept_of, now_of};
ghost use Rattle.swarm_boards.specs.Reading.{IsFront, IsRead};

use crate::rule::{CopyReader, Sees};
use dimensions::Text;
use pool_views::Viewed;
use row_copies::RowCopy;
use std::alloc::{AllocError, Global};
use std::marker::Model;
use std::snapshot::Snapshot;
use swarm_model::{PoolState, Reply, Request, Rule, is_ahead};

/// One reader of what a poster publishes.
///
/// Contracts see what it knows: the base from which the log begins, the entries that it has seen, and
/// each list of published entries that it was told.
#[derive(Drop)]
pub struct View {
    alloc: Global,
    /// It is there between two calls.
    reader: Option<CopyReader>,
    /// What proofs see of the base, by way of the poster. It has no bytes.
    base: Snapshot<Snapshot<PoolState>>,
    /// How many entries led to the base.
    count: u64,
}

impl Model for View {
    ghost use Rattle.pool_views.specs.Views.{Known};

    ghost Value = { Known };

    ghost use Rattle.swarm_boards.specs.ViewFields.{known_of, IsSeated};

    ghost view = { known_of };

    ghost invariant = { IsSeated };
}

/// What the rows of a copy show, to whose base so many entries led.
fn shown(
    alloc: Global,
    copy: &RowCopy,
    count: u64,
    after: Option<u64>,
    who: &Text,
    request: &Request,
) -> Result<Viewed, AllocError>
    requires sound { IsSound (now_of copy.now) }
    requires few { length (kept_of copy.now).log < 2 ^ 32 }
    requires count { count ≤ 2 ^ 31 }
    requires reads { IsTrue (reads_rows request.now) }
    requires fits { IsTrue (fits (now_of copy.now).settings request.now) }
    ensures { IfOk result (IsFront (kept_of copy.now) count (record { caller = who.now; after = after; request = request.now })) }
{
    let front = count + copy.length();
    if is_ahead(front, after) {
        return Ok(Viewed {
            front,
            reply: Reply::No(Rule::FrontAhead { length: front }),
        });
    }
    let reply = copy.reply(alloc, who, request)?;
    Ok(Viewed { front, reply })
}

/// Reads the copy that is shown, if the poster has not ended. The reader comes back.
#[tactic(auto, using(crate::proofs::Rises::looks))]
fn read(
    alloc: Global,
    reader: CopyReader,
    count: u64,
    after: Option<u64>,
    who: &Text,
    request: &Request,
) -> (CopyReader, Result<Viewed, AllocError>)
    requires base { IsSomeAnd (view reader.place).base (λ rows. IsTrue (fits rows.settings request.now) × (rows.settings.most_entries < 2 ^ 32)) }
    requires count { count ≤ 2 ^ 31 }
    requires reads { IsTrue (reads_rows request.now) }
    ensures { IsRead count (view reader.place) (view result.0.place) (record { caller = who.now; after = after; request = request.now }) result.1 }
{
    match reader.enter_as::<Sees>() {
        Ok(reading) => {
            let viewed = shown(alloc, reading.get(), count, after, who, request);
            (reading.leave(), viewed)
        }
        Err(reader) => (reader, Err(AllocError)),
    }
}

impl View {
    ghost use Rattle.swarm_boards.specs.Reading.{known_by};

    pub(crate) fn new(
        alloc: Global,
        reader: CopyReader,
        base: Snapshot<Snapshot<PoolState>>,
        count: u64,
    ) -> View
        requires base { (view reader.place).base ≡ Some base.value.value }
        requires few { base.value.value.settings.most_entries < 2 ^ 32 }
        requires count { count ≤ 2 ^ 31 }
        ensures { result ≡ known_by (record { rows = base.value.value; count = count }) (view reader.place) }
    {
        View {
            alloc,
            reader: Some(reader),
            base,
            count,
        }
    }

    /// Answers a request of `who` by what is published. `after` is the length of a log that the caller
    /// has seen. It never waits.
    ///
    /// # Errors
    ///
    /// Memory is wanting, or the poster has ended.
    pub fn ask(
        &mut self,
        after: Option<u64>,
        who: &Text,
        request: &Request,
    ) -> Result<Viewed, AllocError>
        requires reads { IsTrue (reads_rows request.now) }
        requires fits { IsTrue (fits self.old.start.rows.settings request.now) }
        ensures { IsAsked self.old self.new (record { caller = who.now; after = after; request = request.now }) result }
    {
        match self.reader.take() {
            None => unreachable!(),
            Some(reader) => {
                let (reader, viewed) = read(self.alloc, reader, self.count, after, who, request);
                self.reader = Some(reader);
                viewed
            }
        }
    }
}
