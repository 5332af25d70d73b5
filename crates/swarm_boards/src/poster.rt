ghost use Rattle.std.specs.Prelude.{◌≡◌, ◌≤◌, ◌++◌, ◌∷◌, [], length, IfOk, MatchResult};
ghost use Rattle.swarm_model.specs.BaseRules.{IsBase};
ghost use Rattle.swarm_model.specs.History.{IsLegal};

use crate::rule::CopyWriter;
use crate::view::View;
use crate::writer::{open_writer, publish_pending, put_back, told_reader};
use std::alloc::{AllocError, Global};
use std::marker::Model;
use std::snapshot::Snapshot;
use std::sync::Wait;
use swarm_model::{Entry, PoolState};

/// Publishes the entries of a pool's log to views. It isn't `Drop`: end it by `end`.
///
/// Contracts see the base from which the log begins, the entries that are published, and those that
/// are pending: taken in and not published yet.
pub struct Poster {
    alloc: Global,
    /// It is there between two calls.
    writer: Option<CopyWriter>,
    /// What proofs see of the base. It has no bytes.
    base: Snapshot<PoolState>,
    /// How many entries led to the base.
    count: u64,
    /// How many entries are published or pending.
    length: u64,
}

impl Model for Poster {
    ghost use Rattle.swarm_boards.specs.Posted.{Posted};

    ghost Value = { Posted };

    ghost use Rattle.swarm_boards.specs.PosterFields.{posted_of, IsDesk};

    ghost view = { posted_of };

    ghost invariant = { IsDesk };
}

/// How many entries a log of the pool may have.
fn most_entries(base: &PoolState) -> u32
    ensures { result ≡ base.now.settings.most_entries }
{
    base.settings.most_entries
}

impl Poster {
    /// A poster whose log begins from the base, to which so many entries led. Nothing is published,
    /// and nothing pending. There is room for so many views.
    ///
    /// # Errors
    ///
    /// There is no memory for the two copies of the rows.
    pub fn new<R: Wait>(
        rt: &R,
        alloc: Global,
        base: &PoolState,
        count: u64,
        readers: usize,
    ) -> Result<Poster, AllocError>
        requires base { IsBase base.now.settings count base.now }
        requires readers { (1 ≤ readers) × (readers ≤ 8) }
        ensures { IfOk result (λ poster. poster ≡ record { start = record { rows = base.now; count = count }; published = []; pending = [] }) }
    {
        // For the proof: a count of entries fits its type.
        let _most = most_entries(base);
        let writer = open_writer(rt, alloc, base, readers)?;
        Ok(Poster {
            alloc,
            writer: Some(writer),
            base: Snapshot::of(base),
            count,
            length: 0,
        })
    }

    /// One view more, which is told what is published.
    ///
    /// # Errors
    ///
    /// Each place for a view is taken, or memory is wanting.
    pub fn view(&mut self) -> Result<View, AllocError>
        ensures same { self.new ≡ self.old }
        ensures view { IfOk result (λ view. view ≡ record { start = self.old.start; seen = []; told = self.old.published ∷ [] }) }
    {
        match &mut self.writer {
            None => unreachable!(),
            Some(writer) => {
                let reader = told_reader(writer)?;
                Ok(View::new(self.alloc, reader, Snapshot::of(&self.base), self.count))
            }
        }
    }

    /// How many entries are published or pending.
    pub fn length(&self) -> u64
        ensures { result ≡ length (self.now.published ++ self.now.pending) }
    {
        self.length
    }

    /// Takes in an entry, which is then the last that is pending.
    ///
    /// # Errors
    ///
    /// Memory is wanting. The entry comes back.
    pub fn add(&mut self, entry: Entry) -> Result<(), Entry>
        requires legal { IsLegal self.old.start.rows (self.old.published ++ self.old.pending ++ entry ∷ []) }
        ensures { MatchResult result
            (λ _. self.new ≡ record self.old { pending = self.old.pending ++ entry ∷ [] })
            (λ back. (back ≡ entry) × (self.new ≡ self.old)) }
    {
        match &mut self.writer {
            None => unreachable!(),
            Some(writer) => {
                writer.append(entry)?;
                self.length += 1;
                Ok(())
            }
        }
    }

    /// Publishes the pending entries behind those that are published, all at once. It waits for views
    /// that still read the copy from before the last call.
    ///
    /// # Errors
    ///
    /// Memory is wanting. All stays as it is, and a later call may publish it.
    pub fn publish<R: Wait>(&mut self, rt: &R) -> Result<(), AllocError>
        ensures { MatchResult result
            (λ _. self.new ≡ record self.old { published = self.old.published ++ self.old.pending; pending = [] })
            (λ _. self.new ≡ self.old) }
    {
        match self.writer.take() {
            None => unreachable!(),
            Some(writer) => {
                let (writer, published) = publish_pending(rt, writer);
                put_back(rt, &mut self.writer, writer);
                published
            }
        }
    }

    /// Waits for the views that read. From now on each view answers want of memory, and what it has
    /// seen stays.
    pub fn end<R: Wait>(self, rt: &R) {
        let Poster {
            alloc: _,
            writer,
            base: _,
            count: _,
            length: _,
        } = self;
        if let Some(writer) = writer {
            writer.take(rt);
        }
    }
}
