ghost use Rattle.std.specs.Prelude.{◌≡◌, ◌≤◌, ◌<◌, ◌+◌, ◌^◌, ℕ, [], length, map, slice_set, take, drop, vec_len, vec_capacity, IsTrue, IfOk, IfErr, OnOk};
ghost use Rattle.std.specs.List.{All};
ghost use Rattle.swarm_model.specs.Settings.{are_settings};
ghost use Rattle.turnstile.specs.Passes.{fixed_of, opening};
ghost use Rattle.shared_doors.specs.Joined.{AreClosed, IsAloneView, Joins, MaySplit, Splits};
ghost use Rattle.shared_doors.specs.Lasting.{IsStanding};
ghost use Rattle.shared_doors.specs.Machines.{lasting_in, log_in};
ghost use Rattle.shared_doors.specs.SharedDoors.{pools_of, start_of};
ghost use Rattle.shared_doors.specs.Turns.{TakesTurnAt};
ghost use Rattle.shared_doors.specs.Views.{AreOf, IsFrontOf, first_view, view_at, views};

use crate::closing::close_all;
use crate::kept::Kept;
use crate::opening::open_all;
use crate::places::{alone_at, copy_at, front_at, join_at, split_at, take_at};
use crate::view::Lasting;
use dimensions::{Seq, Text, TryCopy};
use std::alloc::{AllocError, Global};
use std::sync::Wait;
use swarm_keeper::Keeper;
use swarm_model::{Entry, Machine, PoolSettings, PoolState, Settings};
use turnstile::{Counted, Pass, Turnstile};

/// What the doors of one server share: a turnstile for each pool, in the order of the pools.
#[derive(Drop)]
pub struct Server<M: Machine + Drop, K: Keeper + Drop>
where
    Kept<M, K>: Counted<Item = Entry, Fixed = Lasting>,
{
    pub(crate) alloc: Global,
    pub store: Option<Text>,
    /// The settings of the pools, which are read without a turn.
    pub(crate) pools: Seq<PoolSettings>,
    pub turnstiles: Vec<Turnstile<Kept<M, K>>>,
    ghost settings: { pools ≡ map (λ t. (fixed_of (lasting_in M.kept) t).settings) turnstiles.items },
    ghost standing: { All (λ t. IsStanding (fixed_of (lasting_in M.kept) t)) turnstiles.items },
    ghost sure: { IsTrue K.SURE },
}

/// A pass for each pool of a server, in the order of the pools.
#[derive(Drop)]
pub struct Passes<M: Machine + Drop, K: Keeper + Drop>
where
    Kept<M, K>: Counted<Item = Entry, Fixed = Lasting>,
{
    pub passes: Vec<Option<Pass<Kept<M, K>>>>,
}

impl<M: Machine + Drop, K: Keeper + Drop> Server<M, K> {
    /// A server of these pools, each with an empty log and the keeper at its place, and the first
    /// passes.
    ///
    /// # Errors
    ///
    /// Want of memory. The keepers are dropped.
    pub fn new(
        alloc: Global,
        settings: &Settings,
        keepers: Vec<K>,
    ) -> Result<(Server<M, K>, Passes<M, K>), AllocError>
        requires rules { IsTrue (are_settings settings.now) }
        requires sure { IsTrue K.SURE }
        requires keepers { length keepers.items ≡ length settings.now.pools }

        ensures own { IfOk result (λ r. AreOf (lasting_in M.kept) r.0.turnstiles.items r.1.passes.items) }

        // The pools are those of the settings, each with its blobs and an empty log.
        ensures count { IfOk result (λ r. length r.0.turnstiles.items ≡ length settings.now.pools) }
        ensures store { IfOk result (λ r. r.0.store ≡ settings.now.store) }
        ensures settings { IfOk result (λ r. map (λ t. (fixed_of (lasting_in M.kept) t).settings) r.0.turnstiles.items ≡ settings.now.pools) }
        ensures whole { IfOk result (λ r. All (λ t. IsTrue (fixed_of (lasting_in M.kept) t).is_whole) r.0.turnstiles.items) }
        ensures opening { IfOk result (λ r. All (λ t. opening (log_in M.kept) t ≡ []) r.0.turnstiles.items) }

        ensures fresh { IfOk result (λ r. (p : ℕ) → p < length r.0.turnstiles.items → view_at (views r.1.passes.items) p ≡ first_view) }
    {
        let store = settings.store.try_copy(alloc)?;
        let pools = settings.pools.try_copy(alloc)?;
        let (turnstiles, passes) = open_all(alloc, settings, keepers)?;
        let server = Server {
            alloc,
            store,
            pools,
            turnstiles,
        };
        Ok((server, passes))
    }

    /// Passes for a door more. It takes no number of a pass where there is no memory.
    ///
    /// # Errors
    ///
    /// Want of memory. The passes come back as they were.
    pub fn split(
        &self,
        passes: Passes<M, K>,
    ) -> Result<(Passes<M, K>, Passes<M, K>), (AllocError, Passes<M, K>)>
        requires own { AreOf (lasting_in M.kept) self.now.turnstiles.items passes.passes.items }
        requires first { (p : ℕ) → p < length self.now.turnstiles.items → MaySplit (view_at (views passes.passes.items) p) }

        ensures kept { IfOk result (λ r. AreOf (lasting_in M.kept) self.now.turnstiles.items r.0.passes.items) }
        ensures given { IfOk result (λ r. AreOf (lasting_in M.kept) self.now.turnstiles.items r.1.passes.items) }
        ensures split { IfOk result (λ r. (p : ℕ) → p < length self.now.turnstiles.items → Splits (view_at (views passes.passes.items) p) (view_at (views r.0.passes.items) p) (view_at (views r.1.passes.items) p)) }

        ensures back { IfErr result (λ r. r.1 ≡ passes) }
    {
        let count = self.turnstiles.len();
        let Ok(mut given) = Vec::with_capacity(self.alloc, count) else {
            return Err((AllocError, passes));
        };
        let mut kept = passes;
        for place in 0..count {
            let pass = split_at(self, &mut kept, place);
            given.push_reserved(Some(pass));
        }
        Ok((kept, Passes { passes: given }))
    }

    /// The passes of two doors, joined at each place.
    pub fn join(&self, one: Passes<M, K>, two: Passes<M, K>) -> Passes<M, K>
        requires one { AreOf (lasting_in M.kept) self.now.turnstiles.items one.passes.items }
        requires two { AreOf (lasting_in M.kept) self.now.turnstiles.items two.passes.items }
        ensures own { AreOf (lasting_in M.kept) self.now.turnstiles.items result.passes.items }
        ensures joined { (p : ℕ) → p < length self.now.turnstiles.items → Joins (view_at (views one.passes.items) p) (view_at (views two.passes.items) p) (view_at (views result.passes.items) p) }
    {
        let mut joined = one;
        let Passes { passes: mut others } = two;
        let count = self.turnstiles.len();
        for place in 0..count {
            let other = take_at(&mut others, place);
            join_at(self, &mut joined, place, other);
        }
        joined
    }

    /// The length of the log of the pool at a place, read without a turn: it doesn't wait, and takes
    /// no memory.
    pub fn front(&self, passes: &mut Passes<M, K>, place: u32) -> u64
        requires own { AreOf (lasting_in M.kept) self.now.turnstiles.items passes.old.passes.items }
        requires place { place < length self.now.turnstiles.items }

        ensures own { AreOf (lasting_in M.kept) self.now.turnstiles.items passes.new.passes.items }
        ensures front { IsFrontOf (view_at (views passes.old.passes.items) place) result }
        ensures told { views passes.new.passes.items ≡ slice_set (views passes.old.passes.items) place (record (view_at (views passes.old.passes.items) place) { told = result }) }
    {
        front_at(self, passes, place as usize)
    }

    /// Waits for the turn of the pool at the place, and copies in it the next `most` entries of the log
    /// from the place `from`, which counts from 0, or all where fewer are there. The pool's other doors
    /// wait meanwhile. That the turn comes is not promised.
    ///
    /// # Errors
    ///
    /// Want of memory for the copies. The turn was taken all the same.
    pub fn copy<R: Wait>(
        &self,
        rt: &R,
        passes: Passes<M, K>,
        place: u32,
        from: u64,
        most: u32,
    ) -> (Passes<M, K>, Result<Vec<Entry>, AllocError>)
        requires own { AreOf (lasting_in M.kept) self.now.turnstiles.items passes.passes.items }
        requires place { place < length self.now.turnstiles.items }
        requires turns { (view_at (views passes.passes.items) place).turns < 2 ^ 40 }

        ensures own { AreOf (lasting_in M.kept) self.now.turnstiles.items result.0.passes.items }

        // The entries are those of the log that the pass has then seen.
        ensures copied { IfOk result.1 (λ entries. entries.items ≡ take most (drop from (view_at (views result.0.passes.items) place).seen)) }

        ensures turn { TakesTurnAt (start_of (pools_of (lasting_in M.kept) self.now.turnstiles.items) place).rows place (views passes.passes.items) (views result.0.passes.items) }
    {
        let mut passes = passes;
        let copied = copy_at(rt, self, &mut passes, place as usize, from, most);
        (passes, copied)
    }

    /// A copy of the rows from which the log of the pool at the place begins. No entries led to them. It
    /// takes no turn.
    ///
    /// # Errors
    ///
    /// Want of memory for the copy.
    pub fn base(&self, place: u32) -> Result<PoolState, AllocError>
        requires place { place < length self.now.turnstiles.items }
        ensures { IfOk result (λ rows. start_of (pools_of (lasting_in M.kept) self.now.turnstiles.items) place ≡ record { rows = rows; count = 0 }) }
    {
        let settings = self.pools.as_slice()[place as usize].try_copy(self.alloc)?;
        Ok(PoolState::opening(self.alloc, settings))
    }

    /// Whether no other pass is out at any place.
    fn alone(&self, passes: &Passes<M, K>) -> bool
        requires own { AreOf (lasting_in M.kept) self.now.turnstiles.items passes.now.passes.items }
        ensures alone { IsTrue result → (p : ℕ) → p < length self.now.turnstiles.items → IsAloneView (view_at (views passes.now.passes.items) p) }
        ensures out { ¬ IsTrue result → (p : ℕ) × (p < length self.now.turnstiles.items) × ¬ IsAloneView (view_at (views passes.now.passes.items) p) }
    {
        let count = self.turnstiles.len();
        for place in 0..count {
            if !alone_at(self, passes, place) {
                return false;
            }
        }
        true
    }

    /// The machines, in the order of the pools, once all passes are joined. They come out in the
    /// room that it is given, so it takes no memory.
    ///
    /// # Errors
    ///
    /// At some place another pass is out. Nothing is closed, and the room is dropped.
    pub fn close(
        self,
        passes: Passes<M, K>,
        room: Vec<M>,
    ) -> Result<Vec<M>, (Server<M, K>, Passes<M, K>)>
        requires own { AreOf (lasting_in M.kept) self.turnstiles.items passes.passes.items }
        requires empty { vec_len room ≡ 0 }
        requires room { length self.turnstiles.items ≤ vec_capacity room }

        // It is closed exactly where no other pass is out.
        ensures alone { OnOk result ((p : ℕ) → p < length self.turnstiles.items → IsAloneView (view_at (views passes.passes.items) p)) }
        ensures refused { IfErr result (λ r. (r.0 ≡ self) × (r.1 ≡ passes) × ((p : ℕ) × (p < length self.turnstiles.items) × ¬ IsAloneView (view_at (views passes.passes.items) p))) }

        ensures closed { IfOk result (λ machines. AreClosed (lasting_in M.kept) (log_in M.kept) self.turnstiles.items (views passes.passes.items) (map M.kept machines.items)) }
    {
        if !self.alone(&passes) {
            return Err((self, passes));
        }
        let Server {
            alloc: _,
            store: _,
            pools: _,
            turnstiles,
        } = self;
        let Passes { passes } = passes;
        Ok(close_all(turnstiles, passes, room))
    }
}
