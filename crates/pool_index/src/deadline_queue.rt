ghost use Rattle.std.specs.Prelude.{◌≡◌, ◌<◌, ◌≤◌, ◌+◌, [], OnOk, MatchBool};
ghost use Rattle.std.specs.List.{Contains};
ghost use Rattle.block_list.specs.Rising.{IsRising};
ghost use Rattle.swarm_model.specs.Deadlines.{is_earlier};
ghost use Rattle.pool_index.specs.QueuedDeadlines.{Adds, Removes, IsEarliestOf};

use crate::deadline_order::is_earlier;
use block_list::BlockList;
use std::alloc::{AllocError, Global};
use std::marker::Model;
use swarm_model::Deadline;

/// Deadlines in their order, of which the earliest is at hand. Contracts say which deadlines there
/// are, and for how many more there is memory.
///
/// An addition or a removal searches the list twice by bisection, each time with a comparison for
/// each halving. It moves at most the 128 deadlines of one block, 16 bytes for each, and where a
/// block comes or goes 24 bytes for each block behind it: nothing where the deadline is added behind
/// all others. The earliest is read without a comparison.
#[derive(Drop)]
pub struct DeadlineQueue {
    deadlines: BlockList<Deadline>,
}

impl Model for DeadlineQueue {
    ghost use Rattle.pool_index.specs.QueuedDeadlines.{DeadlineQueueState};

    ghost Value = { DeadlineQueueState };

    ghost use Rattle.pool_index.specs.QueueInside.{state_of, IsDeadlineQueue};

    ghost view = { state_of };

    ghost invariant = { IsDeadlineQueue };
}

impl DeadlineQueue {
    /// No deadline. It takes no memory.
    pub fn new(alloc: Global) -> DeadlineQueue
        ensures { result.deadlines ≡ [] }
    {
        DeadlineQueue {
            deadlines: BlockList::new(alloc),
        }
    }

    /// Makes room for one deadline more.
    pub fn reserve(&mut self) -> Result<(), AllocError>
        ensures deadlines { self.new.deadlines ≡ self.old.deadlines }
        ensures room { OnOk result (0 < self.new.room) }
    {
        self.deadlines.reserve()
    }

    /// Adds a deadline, unless it is there. It takes no memory.
    pub fn add(&mut self, deadline: Deadline)
        requires { 0 < self.old.room }
        ensures deadlines { Adds deadline self.old.deadlines self.new.deadlines }
        ensures room { self.old.room ≤ self.new.room + 1 }
    {
        if !contains(&self.deadlines, deadline) {
            self.deadlines
                .insert_at_partition(|other| is_earlier(*other, deadline), deadline);
        }
    }

    /// Takes out a deadline. Where it is not there, nothing changes.
    pub fn remove(&mut self, deadline: Deadline)
        ensures deadlines { Removes deadline self.old.deadlines self.new.deadlines }
        ensures room { self.old.room ≤ self.new.room }
    {
        if contains(&self.deadlines, deadline) {
            self.deadlines
                .remove_at_partition(|other| is_earlier(*other, deadline));
        }
    }

    /// The earliest deadline.
    pub fn first(&self) -> Option<Deadline>
        ensures { IsEarliestOf self.now.deadlines result }
    {
        self.deadlines.first().copied()
    }
}

/// Whether the deadline is among these.
fn contains(deadlines: &BlockList<Deadline>, deadline: Deadline) -> bool
    requires { IsRising is_earlier deadlines.now.items }
    ensures { MatchBool result (Contains deadlines.now.items deadline) (Contains deadlines.now.items deadline → ⊥) }
{
    match deadlines.at_partition(|other| is_earlier(*other, deadline)) {
        None => false,
        Some(other) => !is_earlier(deadline, *other),
    }
}
