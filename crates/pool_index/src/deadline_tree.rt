ghost use Rattle.std.specs.Prelude.{◌≡◌, ◌<◌, ◌≤◌, [], length, slice_set, None, OnOk};
ghost use Rattle.std.specs.List.{fold, filter_map};
ghost use Rattle.swarm_model.specs.Deadlines.{sooner};
ghost use Rattle.pool_index.specs.Deadlines.{IsFirstOf, SameDeadlines};

use crate::tree_nodes::{copy_leaves, empty_nodes, set_leaf};
use std::alloc::{AllocError, Global};
use std::marker::Model;
use std::mem;
use swarm_model::Deadline;

/// The deadline at each place, if there is one, which contracts see as the list of them: a binary
/// tree in an array (a tournament tree), whose root is the earliest deadline of all.
///
/// A change of one place costs one comparison of deadlines for each level of the tree, at most 19
/// for 262,144 places, and moves nothing. The earliest is read without a comparison.
#[derive(Drop)]
pub struct DeadlineTree {
    alloc: Global,
    nodes: Vec<Option<Deadline>>,
    width: usize,
}

impl Model for DeadlineTree {
    ghost use Rattle.std.specs.Prelude.{List, Option};
    ghost use Rattle.swarm_model.specs.declared.deadline.Deadline.{Deadline};

    ghost Value = { List (Option Deadline) };

    ghost use Rattle.pool_index.specs.TreeInside.{leaves_of, IsTree};

    ghost view = { leaves_of };

    ghost invariant = { IsTree };
}

impl DeadlineTree {
    /// The tree without a place. It takes no memory.
    pub fn new(alloc: Global) -> DeadlineTree
        ensures { result ≡ [] }
    {
        DeadlineTree {
            alloc,
            nodes: Vec::new(alloc),
            width: 0,
        }
    }

    /// Makes at least so many places. The new ones have no deadline. Where there were fewer, the
    /// number of places doubles at least, and all deadlines are put into the larger tree.
    pub fn cover(&mut self, places: usize) -> Result<(), AllocError>
        ensures same { SameDeadlines self.old self.new }
        ensures longer { length self.old ≤ length self.new }
        ensures ok { OnOk result (places ≤ length self.new) }
    {
        if places <= self.width {
            return Ok(());
        }
        let width = places.max(self.width.saturating_mul(2));
        match width.checked_mul(2) {
            None => Err(AllocError),
            Some(size) => {
                let mut nodes = empty_nodes(self.alloc, size, width)?;
                copy_leaves(&self.nodes[self.width..], nodes.as_mut_slice(), width);
                drop(mem::replace(&mut self.nodes, nodes));
                self.width = width;
                Ok(())
            }
        }
    }

    /// How many places there are.
    pub fn count(&self) -> usize
        ensures { result ≡ length self.now }
    {
        self.width
    }

    /// Sets the deadline at a place, or that it has none. It takes no memory.
    pub fn put(&mut self, at: usize, end: Option<Deadline>)
        requires { at < length self.old }
        ensures { self.new ≡ slice_set self.old at end }
    {
        set_leaf(self.nodes.as_mut_slice(), self.width, at, end);
    }

    /// The earliest deadline of all places.
    pub fn first(&self) -> Option<Deadline>
        ensures first { IsFirstOf self.now result }
        ensures fold { result ≡ fold sooner None (filter_map (λ end. end) self.now) }
    {
        if self.width == 0 { None } else { self.nodes[1] }
    }
}
