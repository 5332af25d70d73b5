ghost use Rattle.std.specs.Prelude.{◌≡◌, ◌+◌, ◌≤◌, ◌<◌, ◌==◌, Bool, [], length, slice_get, OnOk};
ghost use Rattle.std.specs.List.{insert, remove};
ghost use Rattle.std.specs.Option.{option_copied};
ghost use Rattle.std.specs.Fn.{ComputesKey};
ghost use Rattle.block_list.specs.Partition.{AtPartition};

use crate::blocks::Blocks;
use crate::place::Place;
use std::alloc::{AllocError, Global};
use std::marker::Model;

/// A list in blocks. Contracts say which items it has in which order, and whether it takes one more
/// without memory.
///
/// A search bisects the blocks by their first items, and then one block: about 20 calls of the test
/// for 262,144 items. An insertion or a removal moves items of one block, and at most 64 more where
/// two blocks are joined; where a block comes or goes, 24 bytes move for each block behind it. The
/// first item is read without a search. As long as there are at most 128 items, they lie in one
/// buffer, which doubles; then each block takes the memory of 128 items. A block that was emptied is
/// kept as the spare block; where there is one, it is given back.
#[derive(Drop)]
pub struct BlockList<T> {
    alloc: Global,
    blocks: Blocks<T>,
    /// A block without items, which takes what moves out of a full block.
    spare: Vec<T>,
    /// Whether the next item takes no memory.
    ready: bool,
}

impl<T> Model for BlockList<T> {
    ghost use Rattle.block_list.specs.Plain.{BlockListState};

    ghost Value = { BlockListState T };

    ghost use Rattle.block_list.specs.Inside.{state_of, IsKept};

    ghost view = { state_of };

    ghost invariant = { IsKept };
}

impl<T: Copy> BlockList<T> {
    /// An empty list. It takes no memory.
    pub fn new(alloc: Global) -> BlockList<T>
        ensures { result.items ≡ [] }
    {
        BlockList {
            alloc,
            blocks: Blocks::new(alloc),
            spare: Vec::new(alloc),
            ready: false,
        }
    }

    /// Makes room for one item more. As long as there are fewer than 128 items, their buffer grows;
    /// then a spare block is made, unless there is one.
    ///
    /// # Errors
    ///
    /// There is no memory for it.
    pub fn reserve(&mut self) -> Result<(), AllocError>
        ensures items { self.new.items ≡ self.old.items }
        ensures room { OnOk result (0 < self.new.room) }
    {
        if !self.ready {
            self.blocks.reserve(&mut self.spare)?;
            self.ready = true;
        }
        Ok(())
    }

    pub fn is_empty(&self) -> bool
        ensures { result ≡ (length self.now.items == 0) }
    {
        self.first().is_none()
    }

    pub fn first(&self) -> Option<&T>
        ensures { option_copied result ≡ slice_get self.now.items 0 }
    {
        self.blocks.get(Place {
            block: 0,
            offset: 0,
        })
    }

    /// The first item for which `before` is false, where those for which it is true stand first.
    pub fn at_partition<F: Fn(&T) -> bool>(&self, before: F) -> Option<&T>
        requires { F.IsAlwaysCallable before }
        ensures { (p : T → Bool) → ComputesKey F.FnMut p before → AtPartition p self.now.items (λ index. option_copied result ≡ slice_get self.now.items index) }
    {
        let place = self.blocks.search(before);
        self.blocks.get(self.blocks.item_place(place))
    }

    /// Puts an item before the first for which `before` is false, where those for which it is true
    /// stand first. It takes no memory.
    pub fn insert_at_partition<F: Fn(&T) -> bool>(&mut self, before: F, item: T)
        requires callable { F.IsAlwaysCallable before }
        requires room { 0 < self.old.room }
        ensures items { (p : T → Bool) → ComputesKey F.FnMut p before → AtPartition p self.old.items (λ index. self.new.items ≡ insert self.old.items index item) }
        ensures room { self.old.room ≤ self.new.room + 1 }
    {
        let place = self.blocks.search(before);
        self.blocks.insert(self.alloc, &mut self.spare, place, item);
        self.ready = false;
    }

    /// Takes out the first item for which `before` is false, where those for which it is true stand
    /// first.
    pub fn remove_at_partition<F: Fn(&T) -> bool>(&mut self, before: F) -> Option<T>
        requires { F.IsAlwaysCallable before }
        ensures items { (p : T → Bool) → ComputesKey F.FnMut p before → AtPartition p self.old.items (λ index. (result ≡ slice_get self.old.items index) × (self.new.items ≡ remove self.old.items index)) }
        ensures room { self.old.room ≤ self.new.room }
    {
        let place = self.blocks.item_place(self.blocks.search(before));
        match self.blocks.get(place) {
            None => None,
            Some(item) => {
                let item = *item;
                self.blocks.remove(&mut self.spare, place);
                Some(item)
            }
        }
    }
}
