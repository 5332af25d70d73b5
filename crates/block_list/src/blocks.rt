ghost use Rattle.std.specs.Prelude.{◌≡◌, ◌≢◌, ◌+◌, ◌≤◌, ◌<◌, Bool, false, [], length, slice_get, slice_index_or, vec_len, vec_capacity, OnOk, IfSome, IsTrue};
ghost use Rattle.std.specs.List.{All, insert, remove};
ghost use Rattle.std.specs.List.Sorted.{IsPartitionedBy};
ghost use Rattle.std.specs.Option.{option_copied};
ghost use Rattle.std.specs.Fn.{ComputesKey};
ghost use Rattle.block_list.specs.Partition.{IsPartition, first_passes};
ghost use Rattle.block_list.specs.Blocks.{block_size, items_of, index_of, all_of, IsPlace, HasItem, IsItemPlace, FitTogether, IsBlock, AreBlocks, TakesItem, LosesItem, TakesAll, ChangesBlock, IsReady};

use crate::block::{
    BLOCK_SIZE, HALF_SIZE, append_reserved, insert_or_split, insert_reserved, keep_spare,
};
use crate::place::Place;
use std::alloc::{AllocError, Global};
use std::mem;

/// The head block, and the blocks behind it. A place numbers them from the head block on, which has
/// number 0.
#[derive(Drop)]
pub(crate) struct Blocks<T> {
    pub head: Vec<T>,
    pub rest: Vec<Vec<T>>,
}

impl<T: Copy> Blocks<T> {
    pub fn new(alloc: Global) -> Blocks<T>
        ensures head { result.head.items ≡ [] }
        ensures rest { result.rest.items ≡ [] }
    {
        Blocks {
            head: Vec::new(alloc),
            rest: Vec::new(alloc),
        }
    }

    fn block(&self, number: usize) -> &[T]
        requires { number < length (all_of self.now) }
        ensures { (d : _) → result.now ≡ (slice_index_or (all_of self.now) number d).items }
    {
        if number == 0 {
            self.head.as_slice()
        } else {
            self.rest[number - 1].as_slice()
        }
    }

    /// How many of the blocks behind the head block begin with an item for which `before` is true.
    fn search_blocks<F: Fn(&T) -> bool>(&self, before: &F) -> usize
        requires { F.IsAlwaysCallable before.now }
        ensures bound { result ≤ length self.now.rest.items }
        ensures partition { (p : T → Bool) → ComputesKey F.FnMut p before.now → IsPartitionedBy (λ block. first_passes p block.items) self.now.rest.items → IsPartition (λ block. first_passes p block.items) self.now.rest.items result }
    {
        self.rest.partition_point(
            |block: &Vec<T>| -> bool
                requires { F.IsAlwaysCallable before.now }
                ensures { (p : T → Bool) → ComputesKey F.FnMut p before.entry.now → result ≡ first_passes p block.now.items }
            {
                match block.first() {
                    Some(first) => before(first),
                    None => false,
                }
            },
        )
    }

    /// The place behind the items for which `before` is true. It lies in the block that the last of
    /// them is in.
    pub fn search<F: Fn(&T) -> bool>(&self, before: F) -> Place
        requires callable { F.IsAlwaysCallable before }
        requires blocks { AreBlocks (all_of self.now) }
        ensures place { IsPlace (all_of self.now) result }
        ensures partition { (p : T → Bool) → ComputesKey F.FnMut p before → IsPartitionedBy p (items_of (all_of self.now)) → IsPartition p (items_of (all_of self.now)) (index_of (all_of self.now) result) }
    {
        let block = self.search_blocks(&before);
        let offset = self.block(block).partition_point(before);
        Place { block, offset }
    }

    /// The place of the item that stands behind this place, or else the end of the last block.
    pub fn item_place(&self, place: Place) -> Place
        requires place { IsPlace (all_of self.now) place }
        requires blocks { AreBlocks (all_of self.now) }
        ensures place { IsPlace (all_of self.now) result }
        ensures item { IsItemPlace (all_of self.now) result }
        ensures index { index_of (all_of self.now) result ≡ index_of (all_of self.now) place }
    {
        if place.offset == self.block(place.block).len() && place.block < self.rest.len() {
            Place {
                block: place.block + 1,
                offset: 0,
            }
        } else {
            place
        }
    }

    pub fn get(&self, place: Place) -> Option<&T>
        requires place { IsPlace (all_of self.now) place }
        requires item { IsItemPlace (all_of self.now) place }
        ensures value { option_copied result ≡ slice_get (items_of (all_of self.now)) (index_of (all_of self.now) place) }
        ensures item { IfSome result (λ _. HasItem (all_of self.now) place) }
    {
        self.block(place.block).get(place.offset)
    }

    /// Makes room for one item more. The head block grows as long as it is alone and not full;
    /// otherwise the spare block is made.
    pub fn reserve(&mut self, spare: &mut Vec<T>) -> Result<(), AllocError>
        requires blocks { AreBlocks (all_of self.old) }
        requires spare { spare.old.items ≡ [] }
        ensures items { items_of (all_of self.new) ≡ items_of (all_of self.old) }
        ensures blocks { AreBlocks (all_of self.new) }
        ensures spare { spare.new.items ≡ [] }
        ensures ready { OnOk result (IsReady self.new spare.new) }
    {
        if self.rest.is_empty() && self.head.len() < BLOCK_SIZE {
            return self.head.reserve(1);
        }
        spare.reserve_exact(BLOCK_SIZE)?;
        self.rest.reserve(1)
    }

    /// Puts an item into its block. What moves out of a full block comes into the spare block.
    fn insert_in(&mut self, spare: &mut Vec<T>, place: Place, item: T)
        requires place { IsPlace (all_of self.old) place }
        requires blocks { AreBlocks (all_of self.old) }
        requires empty { spare.old.items ≡ [] }
        requires ready { IsReady self.old spare.old }
        ensures block { ChangesBlock place.block (TakesItem place.offset item spare.new) (all_of self.old) (all_of self.new) }
        ensures count { vec_len self.new.rest ≡ vec_len self.old.rest }
        ensures capacity { vec_capacity self.new.rest ≡ vec_capacity self.old.rest }
    {
        let is_last = place.block == self.rest.len();
        if place.block == 0 {
            insert_or_split(&mut self.head, spare, place.offset, is_last, item);
        } else {
            let block = &mut self.rest[place.block - 1];
            insert_or_split(block, spare, place.offset, is_last, item);
        }
    }

    /// Puts an item at a place. A full block is split, and what moves out of it lies in the spare
    /// block, which becomes the block behind it.
    pub fn insert(&mut self, alloc: Global, spare: &mut Vec<T>, place: Place, item: T)
        requires place { IsPlace (all_of self.old) place }
        requires blocks { AreBlocks (all_of self.old) }
        requires empty { spare.old.items ≡ [] }
        requires ready { IsReady self.old spare.old }
        ensures items { items_of (all_of self.new) ≡ insert (items_of (all_of self.old)) (index_of (all_of self.old) place) item }
        ensures blocks { AreBlocks (all_of self.new) }
        ensures spare { spare.new.items ≡ [] }
    {
        self.insert_in(spare, place, item);
        if !spare.is_empty() {
            let block = mem::replace(spare, Vec::new(alloc));
            insert_reserved(&mut self.rest, place.block, block);
        }
    }

    /// Takes an item out of its block.
    fn remove_in(&mut self, place: Place)
        requires place { IsPlace (all_of self.old) place }
        requires item { HasItem (all_of self.old) place }
        ensures block { ChangesBlock place.block (LosesItem place.offset) (all_of self.old) (all_of self.new) }
        ensures count { vec_len self.new.rest ≡ vec_len self.old.rest }
        ensures capacity { vec_capacity self.new.rest ≡ vec_capacity self.old.rest }
    {
        if place.block == 0 {
            self.head.remove(place.offset);
        } else {
            let block = &mut self.rest[place.block - 1];
            block.remove(place.offset);
        }
    }

    /// Takes out a block. Where it is the head block, the one behind it becomes the head block.
    fn take_out(&mut self, number: usize) -> Vec<T>
        requires number { number < length (all_of self.old) }
        requires more { 1 < length (all_of self.old) }
        ensures blocks { all_of self.new ≡ remove (all_of self.old) number }
        ensures count { vec_len self.new.rest ≤ vec_len self.old.rest }
        ensures capacity { vec_capacity self.new.rest ≡ vec_capacity self.old.rest }
    {
        if number == 0 {
            let next = self.rest.remove(0);
            mem::replace(&mut self.head, next)
        } else {
            self.rest.remove(number - 1)
        }
    }

    /// Moves items to the end of a block, which has memory for them.
    fn append_in(&mut self, number: usize, back: &mut Vec<T>)
        requires number { number < length (all_of self.old) }
        requires room { (d : _) → vec_len (slice_index_or (all_of self.old) number d) + vec_len back.old ≤ vec_capacity (slice_index_or (all_of self.old) number d) }
        ensures block { ChangesBlock number (TakesAll back.old.items) (all_of self.old) (all_of self.new) }
        ensures moved { back.new.items ≡ [] }
        ensures count { vec_len self.new.rest ≡ vec_len self.old.rest }
        ensures capacity { vec_capacity self.new.rest ≡ vec_capacity self.old.rest }
    {
        if number == 0 {
            append_reserved(&mut self.head, back);
        } else {
            let block = &mut self.rest[number - 1];
            append_reserved(block, back);
        }
    }

    /// Moves the items of the block behind this one into this one, and takes that block out.
    fn join(&mut self, number: usize) -> Vec<T>
        requires number { number < length self.old.rest.items }
        requires fit { FitTogether (all_of self.old) number }
        requires blocks { All IsBlock (all_of self.old) }
        ensures items { items_of (all_of self.new) ≡ items_of (all_of self.old) }
        ensures blocks { All IsBlock (all_of self.new) }
        ensures emptied { result.items ≡ [] }
        ensures count { vec_len self.new.rest ≤ vec_len self.old.rest }
        ensures capacity { vec_capacity self.new.rest ≡ vec_capacity self.old.rest }
    {
        let mut back = self.rest.remove(number);
        self.append_in(number, &mut back);
        back
    }

    /// Whether a block and the one behind it have at most half a block's items together.
    fn is_small_pair(&self, number: usize) -> bool
        requires number { number < length self.now.rest.items }
        requires blocks { AreBlocks (all_of self.now) }
        ensures { IsTrue result → FitTogether (all_of self.now) number }
    {
        self.block(number).len() + self.rest[number].len() <= HALF_SIZE
    }

    /// The number of the former block of a small pair that the block is in.
    fn small_pair(&self, number: usize) -> Option<usize>
        requires number { number < length (all_of self.now) }
        requires blocks { AreBlocks (all_of self.now) }
        ensures { IfSome result (λ front. (front < length self.now.rest.items) × FitTogether (all_of self.now) front) }
    {
        if 0 < number && self.is_small_pair(number - 1) {
            Some(number - 1)
        } else if number < self.rest.len() && self.is_small_pair(number) {
            Some(number)
        } else {
            None
        }
    }

    /// Joins the block with one beside it, where they are a small pair.
    fn join_small(&mut self, spare: &mut Vec<T>, number: usize)
        requires number { number < length (all_of self.old) }
        requires blocks { AreBlocks (all_of self.old) }
        requires empty { spare.old.items ≡ [] }
        ensures items { items_of (all_of self.new) ≡ items_of (all_of self.old) }
        ensures blocks { AreBlocks (all_of self.new) }
        ensures spare { spare.new.items ≡ [] }
        ensures ready { IsReady self.old spare.old → IsReady self.new spare.new }
    {
        match self.small_pair(number) {
            None => {}
            Some(front) => {
                let emptied = self.join(front);
                keep_spare(spare, emptied);
            }
        }
    }

    /// Whether the block has one item and is not alone.
    fn is_single(&self, number: usize) -> bool
        requires { number < length (all_of self.now) }
        ensures one { IsTrue result → (d : _) → length (slice_index_or (all_of self.now) number d).items ≡ 1 }
        ensures beside { IsTrue result → 1 < length (all_of self.now) }
        ensures other { result ≡ false → 1 < length (all_of self.now) → (d : _) → length (slice_index_or (all_of self.now) number d).items ≢ 1 }
    {
        !self.rest.is_empty() && self.block(number).len() == 1
    }

    /// Takes out the item at a place. A block without items is taken out, unless it is alone.
    pub fn remove(&mut self, spare: &mut Vec<T>, place: Place)
        requires place { IsPlace (all_of self.old) place }
        requires item { HasItem (all_of self.old) place }
        requires blocks { AreBlocks (all_of self.old) }
        requires empty { spare.old.items ≡ [] }
        ensures items { items_of (all_of self.new) ≡ remove (items_of (all_of self.old)) (index_of (all_of self.old) place) }
        ensures blocks { AreBlocks (all_of self.new) }
        ensures spare { spare.new.items ≡ [] }
        ensures ready { IsReady self.old spare.old → IsReady self.new spare.new }
    {
        if self.is_single(place.block) {
            let mut emptied = self.take_out(place.block);
            emptied.clear();
            keep_spare(spare, emptied);
        } else {
            self.remove_in(place);
            self.join_small(spare, place.block);
        }
    }
}
