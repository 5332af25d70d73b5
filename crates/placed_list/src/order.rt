ghost use Rattle.std.specs.Prelude.{◌≡◌, ◌+◌, ◌*◌, ◌/◌, ◌≤◌, ◌<◌, [], length, slice_index, slice_index_or, IfOk};
ghost use Rattle.std.specs.List.{All, insert, remove};
ghost use Rattle.std.specs.VecDeque.{deque_len, deque_capacity};
ghost use Rattle.placed_list.specs.Blocks.{places_in, sizes, AreFilled, HaveGap, HaveRoom, IsMoved};

use std::alloc::{AllocError, Global};
use std::collections::VecDeque;
use std::marker::Model;
use std::ops::Index;

/// How many places a full block has.
const BLOCK: usize = 1024;

/// The places of a list's items, in blocks of which all are full but the last that has any.
/// `with_capacity` takes all its memory: four bytes for a place.
///
/// A place is read at once. One that comes or goes in the middle moves places of its block, and one
/// of each block behind it.
#[derive(Drop)]
pub(crate) struct Order {
    blocks: Vec<VecDeque<u32>>,
    len: usize,
}

impl Model for Order {
    ghost use Rattle.placed_list.specs.Plain.{OrderState};

    ghost Value = { OrderState };

    ghost use Rattle.placed_list.specs.OrderInside.{order_of, AreBlocks};

    ghost view = { order_of };

    ghost invariant = { AreBlocks };
}

impl Index<usize> for Order {
    type Output = u32;

    ghost can_index = { λ order index. index < length order.items };

    ghost index_gives = { λ order index place. place ≡ slice_index_or order.items index place };

    fn index(&self, index: usize) -> &u32 {
        &self.blocks[index / BLOCK][index % BLOCK]
    }
}

impl Order {
    /// An empty order, with room for so many places.
    pub fn with_capacity(alloc: Global, most: u32) -> Result<Order, AllocError>
        ensures items { IfOk result (λ order. order.items ≡ []) }
        ensures room { IfOk result (λ order. most ≤ order.room) }
    {
        Ok(Order {
            blocks: empty_blocks(alloc, most.div_ceil(BLOCK as u32) as usize)?,
            len: 0,
        })
    }

    pub fn len(&self) -> usize
        ensures { result ≡ length self.now.items }
    {
        self.len
    }

    /// Puts a place before the one at this index, or at the end.
    pub fn insert_reserved(&mut self, index: usize, place: u32)
        requires index { index ≤ length self.old.items }
        requires room { length self.old.items < self.old.room }
        ensures items { self.new.items ≡ insert self.old.items index place }
        ensures room { self.new.room ≡ self.old.room }
    {
        open_gap(&mut self.blocks, self.len, index / BLOCK);
        put(&mut self.blocks[index / BLOCK], index % BLOCK, place);
        self.len += 1;
    }

    pub fn remove(&mut self, index: usize) -> u32
        requires { index < length self.old.items }
        ensures value { result ≡ slice_index_or self.old.items index result }
        ensures items { self.new.items ≡ remove self.old.items index }
        ensures room { self.new.room ≡ self.old.room }
    {
        let place = take_out(&mut self.blocks[index / BLOCK], index % BLOCK);
        self.len -= 1;
        close_gap(&mut self.blocks, self.len, index / BLOCK);
        place
    }
}

fn empty_blocks(alloc: Global, count: usize) -> Result<Vec<VecDeque<u32>>, AllocError>
    ensures count { IfOk result (λ blocks. length blocks.items ≡ count) }
    ensures empty { IfOk result (λ blocks. All (λ block. block.items ≡ []) blocks.items) }
    ensures room { IfOk result (λ blocks. HaveRoom blocks.items) }
{
    let mut blocks = Vec::with_capacity(alloc, count)?;
    for _ in 0..count {
        blocks.push_reserved(VecDeque::with_capacity(alloc, BLOCK)?);
    }
    Ok(blocks)
}

/// Puts a place into a block, which has room for it.
fn put(block: &mut VecDeque<u32>, offset: usize, place: u32)
    requires offset { offset ≤ deque_len block.old }
    requires room { deque_len block.old < deque_capacity block.old }
    ensures items { block.new.items ≡ insert block.old.items offset place }
    ensures len { deque_len block.new ≡ deque_len block.old + 1 }
    ensures room { deque_capacity block.old ≤ deque_capacity block.new }
{
    match block.insert(offset, place) {
        Ok(()) => {}
        Err(_) => unreachable!(),
    }
}

fn take_out(block: &mut VecDeque<u32>, offset: usize) -> u32
    requires { offset < deque_len block.old }
    ensures value { result ≡ slice_index_or block.old.items offset result }
    ensures items { block.new.items ≡ remove block.old.items offset }
    ensures len { deque_len block.new + 1 ≡ deque_len block.old }
    ensures room { deque_capacity block.new ≡ deque_capacity block.old }
{
    match block.remove(offset) {
        Some(place) => place,
        None => unreachable!(),
    }
}

/// Makes room for one place in a block: from the last block on, the first place of a block becomes
/// what was the last place of the one before.
fn open_gap(blocks: &mut Vec<VecDeque<u32>>, len: usize, gap: usize)
    requires filled { AreFilled len blocks.old.items }
    requires room { HaveRoom blocks.old.items }
    requires gap { gap ≤ len / BLOCK }
    requires more { len < BLOCK * length blocks.old.items }
    ensures places { places_in blocks.new.items ≡ places_in blocks.old.items }
    ensures gap { HaveGap (len + 1) gap blocks.new.items }
    ensures room { HaveRoom blocks.new.items }
    ensures count { length blocks.new.items ≡ length blocks.old.items }
{
    let mut at = len / BLOCK;
    while gap < at {
        at -= 1;
        move_up(blocks, at);
    }
}

/// Fills a block in which one place of so many is missing: up to the last block, the last place of
/// a block becomes what was the first place of the next.
fn close_gap(blocks: &mut Vec<VecDeque<u32>>, len: usize, gap: usize)
    requires gap { HaveGap (len + 1) gap blocks.old.items }
    requires room { HaveRoom blocks.old.items }
    requires last { gap ≤ len / BLOCK }
    requires enough { len < BLOCK * length blocks.old.items }
    ensures places { places_in blocks.new.items ≡ places_in blocks.old.items }
    ensures filled { AreFilled len blocks.new.items }
    ensures room { HaveRoom blocks.new.items }
    ensures count { length blocks.new.items ≡ length blocks.old.items }
{
    for at in gap..len / BLOCK {
        move_down(blocks, at);
    }
}

/// Moves the last place of a block to the front of the next one.
fn move_up(blocks: &mut Vec<VecDeque<u32>>, at: usize)
    requires next { at + 1 < length blocks.old.items }
    requires some { 0 < slice_index (sizes blocks.old.items) at }
    requires gap { slice_index (sizes blocks.old.items) (at + 1) < BLOCK }
    requires room { HaveRoom blocks.old.items }
    ensures { IsMoved at (at + 1) blocks.old.items blocks.new.items }
{
    match blocks[at].pop_back() {
        Some(place) => blocks[at + 1].push_front_reserved(place),
        None => unreachable!(),
    }
}

/// Moves the first place of a block's next one to its end.
fn move_down(blocks: &mut Vec<VecDeque<u32>>, at: usize)
    requires next { at + 1 < length blocks.old.items }
    requires some { 0 < slice_index (sizes blocks.old.items) (at + 1) }
    requires gap { slice_index (sizes blocks.old.items) at < BLOCK }
    requires room { HaveRoom blocks.old.items }
    ensures { IsMoved (at + 1) at blocks.old.items blocks.new.items }
{
    match blocks[at + 1].pop_front() {
        Some(place) => blocks[at].push_back_reserved(place),
        None => unreachable!(),
    }
}
