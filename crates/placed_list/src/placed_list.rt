ghost use Rattle.std.specs.Prelude.{◌≡◌, ◌≤◌, ◌<◌, [], length, slice_get, slice_index_or, slice_set, IfOk};
ghost use Rattle.std.specs.List.{insert, remove};
ghost use Rattle.std.specs.Option.{option_copied};

use crate::order::Order;
use std::alloc::{AllocError, Global};
use std::marker::Model;
use std::ops::Index;

/// A list whose items stay where they lie in memory. `with_capacity` takes all its memory: for an
/// item its size and eight bytes, of which four are taken for whole blocks of 1024 items.
///
/// An item is read and replaced at once. One that comes or goes moves the numbers of places in a
/// block of 1024, and one number for each block behind it.
#[derive(Drop)]
pub struct PlacedList<T> {
    /// At a free place lies what lay there last.
    items: Vec<T>,
    /// The places of the items, in the order of the list.
    order: Order,
    /// The places that were given up.
    free: Vec<u32>,
    room: u32,
}

impl<T> Model for PlacedList<T> {
    ghost use Rattle.placed_list.specs.Plain.{PlacedListState};

    ghost Value = { PlacedListState T };

    ghost use Rattle.placed_list.specs.Inside.{state_of, IsKept};

    ghost view = { state_of };

    ghost invariant = { IsKept };
}

impl<T> Index<usize> for PlacedList<T> {
    type Output = T;

    ghost can_index = { λ list index. index < length list.items };

    ghost index_gives = { λ list index item. item ≡ slice_index_or list.items index item };

    fn index(&self, index: usize) -> &T {
        &self.items[self.order[index] as usize]
    }
}

impl<T: Copy> PlacedList<T> {
    /// An empty list with room for so many items.
    ///
    /// # Errors
    ///
    /// There is no memory for so many items.
    pub fn with_capacity(alloc: Global, most: u32) -> Result<PlacedList<T>, AllocError>
        ensures { IfOk result (λ list. list ≡ record { items = []; room = most }) }
    {
        Ok(PlacedList {
            items: Vec::with_capacity(alloc, most as usize)?,
            order: Order::with_capacity(alloc, most)?,
            free: Vec::with_capacity(alloc, most as usize)?,
            room: most,
        })
    }

    pub fn len(&self) -> usize
        ensures { result ≡ length self.now.items }
    {
        self.order.len()
    }

    pub fn get(&self, index: usize) -> Option<&T>
        ensures { option_copied result ≡ slice_get self.now.items index }
    {
        if index < self.len() {
            Some(&self[index])
        } else {
            None
        }
    }

    /// Puts an item before the one at this index, or at the end.
    pub fn insert_reserved(&mut self, index: usize, item: T)
        requires index { index ≤ length self.old.items }
        requires room { length self.old.items < self.old.room }
        ensures items { self.new.items ≡ insert self.old.items index item }
        ensures room { self.new.room ≡ self.old.room }
    {
        match self.free.pop() {
            Some(place) => {
                self.items[place as usize] = item;
                self.order.insert_reserved(index, place);
            }
            None => {
                let place = self.items.len() as u32;
                self.items.push_reserved(item);
                self.order.insert_reserved(index, place);
            }
        }
    }

    pub fn remove(&mut self, index: usize) -> T
        requires { index < length self.old.items }
        ensures value { result ≡ slice_index_or self.old.items index result }
        ensures items { self.new.items ≡ remove self.old.items index }
        ensures room { self.new.room ≡ self.old.room }
    {
        let place = self.order.remove(index);
        self.free.push_reserved(place);
        self.items[place as usize]
    }

    /// Puts an item in place of the one at this index.
    pub fn set(&mut self, index: usize, item: T)
        requires { index < length self.old.items }
        ensures items { self.new.items ≡ slice_set self.old.items index item }
        ensures room { self.new.room ≡ self.old.room }
    {
        let place = self.order[index];
        self.items[place as usize] = item;
    }
}
