//! Where each task waits, by its number.
ghost use Rattle.std.specs.Prelude.{◌≡◌, ◌≢◌, ◌<◌, ◌≤◌, ℕ, None, Some, OnOk, nat_eq};
ghost use Rattle.std.specs.HashMap.{get, spare};

use std::alloc::AllocError;
use std::collections::HashMap;

/// The place of the queue that has the task, and the task's priority, by which it is found there.
#[derive(Clone, Copy, Drop)]
pub(crate) struct Place {
    pub queue: u32,
    pub priority: u32,
}

/// Makes room for one task more.
pub(crate) fn reserve_place(places: &mut HashMap<u32, Place>) -> Result<(), AllocError>
    ensures same { (q : ℕ) → get nat_eq places.new q ≡ get nat_eq places.old q }
    ensures room { OnOk result (0 < spare places.new) }
{
    places.reserve(1)
}

/// Adds a task, for which there is room, so that no memory is taken.
pub(crate) fn insert_reserved(places: &mut HashMap<u32, Place>, no: u32, place: Place)
    requires { 0 < spare places.old }
    ensures own { get nat_eq places.new no ≡ Some place }
    ensures others { (q : ℕ) → q ≢ no → get nat_eq places.new q ≡ get nat_eq places.old q }
{
    match places.insert(no, place) {
        Ok(_) => {}
        Err(_) => unreachable!(),
    }
}

/// Removes a task, and answers where it waited.
pub(crate) fn remove_place(places: &mut HashMap<u32, Place>, no: u32) -> Option<Place>
    ensures value { result ≡ get nat_eq places.old no }
    ensures own { get nat_eq places.new no ≡ None }
    ensures others { (q : ℕ) → q ≢ no → get nat_eq places.new q ≡ get nat_eq places.old q }
    ensures spare { spare places.old ≤ spare places.new }
{
    places.remove(&no)
}
