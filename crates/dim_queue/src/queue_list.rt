//! A list of queues, one for each set.
ghost use Rattle.std.specs.Prelude.{◌≡◌, ◌≢◌, ◌<◌, ◌≤◌, ℕ, OnOk, IfOk, MatchOption, ◌+◌, length, map, slice_index};
ghost use Rattle.std.specs.List.{Contains};
ghost use Rattle.dim_queue.specs.declared.waiting.Waiting.{Waiting};
ghost use Rattle.block_list.specs.Rising.{Adds, Removes};
ghost use Rattle.dim_queue.specs.Taking.{taker, set_with};
ghost use Rattle.dim_queue.specs.Plain.{queue_at, AreApart, HaveTasks, ReusesEmpty};
ghost use Rattle.dim_queue.specs.QueueList.{state_of, room_of, IsFirstOf, MayTakeFrom, HasSet, LackSet, IsEmptyAt, SameOthers, SameTasks, AreInOrder};

use crate::queue::Queue;
use crate::waiting::Waiting;
use dimensions::{BotDims, DimSet};
use std::alloc::{AllocError, Global};

/// The first of all tasks that the bot of the number `no`, with these dimensions, may take.
pub(crate) fn first_for(queues: &[Queue], no: u32, bot: &BotDims) -> Option<Waiting>
    requires { AreInOrder (map state_of queues.now) }
    ensures { IsFirstOf (MayTakeFrom (taker no bot.now) (map state_of queues.now) (length queues.now)) result }
{
    let mut best = None;
    for at in 0..queues.len() {
        best = queues[at].earlier_match(best, no, bot);
    }
    best
}

/// The place of the queue with these dimensions from which this bot is kept out.
fn find(queues: &[Queue], dims: &DimSet, but: Option<u32>) -> Option<usize>
    ensures { MatchOption result (LackSet (set_with dims.now but) (map state_of queues.now) (length queues.now)) (HasSet (set_with dims.now but) (map state_of queues.now)) }
{
    for at in 0..queues.len() {
        if queues[at].set.is(dims, but) {
            return Some(at);
        }
    }
    None
}

/// The place of a queue without tasks.
fn find_empty(queues: &[Queue]) -> Option<usize>
    ensures { MatchOption result (HaveTasks (map state_of queues.now) (length queues.now)) (IsEmptyAt (map state_of queues.now)) }
{
    for at in 0..queues.len() {
        if queues[at].tasks.is_empty() {
            return Some(at);
        }
    }
    None
}

fn push_waiting_at(queues: &mut [Queue], at: usize, waiting: Waiting)
    requires room { 0 < slice_index (map room_of queues.old) at }
    requires order { AreInOrder (map state_of queues.old) }
    requires new { (w : Waiting) → Contains (queue_at (map state_of queues.old) at).tasks w → w ≢ waiting }
    ensures others { SameOthers at (map state_of queues.old) (map state_of queues.new) }
    ensures order { AreInOrder (map state_of queues.new) }
    ensures adds { Adds waiting (queue_at (map state_of queues.old) at).tasks (queue_at (map state_of queues.new) at).tasks }
    ensures count { length queues.new ≡ length queues.old }
{
    queues[at].add(waiting);
}

fn remove_from(queues: &mut [Queue], at: usize, waiting: Waiting)
    requires order { AreInOrder (map state_of queues.old) }
    requires there { Contains (queue_at (map state_of queues.old) at).tasks waiting }
    ensures others { SameOthers at (map state_of queues.old) (map state_of queues.new) }
    ensures order { AreInOrder (map state_of queues.new) }
    ensures removes { Removes waiting (queue_at (map state_of queues.old) at).tasks (queue_at (map state_of queues.new) at).tasks }
    ensures rooms { (k : ℕ) → slice_index (map room_of queues.old) k ≤ slice_index (map room_of queues.new) k }
    ensures count { length queues.new ≡ length queues.old }
{
    queues[at].remove(waiting);
}

/// Adds a task to the queue at the place, which has room for it.
pub(crate) fn push_waiting(queues: &mut Vec<Queue>, at: usize, waiting: Waiting)
    requires room { 0 < slice_index (map room_of queues.old.items) at }
    requires order { AreInOrder (map state_of queues.old.items) }
    requires new { (w : Waiting) → Contains (queue_at (map state_of queues.old.items) at).tasks w → w ≢ waiting }
    ensures others { SameOthers at (map state_of queues.old.items) (map state_of queues.new.items) }
    ensures order { AreInOrder (map state_of queues.new.items) }
    ensures adds { Adds waiting (queue_at (map state_of queues.old.items) at).tasks (queue_at (map state_of queues.new.items) at).tasks }
    ensures count { length queues.new.items ≡ length queues.old.items }
{
    push_waiting_at(queues.as_mut_slice(), at, waiting);
}

/// Removes a task from the queue at the place.
pub(crate) fn remove_in(queues: &mut Vec<Queue>, at: usize, waiting: Waiting)
    requires order { AreInOrder (map state_of queues.old.items) }
    requires there { Contains (queue_at (map state_of queues.old.items) at).tasks waiting }
    ensures others { SameOthers at (map state_of queues.old.items) (map state_of queues.new.items) }
    ensures order { AreInOrder (map state_of queues.new.items) }
    ensures removes { Removes waiting (queue_at (map state_of queues.old.items) at).tasks (queue_at (map state_of queues.new.items) at).tasks }
    ensures rooms { (k : ℕ) → slice_index (map room_of queues.old.items) k ≤ slice_index (map room_of queues.new.items) k }
    ensures count { length queues.new.items ≡ length queues.old.items }
{
    remove_from(queues.as_mut_slice(), at, waiting);
}

fn make_room(queues: &mut [Queue], at: usize) -> Result<(), AllocError>
    requires { at < length queues.old }
    ensures room { OnOk result (0 < slice_index (map room_of queues.new) at) }
    ensures same { map state_of queues.new ≡ map state_of queues.old }
{
    queues[at].reserve()
}

fn make_room_in(queues: &mut Vec<Queue>, at: usize) -> Result<(), AllocError>
    requires { at < length queues.old.items }
    ensures room { OnOk result (0 < slice_index (map room_of queues.new.items) at) }
    ensures same { map state_of queues.new.items ≡ map state_of queues.old.items }
{
    make_room(queues.as_mut_slice(), at)
}

/// Gives a queue without tasks another set, and makes room for one task.
fn reuse(
    alloc: Global,
    queues: &mut [Queue],
    at: usize,
    dims: &DimSet,
    but: Option<u32>,
) -> Result<(), AllocError>
    requires empty { IsEmptyAt (map state_of queues.old) at }
    requires apart { AreApart (map state_of queues.old) }
    requires lack { LackSet (set_with dims.now but) (map state_of queues.old) (length queues.old) }
    ensures room { OnOk result (0 < slice_index (map room_of queues.new) at) }
    ensures alike { OnOk result ((queue_at (map state_of queues.new) at).set ≡ set_with dims.now but) }
    ensures same { SameTasks (map state_of queues.old) (map state_of queues.new) }
    ensures count { length queues.new ≡ length queues.old }
    ensures apart { AreApart (map state_of queues.new) }
{
    queues[at].replace_set(alloc, dims, but)
}

fn reuse_in(
    alloc: Global,
    queues: &mut Vec<Queue>,
    at: usize,
    dims: &DimSet,
    but: Option<u32>,
) -> Result<(), AllocError>
    requires empty { IsEmptyAt (map state_of queues.old.items) at }
    requires apart { AreApart (map state_of queues.old.items) }
    requires lack { LackSet (set_with dims.now but) (map state_of queues.old.items) (length queues.old.items) }
    ensures room { OnOk result (0 < slice_index (map room_of queues.new.items) at) }
    ensures alike { OnOk result ((queue_at (map state_of queues.new.items) at).set ≡ set_with dims.now but) }
    ensures same { SameTasks (map state_of queues.old.items) (map state_of queues.new.items) }
    ensures count { length queues.new.items ≡ length queues.old.items }
    ensures apart { AreApart (map state_of queues.new.items) }
{
    reuse(alloc, queues.as_mut_slice(), at, dims, but)
}

/// Adds a queue, with room for one task.
fn append(
    alloc: Global,
    queues: &mut Vec<Queue>,
    dims: &DimSet,
    but: Option<u32>,
) -> Result<usize, AllocError>
    requires apart { AreApart (map state_of queues.old.items) }
    requires lack { LackSet (set_with dims.now but) (map state_of queues.old.items) (length queues.old.items) }
    ensures room { IfOk result (λ at. 0 < slice_index (map room_of queues.new.items) at) }
    ensures alike { IfOk result (λ at. (queue_at (map state_of queues.new.items) at).set ≡ set_with dims.now but) }
    ensures same { SameTasks (map state_of queues.old.items) (map state_of queues.new.items) }
    ensures count { length queues.new.items ≤ length queues.old.items + 1 }
    ensures apart { AreApart (map state_of queues.new.items) }
{
    let at = queues.len();
    queues.reserve(1)?;
    let queue = Queue::new(alloc, dims, but)?;
    queues.push_reserved(queue);
    Ok(at)
}

/// A queue for a set that no queue has: one without tasks, or else a new one.
fn queue_for(
    alloc: Global,
    queues: &mut Vec<Queue>,
    dims: &DimSet,
    but: Option<u32>,
) -> Result<usize, AllocError>
    requires apart { AreApart (map state_of queues.old.items) }
    requires lack { LackSet (set_with dims.now but) (map state_of queues.old.items) (length queues.old.items) }
    ensures room { IfOk result (λ at. 0 < slice_index (map room_of queues.new.items) at) }
    ensures alike { IfOk result (λ at. (queue_at (map state_of queues.new.items) at).set ≡ set_with dims.now but) }
    ensures same { SameTasks (map state_of queues.old.items) (map state_of queues.new.items) }
    ensures count { ReusesEmpty (map state_of queues.old.items) (map state_of queues.new.items) }
    ensures apart { AreApart (map state_of queues.new.items) }
{
    match find_empty(queues) {
        Some(at) => {
            reuse_in(alloc, queues, at, dims, but)?;
            Ok(at)
        }
        None => append(alloc, queues, dims, but),
    }
}

/// The place of a queue with this set, and with room for one task more.
fn find_or_assign(
    alloc: Global,
    queues: &mut Vec<Queue>,
    dims: &DimSet,
    but: Option<u32>,
) -> Result<usize, AllocError>
    requires apart { AreApart (map state_of queues.old.items) }
    ensures room { IfOk result (λ at. 0 < slice_index (map room_of queues.new.items) at) }
    ensures alike { IfOk result (λ at. (queue_at (map state_of queues.new.items) at).set ≡ set_with dims.now but) }
    ensures same { SameTasks (map state_of queues.old.items) (map state_of queues.new.items) }
    ensures count { ReusesEmpty (map state_of queues.old.items) (map state_of queues.new.items) }
    ensures apart { AreApart (map state_of queues.new.items) }
{
    match find(queues, dims, but) {
        Some(at) => {
            make_room_in(queues, at)?;
            Ok(at)
        }
        None => queue_for(alloc, queues, dims, but),
    }
}

/// A place as the map of tasks keeps it. A place past 2^32 counts as want of memory, since so many
/// queues would take hundreds of gigabytes.
fn small_place(at: usize) -> Result<u32, AllocError>
    ensures { IfOk result (λ place. place ≡ at) }
{
    match u32::try_from(at) {
        Ok(place) => Ok(place),
        Err(_) => Err(AllocError),
    }
}

/// The same as a `u32`.
pub(crate) fn reserve_for(
    alloc: Global,
    queues: &mut Vec<Queue>,
    dims: &DimSet,
    but: Option<u32>,
) -> Result<u32, AllocError>
    requires apart { AreApart (map state_of queues.old.items) }
    ensures room { IfOk result (λ at. 0 < slice_index (map room_of queues.new.items) at) }
    ensures alike { IfOk result (λ at. (queue_at (map state_of queues.new.items) at).set ≡ set_with dims.now but) }
    ensures same { SameTasks (map state_of queues.old.items) (map state_of queues.new.items) }
    ensures count { ReusesEmpty (map state_of queues.old.items) (map state_of queues.new.items) }
    ensures apart { AreApart (map state_of queues.new.items) }
{
    let at = find_or_assign(alloc, queues, dims, but)?;
    small_place(at)
}
