//! The numbers of the rows, sorted by name.
ghost use Rattle.std.specs.Prelude.{◌≡◌, ℕ, ◌+◌, ◌<◌, ◌≤◌, ◌++◌, ◌∷◌, [], map, length, vec_len, vec_capacity, slice_get, None};
ghost use Rattle.std.specs.Option.{option_copied};
ghost use Rattle.std.specs.List.Sorted.{IsSearchInRange, IsBinarySearchResult, IsPartitionPoint};
ghost use Rattle.std.specs.List.{insert, filter};
ghost use Rattle.dimensions.specs.Order.{text_cmp, sorted_by};
ghost use Rattle.swarm_model.specs.Pages.{is_after, is_named_before};
ghost use Rattle.swarm_model.specs.Numbers.{AreNumbered};
ghost use Rattle.swarm_model.specs.Effects.{no_of_bot};
ghost use Rattle.bot_registry.specs.Acting.{row_named};
ghost use Rattle.bot_registry.specs.Names.{name_of, name_at, AreByName, IsUpTo, IsPast};
ghost use Rattle.row_changes.specs.Bots.{bots_after};
ghost use Rattle.bot_registry.specs.Inside.{FollowsIn};

use dimensions::Text;
use row_changes::row_of;
use std::cmp::Ordering;
use swarm_model::{BotRow, EntryKind};

/// How the name of the bot of a number compares with a name.
fn order_at(rows: &[BotRow], number: u32, name: &Text) -> Ordering
    ensures { result ≡ text_cmp (name_at (map name_of rows.now) number) name.now }
{
    match rows.get(number.saturating_sub(1) as usize) {
        Some(bot) => bot.name.cmp(name),
        None => "".cmp(name.as_str()),
    }
}

/// The place of the number of a name, or the place to which it belongs.
fn name_place(rows: &[BotRow], numbers: &[u32], name: &Text) -> Result<usize, usize>
    ensures bound { IsSearchInRange result (length numbers.now) }
    ensures place { IsBinarySearchResult (λ n. text_cmp (name_at (map name_of rows.now) n) name.now) numbers.now result }
{
    numbers.binary_search_by(|number| order_at(rows, *number, name))
}

/// The row of the bot of a name.
pub(crate) fn row_named<'a>(rows: &'a [BotRow], numbers: &[u32], name: &Text) -> Option<&'a BotRow>
    requires numbered { AreNumbered no_of_bot 1 rows.now }
    requires named { AreByName (map no_of_bot rows.now) (map name_of rows.now) numbers.now }
    ensures { option_copied result ≡ row_named rows.now name.now }
{
    match name_place(rows, numbers, name) {
        Ok(place) => row_of(rows, numbers[place]),
        Err(_) => None,
    }
}

/// The place of the first number whose name comes after a name.
fn place_after(rows: &[BotRow], numbers: &[u32], name: &Text) -> usize
    requires numbered { AreNumbered no_of_bot 1 rows.now }
    requires named { AreByName (map no_of_bot rows.now) (map name_of rows.now) numbers.now }
    ensures bound { result ≤ length numbers.now }
    ensures place { IsPartitionPoint (IsUpTo (map name_of rows.now) name.now) (IsPast (map name_of rows.now) name.now) numbers.now result }
{
    numbers.partition_point(|number| order_at(rows, *number, name).is_le())
}

/// The row of the bot whose name comes next after a name.
pub(crate) fn row_after<'a>(rows: &'a [BotRow], numbers: &[u32], name: &Text) -> Option<&'a BotRow>
    requires numbered { AreNumbered no_of_bot 1 rows.now }
    requires named { AreByName (map no_of_bot rows.now) (map name_of rows.now) numbers.now }
    ensures { option_copied result ≡ slice_get (filter (is_after name.now) (sorted_by is_named_before rows.now)) 0 }
{
    let place = place_after(rows, numbers, name);
    if place < numbers.len() {
        row_of(rows, numbers[place])
    } else {
        None
    }
}

/// Adds a number at a place, for which there is room.
fn insert(numbers: &mut Vec<u32>, place: usize, number: u32)
    requires place { place ≤ vec_len numbers.old }
    requires room { vec_len numbers.old < vec_capacity numbers.old }
    ensures { numbers.new.items ≡ insert numbers.old.items place number }
{
    match numbers.insert(place, number) {
        Ok(()) => {}
        Err(_) => unreachable!(),
    }
}

/// Adds the number of a bot that comes for the first time.
pub(crate) fn add(rows: &[BotRow], numbers: &mut Vec<u32>, number: u32, name: &Text)
    requires numbered { AreNumbered no_of_bot 1 rows.now }
    requires named { AreByName (map no_of_bot rows.now) (map name_of rows.now) numbers.old.items }
    requires next { number ≡ length rows.now + 1 }
    requires fresh { row_named rows.now name.now ≡ None }
    requires room { vec_len numbers.old < vec_capacity numbers.old }
    ensures { AreByName (map no_of_bot rows.now ++ number ∷ []) (map name_of rows.now ++ name.now ∷ []) numbers.new.items }
{
    match name_place(rows, numbers, name) {
        Ok(_) => unreachable!(),
        Err(place) => insert(numbers, place, number),
    }
}

/// The numbers are those of the rows after the entry.
pub(crate) fn follow(rows: &[BotRow], numbers: &mut Vec<u32>, kind: &EntryKind)
    requires numbered { AreNumbered no_of_bot 1 rows.now }
    requires named { AreByName (map no_of_bot rows.now) (map name_of rows.now) numbers.old.items }
    requires follows { FollowsIn rows.now (vec_len numbers.old) (vec_capacity numbers.old) kind.now }
    ensures { (moment : ℕ) → AreByName (map no_of_bot (bots_after moment kind.now rows.now)) (map name_of (bots_after moment kind.now rows.now)) numbers.new.items }
{
    if let EntryKind::Handshake { b, id, .. } = kind {
        if row_of(rows, *b).is_none() {
            add(rows, numbers, *b, id);
        }
    }
}
