//! Links in the order in which they came, and the places of all of them, sorted by their keys.
//! A search halves the places that are left with each comparison of keys. The places lie in blocks,
//! so that a new one moves those of one block.
ghost use Rattle.std.specs.Prelude.{◌≡◌, ◌<◌, ◌^◌, ◌++◌, ◌∷◌, [], length, slice_get, vec_len, vec_capacity, IsSome, MatchOption};
ghost use Rattle.std.specs.List.{insert};
ghost use Rattle.block_list.specs.Partition.{AtPartition};
ghost use Rattle.dimensions.specs.Order.{pair_cmp};
ghost use Rattle.pool_index.specs.SortedLinks.{AreSorted, HasNoKey, HasKeyAt, Sets, link_of, order_at, is_before, taken_in};

use block_list::BlockList;
use std::cmp::Ordering;
use std::mem;

/// A value with a key. In contracts a key is a pair of texts, and keys are in the order of pairs.
pub(crate) trait Keyed {
    ghost use Rattle.std.specs.Prelude.{List, ℕ};

    ghost key: { Self → List ℕ × List ℕ };
}

/// A value by whose key links are searched.
pub(crate) trait Probe<L: Keyed>: Keyed {
    /// How the key of a link compares with the key of this.
    fn compare(&self, link: &L) -> Ordering
        ensures { result ≡ pair_cmp (L.key link.now) (Self.key self.now) };
}

/// A link that can take in another one with its key.
pub(crate) trait MergeLink: Probe<Self> + Sized + Drop {
    ghost merged: { Self → Self → Self };

    fn merge(&mut self, other: Self)
        ensures { self.new ≡ merged self.old other };

    ghost keeps_key: { (link other : Self) → Self.key (merged link other) ≡ Self.key link };
}

/// How the key of the link at a place compares with the key of the probe. No place in an order is
/// past the end, so what counts there is never asked.
fn compare_at<L: Keyed, P: Probe<L>>(links: &[L], place: u32, probe: &P) -> Ordering
    ensures { result ≡ order_at L.key links.now (P.key probe.now) place }
{
    match links.get(place as usize) {
        Some(link) => probe.compare(link),
        None => Ordering::Less,
    }
}

/// The first of the places whose link has a key that is not below the probe's.
fn search<L: Keyed, P: Probe<L>>(links: &[L], order: &BlockList<u32>, probe: &P) -> Option<u32>
    ensures { AtPartition (is_before L.key links.now (P.key probe.now)) order.now.items (λ index. result ≡ slice_get order.now.items index) }
{
    order
        .at_partition(|place| compare_at(links, *place, probe).is_lt())
        .copied()
}

/// The place in `links` of the link that has the probe's key.
pub(crate) fn find<L: Keyed, P: Probe<L>>(
    links: &[L],
    order: &BlockList<u32>,
    probe: &P,
) -> Option<usize>
    requires { AreSorted L.key links.now order.now.items }
    ensures { MatchOption result (HasNoKey L.key links.now (P.key probe.now)) (HasKeyAt L.key links.now (P.key probe.now)) }
{
    match search(links, order, probe) {
        None => None,
        Some(place) => {
            if compare_at(links, place, probe).is_eq() {
                Some(place as usize)
            } else {
                None
            }
        }
    }
}

/// Adds a place, for which there is room, before the first whose link has a key that is not below
/// the probe's.
fn insert_place<L: Keyed, P: Probe<L>>(
    links: &[L],
    order: &mut BlockList<u32>,
    probe: &P,
    place: u32,
)
    requires { 0 < order.old.room }
    ensures { AtPartition (is_before L.key links.now (P.key probe.now)) order.old.items (λ index. order.new.items ≡ insert order.old.items index place) }
{
    order.insert_at_partition(|other| compare_at(links, *other, probe).is_lt(), place);
}

/// Adds a link with a key that none has, and for which there is room.
pub(crate) fn add<L: Probe<L> + Drop>(links: &mut Vec<L>, order: &mut BlockList<u32>, link: L)
    requires sorted { AreSorted L.key links.old.items order.old.items }
    requires fresh { HasNoKey L.key links.old.items (L.key link) }
    requires room { vec_len links.old < vec_capacity links.old }
    requires order_room { 0 < order.old.room }
    requires small { vec_len links.old < 2 ^ 32 }
    ensures sorted { AreSorted L.key links.new.items order.new.items }
    ensures links { links.new.items ≡ links.old.items ++ link ∷ [] }
{
    insert_place(links, order, &link, links.len() as u32);
    links.push_reserved(link);
}

/// Lets the link that has this one's key take this one in, or adds it where no link has its key.
pub(crate) fn merge<L: MergeLink>(links: &mut Vec<L>, order: &mut BlockList<u32>, link: L)
    requires sorted { AreSorted L.key links.old.items order.old.items }
    requires room { vec_len links.old < vec_capacity links.old }
    requires order_room { 0 < order.old.room }
    requires small { vec_len links.old < 2 ^ 32 }
    ensures sorted { AreSorted L.key links.new.items order.new.items }
    ensures links { Sets L.key (L.key link) (taken_in L.merged link (link_of L.key links.old.items (L.key link))) links.old.items links.new.items }
{
    match find(links, order, &link) {
        Some(place) => links[place].merge(link),
        None => add(links, order, link),
    }
}

/// Puts a link in the place of the one that has its key.
pub(crate) fn replace<L: Probe<L> + Drop>(links: &mut [L], order: &BlockList<u32>, link: L)
    requires sorted { AreSorted L.key links.old order.now.items }
    requires there { IsSome (link_of L.key links.old (L.key link)) }
    ensures sorted { AreSorted L.key links.new order.now.items }
    ensures links { Sets L.key (L.key link) link links.old links.new }
    ensures length { length links.new ≡ length links.old }
{
    match find(links, order, &link) {
        Some(place) => drop(mem::replace(&mut links[place], link)),
        None => unreachable!(),
    }
}
