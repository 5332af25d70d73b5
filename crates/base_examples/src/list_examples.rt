//! Lists in blocks, lists by places and reserved lists at work, as facts that the check computes.
ghost use Rattle.std.specs.Prelude.{◌≡◌, ℕ, ◌∷◌, ◌≤◌, [], Some, None, Vec, length, slice_get, slice_index_or, slice_set, vec_capacity};
ghost use Rattle.std.specs.List.{insert, remove};
ghost use Rattle.std.specs.declared.alloc.Global.{Global};
ghost use Rattle.block_list.specs.declared.blocks.Blocks.{Blocks};
ghost use Rattle.block_list.specs.Blocks.{IsReady};
ghost use Rattle.block_list.specs.Partition.{IsPartition};
ghost use Rattle.placed_list.specs.Places.{ArePlaces, items_at};
ghost use Rattle.reserved_vec.specs.Room.{room_of, Takes};
ghost use Rattle.base_examples.specs.ListExamples.{odd, is_below_4, stored};

/// Where the items below 4 stand first, their end is the place before the first other item.
pub fn a_partition_ends_before_the_first_other_item()
    ensures end { IsPartition is_below_4 odd 2 }
    ensures before { IsPartition is_below_4 odd 1 → ⊥ }
    ensures behind { IsPartition is_below_4 odd 3 → ⊥ }
{}

/// An item is put before the one at its index, and the items behind it follow; one that is taken
/// out leaves the others in their order.
pub fn items_come_and_go_at_an_index()
    ensures comes { insert odd 2 4 ≡ 1 ∷ 3 ∷ 4 ∷ 5 ∷ [] }
    ensures comes_last { insert odd 3 7 ≡ 1 ∷ 3 ∷ 5 ∷ 7 ∷ [] }
    ensures goes { remove odd 1 ≡ 1 ∷ 5 ∷ [] }
    ensures changes { slice_set odd 1 4 ≡ 1 ∷ 4 ∷ 5 ∷ [] }
    ensures lies { slice_index_or odd 1 0 ≡ 3 }
    ensures found { slice_get odd 2 ≡ Some 5 }
    ensures end { slice_get odd 3 ≡ None }
{}

/// A list of more than one block takes an item only once a whole block of 128 lies ready.
pub fn a_spare_block_has_room_for_128_items()
    ensures { (blocks : Blocks ℕ) (spare : Vec ℕ Global) → IsReady blocks spare → length blocks.rest.items ≡ 1 → 128 ≤ vec_capacity spare }
{}

/// Items are listed in the order of their places, wherever they lie, and no place that one of them
/// has is free.
pub fn items_are_listed_by_their_places()
    ensures order { items_at stored (2 ∷ 0 ∷ []) ≡ 30 ∷ 10 ∷ [] }
    ensures free { ArePlaces 3 (2 ∷ 0 ∷ []) (0 ∷ []) → ⊥ }
{}

/// A list of 3 items fills its buffer and takes a fourth only into one of 7; a list of 2 has room.
#[tactic(auto, unfolding(reserved_vec::specs::Room::room_of))]
pub fn a_full_list_takes_a_buffer_of_twice_its_size_and_one()
    ensures sizes { (room_of 1 ≡ 1) × (room_of 2 ≡ 3) × (room_of 3 ≡ 3) × (room_of 4 ≡ 7) }
    ensures free { Takes 2 0 }
    ensures no_buffer { Takes 3 0 → ⊥ }
    ensures too_small { Takes 3 6 → ⊥ }
    ensures enough { Takes 3 7 }
{}
