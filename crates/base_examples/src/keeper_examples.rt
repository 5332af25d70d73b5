//! Keepers at work: their lines, their bases, their blobs and their failures.
ghost use Rattle.std.specs.Prelude.{◌≡◌, ◌∷◌, [], Some, None, Err, ⊤, false, codes};
ghost use Rattle.swarm_keeper.specs.Tables.{Counts, appended, replaced, nothing};
ghost use Rattle.swarm_keeper.specs.Stores.{Detaches, new_store};
ghost use Rattle.swarm_keeper.specs.declared.keeper.KeeperFault.TheVariants.{Failed};

/// A line is kept behind those before it.
pub fn a_line_is_kept_behind_those_before_it()
    ensures { appended (codes "two") None [] None (record nothing { lines = codes "one" ∷ [] })
        ≡ record nothing { lines = codes "one" ∷ codes "two" ∷ [] } }
{}

/// A base takes the place of another one and of all lines behind it, and the blobs stay.
pub fn a_base_takes_the_place_of_all_lines()
    ensures { replaced (codes "new" ∷ []) 3 (record { base = codes "old" ∷ []; count = 1; lines = codes "one" ∷ codes "two" ∷ []; blobs = (codes "c", codes "1") ∷ [] })
        ≡ record { base = codes "new" ∷ []; count = 3; lines = []; blobs = (codes "c", codes "1") ∷ [] } }
{}

/// A blob that is removed is kept no more, and all others are.
pub fn a_blob_that_is_removed_is_kept_no_more()
    ensures { (appended (codes "line") None [] (Some (codes "d")) (record nothing { blobs = (codes "c", codes "1") ∷ (codes "d", codes "2") ∷ [] })).blobs
        ≡ (codes "c", codes "1") ∷ [] }
{}

/// A blob that is added stands in place of one of its digest.
pub fn a_blob_stands_once()
    ensures { (appended (codes "line") (Some (codes "c")) (codes "3") None (record nothing { blobs = (codes "c", codes "1") ∷ (codes "d", codes "2") ∷ [] })).blobs
        ≡ (codes "d", codes "2") ∷ (codes "c", codes "3") ∷ [] }
{}

/// A call that failed raises the keeper's count.
pub fn a_failed_call_is_counted()
    ensures counted { Counts {A = ⊤} false 3 4 (Err Failed) }
    ensures not_counted { ¬ (Counts {A = ⊤} false 3 3 (Err Failed)) }
{}

/// A keeper that has failed raises the count of the store that takes it back.
pub fn a_keeper_that_failed_is_counted_by_its_store()
    ensures unfailed { Detaches new_store new_store (codes "d") (codes "p") None 0 }
    ensures counted { Detaches new_store (record new_store { faults = 1 }) (codes "d") (codes "p") None 1 }
    ensures not_counted { ¬ (Detaches new_store new_store (codes "d") (codes "p") None 1) }
{}
