//! The tasks that wait for a bot at work, as facts that the check computes.
ghost use Rattle.std.specs.Prelude.{◌≡◌, ◌∷◌, [], Some, None, true, false};
ghost use Rattle.block_list.specs.Rising.{Removes};
ghost use Rattle.dim_queue.specs.Order.{goes_first};
ghost use Rattle.dim_queue.specs.QueueList.{first_match, earlier_of};
ghost use Rattle.base_examples.specs.QueueExamples.{waiting, on_linux, linux_bot, mac_bot};

/// The lower priority goes first, whatever the numbers, and at equal priorities the lower number.
pub fn the_lower_priority_goes_first()
    ensures priority { goes_first (waiting 1 9) (waiting 2 1) ≡ true }
    ensures other { goes_first (waiting 2 1) (waiting 1 9) ≡ false }
    ensures number { goes_first (waiting 1 2) (waiting 1 9) ≡ true }
    ensures itself { goes_first (waiting 1 2) (waiting 1 2) ≡ false }
{}

/// A bot gets the first task of a queue only where it has what the queue's tasks ask for, and is not
/// the one that is kept out; and of two such tasks the one that goes first.
pub fn a_bot_gets_a_task_that_it_matches()
    ensures fits { first_match linux_bot (on_linux None (waiting 1 1 ∷ waiting 1 2 ∷ [])) ≡ Some (waiting 1 1) }
    ensures other_bot { first_match mac_bot (on_linux None (waiting 1 1 ∷ waiting 1 2 ∷ [])) ≡ None }
    ensures kept_out { first_match linux_bot (on_linux (Some 1) (waiting 1 1 ∷ waiting 1 2 ∷ [])) ≡ None }
    ensures another_kept_out { first_match linux_bot (on_linux (Some 2) (waiting 1 1 ∷ waiting 1 2 ∷ [])) ≡ Some (waiting 1 1) }
    ensures alone { earlier_of (Some (waiting 5 1)) None ≡ Some (waiting 5 1) }
    ensures behind { earlier_of (Some (waiting 1 1)) (Some (waiting 1 2)) ≡ Some (waiting 1 1) }
    ensures before { earlier_of (Some (waiting 1 2)) (Some (waiting 1 1)) ≡ Some (waiting 1 1) }
{}

/// The task that leaves is the one that is named, and no other.
pub fn the_task_that_is_named_leaves()
    ensures { Removes (waiting 1 1) (waiting 1 1 ∷ waiting 1 2 ∷ []) (waiting 1 1 ∷ []) → ⊥ }
{}
