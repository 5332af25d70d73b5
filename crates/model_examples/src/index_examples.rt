//! What a pool machine keeps beside its rows at work, as facts that the check computes.
ghost use Rattle.std.specs.Prelude.{◌≡◌, ◌∷◌, [], map, Some, None, true, false, codes};
ghost use Rattle.std.specs.List.{fold, filter_map};
ghost use Rattle.std.specs.declared.cmp.Ordering.TheVariants.{Less, Equal, Greater};
ghost use Rattle.dimensions.specs.Order.{pair_cmp};
ghost use Rattle.swarm_model.specs.declared.deadline.Cause.TheVariants as cause;
ghost use Rattle.swarm_model.specs.Deadlines.{is_earlier, sooner};
ghost use Rattle.pool_index.specs.Claims.{sort_key};
ghost use Rattle.pool_index.specs.QueuedDeadlines.{IsEarliestOf};
ghost use Rattle.pool_index.specs.SortedLinks.{digest_key, order_at};
ghost use Rattle.pool_index.specs.Sources.{newest_in, greater_of, newer};
ghost use Rattle.pool_index.specs.Uses as uses;
ghost use Rattle.model_examples.specs.IndexExamples.{first_digest, second_digest, source, used, ends};

/// Claims are in the order of their bots, and those of one bot in the order of their ids.
pub fn claims_of_one_bot_are_told_apart_by_their_ids()
    ensures other_bot { pair_cmp (sort_key (1, codes "b")) (sort_key (2, codes "a")) ≡ Less }
    ensures other_id { pair_cmp (sort_key (1, codes "b")) (sort_key (1, codes "a")) ≡ Greater }
    ensures same { pair_cmp (sort_key (1, codes "a")) (sort_key (1, codes "a")) ≡ Equal }
{}

/// Digests are told apart by all their bytes.
pub fn digests_that_begin_alike_are_told_apart()
    ensures below { pair_cmp (digest_key first_digest) (digest_key second_digest) ≡ Less }
    ensures above { pair_cmp (digest_key second_digest) (digest_key first_digest) ≡ Greater }
    ensures same { pair_cmp (digest_key first_digest) (digest_key first_digest) ≡ Equal }
{}

/// A hash is found at its own link, and not at one that begins alike.
pub fn a_source_is_found_by_its_hash()
    ensures first { newest_in (source first_digest 5 ∷ source second_digest 7 ∷ []) first_digest ≡ Some 5 }
    ensures second { newest_in (source first_digest 5 ∷ source second_digest 7 ∷ []) second_digest ≡ Some 7 }
    ensures missing { newest_in (source first_digest 5 ∷ []) second_digest ≡ None }
{}

/// Under a hash the greater number stays, whichever came first.
pub fn the_newest_source_stays()
    ensures lower { newer (source first_digest 5) (source first_digest 3) ≡ source first_digest 5 }
    ensures greater { newer (source first_digest 3) (source first_digest 5) ≡ source first_digest 5 }
    ensures told { greater_of (Some 5) 3 ≡ 5 }
    ensures told_greater { greater_of (Some 3) 5 ≡ 5 }
{}

/// Each digest has its own count, and one that isn't listed has no use.
pub fn uses_are_counted_by_digest()
    ensures first { uses.uses_of (used second_digest 2 ∷ used first_digest 1 ∷ []) first_digest ≡ 1 }
    ensures second { uses.uses_of (used second_digest 2 ∷ used first_digest 1 ∷ []) second_digest ≡ 2 }
    ensures missing { uses.uses_of (used second_digest 2 ∷ []) first_digest ≡ 0 }
    ensures one_more { uses.HasUses first_digest 2 (used first_digest 1 ∷ []) (used first_digest 1 ∷ []) → ⊥ }
{}

/// The links at these places are in the order of their keys, so that the first of them goes before
/// the second digest, and the second one doesn't.
pub fn places_are_compared_by_their_links()
    ensures { map (order_at uses.key_of (used second_digest 2 ∷ used first_digest 1 ∷ []) (digest_key second_digest)) (1 ∷ 0 ∷ []) ≡ Less ∷ Equal ∷ [] }
{}

/// Deadlines are in the order of their moments, at one moment in that of their causes, and of one
/// cause in that of their numbers.
pub fn deadlines_of_one_moment_are_in_the_order_of_their_causes()
    ensures moment { is_earlier (ends 10 cause.Blob 9) (ends 11 cause.Slice 1) ≡ true }
    ensures cause { is_earlier (ends 10 cause.Slice 9) (ends 10 cause.Silence 1) ≡ true }
    ensures later_cause { is_earlier (ends 10 cause.Blob 1) (ends 10 cause.Bot 9) ≡ false }
    ensures number { is_earlier (ends 10 cause.Bot 1) (ends 10 cause.Bot 2) ≡ true }
    ensures itself { is_earlier (ends 10 cause.Bot 1) (ends 10 cause.Bot 1) ≡ false }
{}

/// The earliest deadline is told, wherever it stands, and no other.
pub fn the_earliest_deadline_is_at_hand()
    ensures places { fold sooner None (filter_map (λ end. end) (Some (ends 20 cause.Slice 1) ∷ None ∷ Some (ends 10 cause.Bot 3) ∷ [])) ≡ Some (ends 10 cause.Bot 3) }
    ensures none { fold sooner None (filter_map (λ end. end) (None ∷ None ∷ [])) ≡ None }
    ensures queued { IsEarliestOf (ends 10 cause.Bot 3 ∷ ends 10 cause.Slice 9 ∷ []) (Some (ends 10 cause.Bot 3)) → ⊥ }
{}
