//! The rows of bots at work, as facts that the check computes.
ghost use Rattle.std.specs.Prelude.{◌≡◌, ◌∷◌, [], Some, None, true, false, slice_get, codes};
ghost use Rattle.std.specs.List.{list_any, count_by};
ghost use Rattle.swarm_model.specs.declared.entry.EntryKind.TheVariants as kind;
ghost use Rattle.swarm_model.specs.declared.entry.EventKind.TheVariants as event;
ghost use Rattle.swarm_model.specs.Pages.{listed_bots};
ghost use Rattle.swarm_model.specs.Slices.{could_run};
ghost use Rattle.row_changes.specs.declared.parts.BotParts.TheVariants as parts;
ghost use Rattle.row_changes.specs.Parts.{bot_parts};
ghost use Rattle.bot_registry.specs.Acting.{row_named};
ghost use Rattle.bot_registry.specs.Demands.{has_dims, recounted};
ghost use Rattle.model_examples.specs.RegistryExamples.{bot, two_bots, pool_of_two, any_bot, bot_called};
ghost use Rattle.model_examples.specs.BotExamples.{has};

/// A bot is found by its name, whatever its number.
pub fn a_bot_is_found_by_its_name()
    ensures first { row_named two_bots (codes "b1") ≡ Some (bot 2 (codes "b1")) }
    ensures second { row_named two_bots (codes "b2") ≡ Some (bot 1 (codes "b2")) }
    ensures missing { row_named two_bots (codes "b3") ≡ None }
{}

/// The bot after a name is the next one in the order of the names, and not the bot of that name.
pub fn the_bot_after_a_name_has_the_next_name()
    ensures first { slice_get (listed_bots pool_of_two []) 0 ≡ Some (bot 2 (codes "b1")) }
    ensures next { slice_get (listed_bots pool_of_two (codes "b1")) 0 ≡ Some (bot 1 (codes "b2")) }
    ensures none { slice_get (listed_bots pool_of_two (codes "b2")) 0 ≡ None }
{}

/// A bot that is quarantined, dead or to end could run nothing.
pub fn only_fit_bots_could_run_a_task()
    ensures fit { list_any (could_run any_bot) (bot 1 (codes "b1") ∷ []) ≡ true }
    ensures quarantined { list_any (could_run any_bot) (record (bot 1 (codes "b1")) { quarantined = codes "hot" } ∷ []) ≡ false }
    ensures dead { list_any (could_run any_bot) (record (bot 1 (codes "b1")) { dead = true } ∷ []) ≡ false }
    ensures ending { list_any (could_run any_bot) (record (bot 1 (codes "b1")) { terminating = true } ∷ []) ≡ false }
    ensures one_of_two { count_by (could_run any_bot) (record (bot 1 (codes "b1")) { quarantined = codes "hot" } ∷ bot 2 (codes "b2") ∷ []) ≡ 1 }
{}

/// A set that a bot matches counts it no longer once it is not fit, and no other set changes.
pub fn a_set_counts_one_bot_less()
    ensures own { recounted (has (codes "b1")) false (record { dims = any_bot; count = 2 }) ≡ record { dims = any_bot; count = 1 } }
    ensures other { recounted (has (codes "b1")) false (record { dims = bot_called (codes "b2"); count = 2 }) ≡ record { dims = bot_called (codes "b2"); count = 2 } }
{}

/// Sets of as many pairs are told apart by what they ask for.
pub fn sets_are_told_apart_by_their_pairs()
    ensures same { has_dims (bot_called (codes "b1")) (record { dims = bot_called (codes "b1"); count = 1 }) ≡ true }
    ensures other { has_dims (bot_called (codes "b1")) (record { dims = bot_called (codes "b2"); count = 1 }) ≡ false }
    ensures capable { list_any (could_run (bot_called (codes "b1"))) two_bots ≡ true }
    ensures not_capable { list_any (could_run (bot_called (codes "b3"))) two_bots ≡ false }
{}

/// What a bot is made ready for is what its entry moves into a row.
pub fn an_entry_is_ready_with_its_text()
    ensures { bot_parts (kind.Event 1 event.Quarantine (codes "no disk")) ≡ parts.Message (codes "no disk") }
{}
