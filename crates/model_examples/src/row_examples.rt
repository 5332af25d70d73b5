//! What entries do to the row of a task, as facts that the check computes.
ghost use Rattle.std.specs.Prelude.{◌≡◌, ◌∷◌, [], Some, None, true, false, pos, codes};
ghost use Rattle.swarm_model.specs.declared.entry.EntryKind.TheVariants as kind;
ghost use Rattle.swarm_model.specs.declared.entry.Outcome.TheVariants as outcome;
ghost use Rattle.swarm_model.specs.declared.task_state.TaskState.TheVariants.{Pending, Running, Expired, BotDied, Canceled, Killed};
ghost use Rattle.swarm_model.specs.Examples.{exited_with};
ghost use Rattle.model_examples.specs.RowExamples.{accepted, claimed, session, chunk, shown, output};

/// A task comes to its second slice at the end of the first one, and stays at it where it expires.
pub fn a_row_comes_to_its_last_slice()
    ensures accepted { shown (accepted []) ≡ Some (Pending, (0, (1000, None))) }
    ensures second { shown (accepted ((1060, kind.Slice 1 (outcome.Slice 1)) ∷ [])) ≡ Some (Pending, (1, (1060, None))) }
    ensures expired { shown (accepted ((1060, kind.Slice 1 (outcome.Slice 1)) ∷ (1120, kind.Slice 1 (outcome.Ended Expired)) ∷ [])) ≡ Some (Expired, (1, (1060, Some 1120))) }
{}

/// A chunk that comes twice is kept once, and the next one goes on behind it.
pub fn output_grows_by_what_is_new()
    ensures begun { output (claimed []) ≡ Some (false, (0, (0, None))) }
    ensures grown { output (claimed ((1020, kind.Update 1 1 1 (Some (chunk 0 5)) None) ∷ (1020, kind.Update 1 1 1 (Some (chunk 0 5)) None) ∷ (1020, kind.Update 1 1 1 (Some (chunk 5 4)) None) ∷ [])) ≡ Some (false, (9, (2, None))) }
{}

/// A run that is asked to stop runs until its last report, and was killed then. The chunk of that
/// report is kept too, and remembered.
pub fn a_run_stops_with_its_last_report()
    ensures marked { shown (claimed ((1025, kind.Kill 1) ∷ [])) ≡ Some (Running, (0, (1000, None))) }
    ensures killed { shown (claimed ((1025, kind.Kill 1) ∷ (1030, kind.Update 1 1 1 (Some (chunk 0 3)) (Some (exited_with (pos 0)))) ∷ [])) ≡ Some (Killed, (0, (1000, Some 1030))) }
    ensures last_chunk { output (claimed ((1020, kind.Update 1 1 1 (Some (chunk 0 9)) None) ∷ (1025, kind.Kill 1) ∷ (1030, kind.Update 1 1 1 (Some (chunk 9 3)) (Some (exited_with (pos 0)))) ∷ [])) ≡ Some (true, (12, (2, Some 9))) }
{}

/// A task that waits ends as it is canceled. A run ends with its bot's silence, or with its bot's
/// next session.
pub fn a_row_ends_without_a_report()
    ensures canceled { shown (accepted ((1005, kind.Cancel 1) ∷ [])) ≡ Some (Canceled, (0, (1000, Some 1005))) }
    ensures silent { shown (claimed ((2210, kind.Silence 1) ∷ [])) ≡ Some (BotDied, (0, (1000, Some 2210))) }
    ensures next_session { shown (claimed (session (1040, codes "s2") ∷ [])) ≡ Some (BotDied, (0, (1000, Some 1040))) }
{}
