ghost use Rattle.std.specs.Prelude.{◌≡◌, [], ◌∷◌};
ghost use Rattle.pool_laws.specs.Bases.{ClaimsFromABase, RestIsLegal, RestTellsTheSame, RunsFromABase, StatesFromABase, TallyAddsUpFromABase, TallyFromABase};
ghost use Rattle.pool_laws.specs.WorkedBase.{TaskMoves, moved_base, told_before};
ghost use Rattle.swarm_model.specs.Before.{before, verdict_since};
ghost use Rattle.swarm_model.specs.declared.task_state.TaskState.TheVariants.{Running};

/// The state of each task is the one that its row in the base and the log since tell.
pub fn states_from_a_base()
    ensures { StatesFromABase }
{}

/// Each claim is right where what the base tells of its task stands before the log.
pub fn claims_from_a_base()
    ensures { ClaimsFromABase }
{}

/// The runs of each task are those that the base has of it and those of the claims since.
pub fn runs_from_a_base()
    ensures { RunsFromABase }
{}

/// The tally counts, for each state, the tasks of which the base and the log since tell it, and so it
/// adds up to the tasks of the base and those that were accepted since.
pub fn tally_from_a_base()
    ensures counts { TallyFromABase }
    ensures adds_up { TallyAddsUpFromABase }
{}

/// Where a log is cut, its rest is legal from the rows at the cut, and those rows and the rest tell the
/// same of each task as the base and the whole log.
pub fn bases_tell_the_same()
    ensures legal { RestIsLegal }
    ensures verdict { RestTellsTheSame }
{}

/// A base in which a task runs that was lost before, at another slice: what its row stands for.
pub fn a_base_is_told()
    ensures happens { TaskMoves }
    ensures told { before moved_base 1 ≡ told_before }
    ensures running { verdict_since moved_base [] 1 ≡ Running }
{}
