ghost use Rattle.std.specs.Prelude.{◌≡◌, [], ◌∷◌, Some};
ghost use Rattle.std.specs.Option.{option_map_or};
ghost use Rattle.pool_laws.specs.NamedBlobs.{NamedBlobsAreThere};
ghost use Rattle.pool_laws.specs.OutputLaw.{OutputIsTold};
ghost use Rattle.pool_laws.specs.Worked.{BlobIsKept, ItHappens, OutcomeIsTaken, OutputIsReported, RunIsRetried, RunsEnd, begun_output, ended_log, kept_log, reported_log, retried_log, retrying, sent_again, taken_log};
ghost use Rattle.swarm_model.specs.declared.task_state.TaskState.TheVariants.{Canceled, Completed, Killed};
ghost use Rattle.swarm_model.specs.declared.entry.EntryKind.TheVariants as kind;
ghost use Rattle.swarm_model.specs.Answers.{answer, entry_at};
ghost use Rattle.swarm_model.specs.Claims.{ClaimsAreRight, RunsAreRight, claimants};
ghost use Rattle.swarm_model.specs.DueLaw.{DueIsEarliest};
ghost use Rattle.swarm_model.specs.Effects.{attempt_of, opening};
ghost use Rattle.swarm_model.specs.Examples.{settings};
ghost use Rattle.swarm_model.specs.History.{replay};
ghost use Rattle.swarm_model.specs.RefusalLaw.{RefusalsAddNothing};
ghost use Rattle.swarm_model.specs.Repeats.{ClaimAgain, ClaimIsOver, ContactChanges, HandshakeAgain, NewTaskAgain, UpdateAgain, UpdateIsOver, UuidIsTaken};
ghost use Rattle.swarm_model.specs.ReuseLaw.{OutcomesAreTaken, ReuseIsFirst, SourceIsNewest};
ghost use Rattle.swarm_model.specs.Soundness.{StaysSound};
ghost use Rattle.swarm_model.specs.Verdicts.{FinalsStay, TallyAddsUp, TallyCountsVerdicts, VerdictsAreStates, verdict};

/// Every pool that a log leads to is sound: among others, it has no more tasks and bots than its
/// settings allow, and no two bots have one name.
pub fn stays_sound()
    ensures { StaysSound }
{}

/// The deadline that is due is one of the pool that has come, and no other goes before it, by moment,
/// then cause, then number; none is due exactly where none has come.
pub fn due_is_the_earliest()
    ensures { DueIsEarliest }
{}

/// A claim comes when nothing is due, from a fit bot that runs nothing, of a task that was never
/// claimed, or just once, by another bot whose run is tried again, and that comes first among those
/// that wait for such a bot and are not kept from it.
pub fn claims_are_right()
    ensures { ClaimsAreRight }
{}

/// The runs of a task are those of the bots that claimed it, in the order of their claims. At most one
/// was lost and is tried again: where the pool does so, the slice is idempotent, and the run was the
/// first and was not asked to stop. The bot of that run never claims the task again.
pub fn runs_are_right()
    ensures { RunsAreRight }
{}

/// The state of each task is the one that the log alone tells.
pub fn verdicts_are_states()
    ensures { VerdictsAreStates }
{}

/// The row of a task that has ended stays as it is, whatever follows.
pub fn finals_stay()
    ensures { FinalsStay }
{}

/// The tally counts, for each state, the accepted tasks of which the log tells it, and so it adds
/// up to all of them.
pub fn tally_counts_verdicts()
    ensures counts { TallyCountsVerdicts }
    ensures adds_up { TallyAddsUp }
{}

/// A request that is refused adds no entry.
pub fn refusals_add_nothing()
    ensures { RefusalsAddNothing }
{}

/// A task that is sent again under its uuid is told once more and adds nothing; another one under
/// that uuid is refused. A claim, a handshake or a report that is sent again says only that the bot
/// was heard; a claim whose attempt has ended is refused, and so is a report of it that is not the
/// one that ended it.
pub fn repeats_act_once()
    ensures new_task { NewTaskAgain }
    ensures uuid_taken { UuidIsTaken }
    ensures claim { ClaimAgain }
    ensures claim_over { ClaimIsOver }
    ensures handshake { HandshakeAgain }
    ensures update { UpdateAgain }
    ensures update_over { UpdateIsOver }
    ensures contact { ContactChanges }
{}

/// The newest source is a task whose outcome may be taken, and no such task has a greater number. The
/// slice that takes an outcome has a source, and none before it has one. None is found exactly where
/// there is none.
pub fn sources_are_the_newest()
    ensures source { SourceIsNewest }
    ensures slice { ReuseIsFirst }
{}

/// A task that took the outcome of another completed without a run, and that other is an earlier
/// task of the pool, which ran, reported 0, and is at a slice that may stand for others and has the
/// hash of the new task's slice.
pub fn outcomes_are_taken_over()
    ensures { OutcomesAreTaken }
{}

/// The parts that a pool tells of a task's output are the bytes that were asked for, of the chunks
/// that are kept, in their order.
pub fn output_is_told()
    ensures { OutputIsTold }
{}

/// A reply names only blobs that the pool has, each with the size that it names or as many bytes as a
/// part of an output needs.
pub fn named_blobs_are_there()
    ensures { NamedBlobsAreThere }
{}

/// A log in which a bot comes, claims a task, is heard again, and is lost with its run: it is one
/// that a pool may have, so the laws speak of something.
pub fn a_claim_happens()
    ensures { ItHappens }
{}

/// So is one in which a task is canceled while it waits, and another is asked to stop and ends by
/// the report of its bot.
pub fn a_run_ends()
    ensures happens { RunsEnd }
    ensures killed { verdict settings ended_log 1 ≡ Killed }
    ensures canceled { verdict settings ended_log 2 ≡ Canceled }
{}

/// So is one in which a task takes the outcome of another, which ran and reported 0.
pub fn an_outcome_is_taken()
    ensures happens { OutcomeIsTaken }
    ensures completed { verdict settings taken_log 2 ≡ Completed }
{}

/// So is one in which a run is lost and another bot runs the task once more.
pub fn a_run_is_retried()
    ensures happens { RunIsRetried }
    ensures claimants { claimants 1 retried_log ≡ 1 ∷ 2 ∷ [] }
    ensures completed { verdict retrying retried_log 1 ≡ Completed }
{}

/// So is one in which a run reports its output in two chunks, the first of them twice, and ends. The
/// chunk that is sent again says only that the bot was heard, and counts once.
pub fn an_output_is_reported()
    ensures happens { OutputIsReported }
    ensures again { (answer begun_output [] 1004 0 sent_again).entry ≡ Some (entry_at 1004 0 (kind.Contact 1)) }
    ensures length { option_map_or (λ attempt. attempt.length) (attempt_of (replay (opening settings) reported_log) 1) 0 ≡ 11 }
{}

/// So is one in which a blob is put, is kept at its deadline since a task needs it, and is removed at
/// the next one.
pub fn a_blob_is_kept()
    ensures happens { BlobIsKept }
    ensures removed { (replay (opening settings) kept_log).blobs ≡ [] }
{}
