//! The definitions of bots at work, as facts that the check computes.
ghost use Rattle.std.specs.Prelude.{◌≡◌, ◌∷◌, [], map, Some, None, true, false, codes};
ghost use Rattle.swarm_model.specs.declared.request.Request.TheVariants as ask;
ghost use Rattle.swarm_model.specs.declared.reply.Reply.TheVariants as reply;
ghost use Rattle.swarm_model.specs.declared.rule.Rule.TheVariants as rule;
ghost use Rattle.swarm_model.specs.declared.rule.Unfit.TheVariants as unfit;
ghost use Rattle.swarm_model.specs.declared.task_state.TaskState.TheVariants.{Pending, Running, Expired, BotDied, NoResource};
ghost use Rattle.swarm_model.specs.Examples.{settings, properties, small_task};
ghost use Rattle.model_examples.specs.Examples.{two_slices};
ghost use Rattle.model_examples.specs.BotExamples.{script, from, greets, polls, claims, has, stands, comes_to, with_tolerance};

/// An idle bot that polls again and again sleeps for 1, 2, 4 and so on to 60 seconds.
pub fn naps_grow_to_a_minute()
    ensures { (script ((1000, greets (codes "b1") (codes "s")) ∷ (1000, polls (codes "b1")) ∷ (1000, polls (codes "b1")) ∷ (1000, polls (codes "b1")) ∷ (1000, polls (codes "b1")) ∷ (1000, polls (codes "b1")) ∷ (1000, polls (codes "b1")) ∷ (1000, polls (codes "b1")) ∷ (1000, polls (codes "b1")) ∷ [])).replies
        ≡ reply.Shaken (codes "b1") ∷ reply.Sleep 1 ∷ reply.Sleep 2 ∷ reply.Sleep 4 ∷ reply.Sleep 8 ∷ reply.Sleep 16 ∷ reply.Sleep 32 ∷ reply.Sleep 60 ∷ reply.Sleep 60 ∷ [] }
{}

/// A bot that is to end gets no task until it comes with another session.
pub fn a_terminating_bot_begins_anew()
    ensures { (script ((1000, greets (codes "b1") (codes "s")) ∷ (1000, ask.Terminate (codes "b1")) ∷ (1000, polls (codes "b1")) ∷ (1000, claims (codes "b1") (codes "c1")) ∷ (1000, greets (codes "b1") (codes "t")) ∷ (1000, polls (codes "b1")) ∷ [])).replies
        ≡ reply.Shaken (codes "b1") ∷ reply.Terminating ∷ reply.Terminate ∷ reply.No (rule.BotUnfit unfit.Terminating) ∷ reply.Shaken (codes "b1") ∷ reply.Sleep 1 ∷ [] }
{}

/// A bot that is to end is told so before it is told to sleep for its quarantine; a claim names
/// the quarantine first.
pub fn terminate_before_quarantine()
    ensures { (script ((1000, greets (codes "b1") (codes "s")) ∷ (1000, ask.Terminate (codes "b1")) ∷ (1000, ask.Poll (codes "b1") (has (codes "b1")) (codes "hot")) ∷ (1000, claims (codes "b1") (codes "c1")) ∷ [])).replies
        ≡ reply.Shaken (codes "b1") ∷ reply.Terminating ∷ reply.Terminate ∷ reply.No (rule.BotUnfit unfit.Quarantined) ∷ [] }
{}

/// A claim that is repeated is answered the same run; once the run has ended by silence, it is
/// over.
pub fn a_claim_acts_once()
    ensures again { (script ((1000, greets (codes "b1") (codes "s")) ∷ (1000, ask.New (small_task 600)) ∷ (1000, claims (codes "b1") (codes "c1")) ∷ (1000, claims (codes "b1") (codes "c1")) ∷ [])).replies
        ≡ reply.Shaken (codes "b1") ∷ reply.New 1 Pending ∷ reply.Run 1 1 0 1200 properties ∷ reply.Run 1 1 0 1200 properties ∷ [] }
    ensures over { (script ((1000, greets (codes "b1") (codes "s")) ∷ (1000, ask.New (small_task 600)) ∷ (1000, claims (codes "b1") (codes "c1")) ∷ (2200, claims (codes "b1") (codes "c1")) ∷ [])).replies
        ≡ reply.Shaken (codes "b1") ∷ reply.New 1 Pending ∷ reply.Run 1 1 0 1200 properties ∷ reply.No (rule.ClaimOver 1 1 BotDied) ∷ [] }
{}

/// A bot that counts as dead and has a run still is alive again once it repeats its claim.
pub fn a_repeated_claim_is_a_sign_of_life()
    ensures dead { stands (script ((1000, greets (codes "b1") (codes "s")) ∷ (1000, ask.New (small_task 600)) ∷ (1000, claims (codes "b1") (codes "c1")) ∷ (1600, ask.Count None) ∷ [])) 1 ≡ Some (true, (false, Some 1)) }
    ensures alive { stands (script ((1000, greets (codes "b1") (codes "s")) ∷ (1000, ask.New (small_task 600)) ∷ (1000, claims (codes "b1") (codes "c1")) ∷ (1600, claims (codes "b1") (codes "c1")) ∷ [])) 1 ≡ Some (false, (false, Some 1)) }
{}

/// A bot that comes with another session in the middle of its run has lost that run.
pub fn another_session_ends_the_run()
    ensures task { comes_to (script ((1000, greets (codes "b1") (codes "s")) ∷ (1000, ask.New (small_task 600)) ∷ (1000, claims (codes "b1") (codes "c1")) ∷ (1010, greets (codes "b1") (codes "t")) ∷ [])) 1 ≡ Some (BotDied, 0) }
    ensures bot { stands (script ((1000, greets (codes "b1") (codes "s")) ∷ (1000, ask.New (small_task 600)) ∷ (1000, claims (codes "b1") (codes "c1")) ∷ (1010, greets (codes "b1") (codes "t")) ∷ [])) 1 ≡ Some (false, (false, None)) }
{}

/// Silence for as long as the task tolerates it ends the run; the bot is dead until it comes with
/// another session.
pub fn silence_ends_the_run()
    ensures before { comes_to (script ((1000, greets (codes "b1") (codes "s")) ∷ (1000, ask.New (with_tolerance 60 (small_task 600))) ∷ (1000, claims (codes "b1") (codes "c1")) ∷ (1059, ask.Count None) ∷ [])) 1 ≡ Some (Running, 0) }
    ensures after { comes_to (script ((1000, greets (codes "b1") (codes "s")) ∷ (1000, ask.New (with_tolerance 60 (small_task 600))) ∷ (1000, claims (codes "b1") (codes "c1")) ∷ (1060, ask.Count None) ∷ [])) 1 ≡ Some (BotDied, 0) }
    ensures refused { (script ((1000, greets (codes "b1") (codes "s")) ∷ (1000, ask.New (with_tolerance 60 (small_task 600))) ∷ (1000, claims (codes "b1") (codes "c1")) ∷ (1061, polls (codes "b1")) ∷ (1061, greets (codes "b1") (codes "s")) ∷ (1061, polls (codes "b1")) ∷ (1061, greets (codes "b1") (codes "t")) ∷ (1061, polls (codes "b1")) ∷ [])).replies
        ≡ reply.Shaken (codes "b1") ∷ reply.New 1 Pending ∷ reply.Run 1 1 0 60 properties ∷ reply.No (rule.BotUnfit unfit.Dead) ∷ reply.Shaken (codes "b1") ∷ reply.No (rule.BotUnfit unfit.Dead) ∷ reply.Shaken (codes "b1") ∷ reply.Sleep 1 ∷ [] }
{}

/// A claim gets a slice in its last second, and the next one at its deadline.
pub fn claims_at_a_deadline()
    ensures last_second { comes_to (script ((1000, greets (codes "b1") (codes "s")) ∷ (1000, ask.New (two_slices true true)) ∷ (1059, claims (codes "b1") (codes "c1")) ∷ [])) 1 ≡ Some (Running, 0) }
    ensures deadline { comes_to (script ((1000, greets (codes "b1") (codes "s")) ∷ (1000, ask.New (two_slices true true)) ∷ (1060, claims (codes "b1") (codes "c1")) ∷ [])) 1 ≡ Some (Running, 1) }
    ensures last_slice { comes_to (script ((1000, greets (codes "b1") (codes "s")) ∷ (1000, ask.New (two_slices true true)) ∷ (1119, claims (codes "b1") (codes "c1")) ∷ [])) 1 ≡ Some (Running, 1) }
    ensures too_late { comes_to (script ((1000, greets (codes "b1") (codes "s")) ∷ (1000, ask.New (two_slices true true)) ∷ (1120, claims (codes "b1") (codes "c1")) ∷ [])) 1 ≡ Some (Expired, 1) }
{}

/// A bot that comes later changes nothing of a task that ended without a resource; a slice that
/// doesn't wait is open where a bot is there already, also a busy one.
pub fn capable_bots_open_slices()
    ensures ended { comes_to (script ((1000, ask.New (two_slices false false)) ∷ (1000, greets (codes "b1") (codes "s")) ∷ (1000, claims (codes "b1") (codes "c1")) ∷ [])) 1 ≡ Some (NoResource, 1) }
    ensures begun { comes_to (script ((1000, greets (codes "b1") (codes "s")) ∷ (1000, ask.New (two_slices false false)) ∷ [])) 1 ≡ Some (Pending, 0) }
    ensures busy { comes_to (script ((1000, greets (codes "b1") (codes "s")) ∷ (1000, ask.New (small_task 600)) ∷ (1000, claims (codes "b1") (codes "c1")) ∷ (1000, ask.New (two_slices false false)) ∷ [])) 2 ≡ Some (Pending, 0) }
{}

/// A pool takes as many bots as its settings say; a bot that is known is no new one.
pub fn one_bot_of_one()
    ensures { (from (record settings { most_bots = 1 }) ((1000, greets (codes "b1") (codes "s")) ∷ (1000, greets (codes "b2") (codes "s")) ∷ (1000, greets (codes "b1") (codes "t")) ∷ [])).replies
        ≡ reply.Shaken (codes "b1") ∷ reply.No (rule.PoolBotsFull 1) ∷ reply.Shaken (codes "b1") ∷ [] }
{}
