//! What holds over every list of events. Each law is the contract of an empty function.
ghost use Rattle.bot_core.specs.Ids.{IdsGrow};
ghost use Rattle.bot_core.specs.OpenRuns.{CleansUpEachRun};
ghost use Rattle.bot_core.specs.Output.{SendsWhatWasWritten};
ghost use Rattle.bot_core.specs.Repeats.{RepeatsRequests};
ghost use Rattle.bot_core.specs.RunLaws.{ReportsFit, ReportsInTime, StopsWhereAsked, TellsTimeouts};
ghost use Rattle.bot_core.specs.Signals.{KillsAfterTermAndGrace};
ghost use Rattle.bot_core.specs.Starts.{StartsOnce};

/// Each update, also one that is sent again, carries the bytes of what the command wrote at the
/// place that it names; and a last one that reports nothing as dropped reaches the end of it.
pub fn sends_what_was_written()
    ensures { SendsWhatWasWritten }
{}

/// A command is started at most once for a claim.
pub fn starts_once()
    ensures { StartsOnce }
{}

/// Of each run Term is sent at most once and Kill at most once, and Kill only where Term was sent
/// and the grace of the run has passed since.
pub fn kills_after_term_and_grace()
    ensures { KillsAfterTermAndGrace }
{}

/// From the answer to its claim to the answer to its CleanUp, a bot that has a run sends no
/// Handshake, Poll or Claim. So a run without a CleanUp ends in a Stop.
pub fn cleans_up_each_run()
    ensures { CleansUpEachRun }
{}

/// What is behind an action that sends requests, where the answer was lost or the server couldn't
/// act on it: a sleep of five seconds, and then the same action, or a Stop at a limit.
pub fn repeats_requests()
    ensures { RepeatsRequests }
{}

/// Each Handshake and each Claim names a later session, or a later claim of the same session, than
/// all before it, or is the last one of them sent again.
pub fn ids_grow()
    ensures { IdsGrow }
{}

/// After an update that the server answers with `must_stop` comes a look; and where the server has
/// asked for the end of a run, by that or as it refused an update for good, and Term was not sent,
/// each look that finds the command running is followed by Term. A Stop at the limit of steps may
/// come in place of either.
pub fn stops_where_asked()
    ensures { StopsWhereAsked }
{}

/// A look that finds the command running a quarter of the tolerance or more after the last update
/// is followed by an update, a signal, or a Stop at the limit of steps; unless the server has refused
/// an update of the run for good. Before the first update the start counts.
pub fn reports_in_time()
    ensures { ReportsInTime }
{}

/// A last update tells `hard_timeout` exactly where Term was sent as the limit of time was reached,
/// and `io_timeout` exactly where Term was sent as the limit without output was reached and that of
/// time was not; neither where the server had asked for the end before.
pub fn tells_timeouts()
    ensures { TellsTimeouts }
{}

/// The numbers of an update, its place and size, and of a last one the bytes that were dropped and the
/// duration, are within what a server reads.
pub fn reports_fit()
    ensures { ReportsFit }
{}
