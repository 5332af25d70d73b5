ghost use Rattle.log_laws.specs.Calls.{CallsAreTold, StopsAddNoUpdate};
ghost use Rattle.log_laws.specs.Checked.{PropertiesAreChecked};
ghost use Rattle.log_laws.specs.Names.{NamesLast, NamesTellNumbers, NewNamesAreNew};
ghost use Rattle.log_laws.specs.Replies.{ChunksAreTaken, RunsAreTold, UpdatesAreAsked};
ghost use Rattle.log_laws.specs.Runs.{AttemptsAreTold};
ghost use Rattle.log_laws.specs.Sent.{NewIsAsked, RepliesAreTold, SentBefore, SentOnce};
ghost use Rattle.log_laws.specs.Worked.{LostTooLong, ReportedAgain};

/// A log accepts at most one task of a caller under a uuid, and none where the base has one. A reply
/// to a task under a uuid that the base has not tells the number of the one that the log accepted, by
/// this request or earlier.
pub fn tasks_are_sent_once()
    ensures once { SentOnce }
    ensures before { SentBefore }
    ensures told { RepliesAreTold }
{}

/// An answer accepts no task but the one that is asked for, of the caller who asks.
pub fn new_is_asked()
    ensures { NewIsAsked }
{}

/// A bot keeps its number and its name. In a sound pool each of them tells the other, and a bot whose
/// name the base has not is none of the base's.
pub fn names_last()
    ensures last { NamesLast }
    ensures tell { NamesTellNumbers }
    ensures new { NewNamesAreNew }
{}

/// Of each run of a bot that the base has not, the log has the claim, an update for each chunk that is
/// kept, and the one that ended it. No other claim of that task is by that bot, and each chunk that the
/// log has of the run lies within the output that is kept.
pub fn attempts_are_told()
    ensures { AttemptsAreTold }
{}

/// An update that an answer adds is the request. A run that a claim is told is one that the bot has
/// under this id, or the answer adds the claim. A chunk that is taken is kept of the bot's run, or the
/// answer adds its update.
pub fn pool_tells()
    ensures updates { UpdatesAreAsked }
    ensures runs { RunsAreTold }
    ensures chunks { ChunksAreTaken }
{}

/// What a call adds to a log, and what stands in the log once it is answered: behind a run that is told
/// the claim, and behind a chunk that is taken its update. A call that stops adds no update.
pub fn calls_are_told()
    ensures calls { CallsAreTold }
    ensures stops { StopsAddNoUpdate }
{}

/// The properties of each slice of each task break no rule.
pub fn properties_are_checked()
    ensures { PropertiesAreChecked }
{}

/// A bot that asks again after lost replies: its output is kept once however often it is reported, and
/// so is its last report; and a claim whose answer is lost until the bot counts as silent is over.
pub fn a_bot_asks_again()
    ensures reported { ReportedAgain }
    ensures lost { LostTooLong }
{}
