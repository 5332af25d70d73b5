ghost use Rattle.index_laws.specs.BlobDeadlines.{BlobDeadlinesFollow};
ghost use Rattle.index_laws.specs.RowDeadlines.{TaskDeadlinesFollow, BotDeadlinesFollow, DeadlineIsNext};

/// After an entry the deadlines of tasks are those of before, with the one of the touched task set
/// anew.
pub fn task_deadlines_follow()
    ensures { TaskDeadlinesFollow }
{}

/// After an entry the deadlines of bots are those of before, with the one of the touched bot set
/// anew.
pub fn bot_deadlines_follow()
    ensures { BotDeadlinesFollow }
{}

/// After an entry the deadlines of blobs are those of before, without the one of the touched blob
/// before the entry and with the one after it.
pub fn blob_deadlines_follow()
    ensures { BlobDeadlinesFollow }
{}

/// The earliest of the tasks' first deadline, the bots' and the blobs' is the next of the pool.
pub fn deadline_is_next()
    ensures { DeadlineIsNext }
{}
