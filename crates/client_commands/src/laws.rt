//! What holds of all runs. Each law is the contract of an empty function.
ghost use Rattle.client_commands.specs.BatchRuns.{ARunSendsEachLineOnce};

/// A run of `spawn-tasks` sends the lines that are next, one after the other, and loses at most one: the
/// progress that the files hold is that after the last line whose reply was marked and saved.
pub fn a_run_sends_each_line_once()
    ensures { ARunSendsEachLineOnce }
{}
