ghost use Rattle.batch_plays.specs.Once.{EachOnce};

/// Whatever turns come, the log accepts at most one task of the caller under the uuid of each line.
/// Where a line is marked with an id, it accepts exactly one, which is the task of that line and of that
/// id. The turns add no task of the caller but those of the lines.
pub fn each_task_is_sent_once()
    ensures { EachOnce }
{}
