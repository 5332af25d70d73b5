//! What holds of all batches. Each law is the contract of an empty function.
ghost use Rattle.swarm_batch.specs.Named.{ChangesNothingElse};
ghost use Rattle.swarm_batch.specs.Tasks.{NamingKeepsTheTask, NamedTaskHasUuid};
ghost use Rattle.swarm_batch.specs.Laws.{UuidsAreInOrder, UuidsAreApart, ProgressIsRead, BatchIsReadAgain};

/// What is read under any key but the uuid's is what the line has there.
#[tactic(auto, unfolding(json_fields::specs::Fields::present))]
pub fn naming_changes_nothing_else()
    ensures { ChangesNothingElse }
{}

/// What is sent for a line is the task of the line, under the line's uuid.
pub fn naming_keeps_the_task()
    ensures task { NamingKeepsTheTask }
    ensures uuid { NamedTaskHasUuid }
{}

/// The uuids of the lines of a batch are in order, and those of different names or lines differ.
pub fn each_line_has_a_uuid()
    ensures order { UuidsAreInOrder }
    ensures apart { UuidsAreApart }
{}

/// What is written of marks is read as these marks, unless memory is wanting.
pub fn a_progress_is_read()
    ensures { ProgressIsRead }
{}

/// A file and the progress of its batch are read as that batch, unless memory is wanting.
pub fn a_batch_is_read_again()
    ensures { BatchIsReadAgain }
{}
