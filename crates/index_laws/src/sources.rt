ghost use Rattle.index_laws.specs.TaskSources.{CreatedInOrder, SourceHashIsKnownBefore, SourceIsFound, SourcesFollow};

/// After an entry the sources are those of before, where the link of the touched task was noted.
pub fn sources_follow()
    ensures { SourcesFollow }
{}

/// Only a last report of 0 brings a source, and its hash is that of the slice to which the task has
/// come before the entry. So the hash can be made before the entry is written.
pub fn source_hash_is_known_before()
    ensures { SourceHashIsKnownBefore }
{}

/// Rows of lower numbers were created no later, in every pool to which a log leads from the rows of
/// a base.
pub fn created_in_order()
    ensures { CreatedInOrder }
{}

/// The task that stands under a hash is the newest one whose outcome a slice with the hash may take,
/// where it is young enough; where it isn't, there is no such task.
pub fn source_is_found()
    ensures { SourceIsFound }
{}
