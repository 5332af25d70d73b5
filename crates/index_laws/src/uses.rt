ghost use Rattle.index_laws.specs.TaskUses.{NamesOfTouched, UseIsCounted, UsesAreFew, UsesOfRowsWeigh, UsesOfTouched, UsesWeigh, UsesWhereEnded, UsesWhereNotEnded};

/// A task needs the blob of a digest exactly where the count of the digest's uses is not 0.
pub fn use_is_counted()
    ensures { UseIsCounted }
{}

/// What the touched task uses after an entry: nothing, where it has ended, and else what it used
/// before and what the entry brings. Its inputs and its output name each of these uses, also where
/// it has ended.
pub fn uses_of_touched()
    ensures uses { UsesOfTouched }
    ensures names { NamesOfTouched }
{}

/// An entry after which the touched task has ended takes the uses that the task had before; any
/// other adds those that it brings.
pub fn uses_change()
    ensures ended { UsesWhereEnded }
    ensures not_ended { UsesWhereNotEnded }
{}

/// Each use weighs as much as a digest, in the entry that brings it and in the row that has it. So
/// the uses of a digest are few where the log and the rows from which it begins weigh little.
pub fn uses_are_few()
    ensures brought { UsesWeigh }
    ensures rows { UsesOfRowsWeigh }
    ensures all { UsesAreFew }
{}
