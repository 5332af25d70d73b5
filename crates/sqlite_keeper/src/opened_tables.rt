/// What a file had as it was opened.
#[derive(Clone, Copy, Debug, PartialEq, Eq)]
pub(crate) enum OpenedTables {
    /// The tables of the first version, which are those of the second by now.
    First,
    /// The tables of the second version, or none: then those are made.
    Second,
    /// Others than those of a pool, or values that those don't have. All is as it was.
    Others,
}
