/// Whether what stands in a file is what was kept.
#[derive(Clone, Copy, Debug, PartialEq, Eq)]
pub(crate) enum Standing {
    /// It is.
    Open,
    /// A call failed, so the file has to be opened anew first.
    Shut,
    /// It isn't, so each call fails.
    Lost,
}

/// What a file has as it is opened anew.
#[derive(Clone, Copy, Debug, PartialEq, Eq)]
pub(crate) enum Found {
    AsKept,
    /// The line of the call that failed besides.
    WithLine,
    Others,
}
