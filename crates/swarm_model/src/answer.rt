use crate::{Entry, EntryKind, Reply};

/// A reply, and the entry that it adds to the log.
#[derive(Drop)]
pub struct Answer {
    pub reply: Reply,
    pub entry: Option<Entry>,
}

/// A reply, and the kind of the entry that it adds to the log.
#[derive(Drop)]
pub struct Decision {
    pub reply: Reply,
    pub entry: Option<EntryKind>,
}
