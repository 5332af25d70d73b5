/// A call on the outside failed, and the count of such failures rose with it.
#[derive(Clone, Copy, Debug, PartialEq, Eq)]
pub struct Failed;
