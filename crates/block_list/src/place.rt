/// A place in a list of blocks: the number of a block, and how many of its items stand before.
#[derive(Clone, Copy)]
pub(crate) struct Place {
    pub block: usize,
    pub offset: usize,
}
