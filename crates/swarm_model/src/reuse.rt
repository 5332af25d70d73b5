/// The slice at which a new task takes the outcome of an earlier one, by its place from 0, and the
/// number of that task.
#[derive(Clone, Copy, Debug, PartialEq, Eq)]
pub struct Reuse {
    pub slice: u32,
    pub source: u32,
}
