/// A task that waits for a bot. The lower priority goes first, and at equal priorities the lower
/// number.
#[derive(Clone, Copy, Debug, PartialEq, Eq)]
pub struct Waiting {
    pub priority: u32,
    pub number: u32,
}
