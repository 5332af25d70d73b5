/// The boards of a server, and how often the pools are posted to them.
#[derive(Clone, Copy, Debug, PartialEq, Eq)]
pub struct BoardPlan {
    pub boards: u32,
    /// How many links each board serves at most.
    pub connections: u32,
    /// How many seconds pass between two rounds of posts.
    pub every: u32,
    /// How many rounds of posts there are at most.
    pub rounds: u32,
}
