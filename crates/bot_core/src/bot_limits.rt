/// How much a bot does at most.
#[derive(Clone, Copy, Debug, PartialEq, Eq)]
pub struct BotLimits {
    /// Runs that were cleaned up. The bot stops behind the first one also where this is 0.
    pub tasks: u32,
    /// Polls that are sent, those that are sent again among them.
    pub polls: u32,
    /// Actions, a Stop among them.
    pub steps: u32,
}
