use dimensions::{BotDims, Text};

/// What a reader is shown of a bot, after `swarming.v2.BotInfo`. The moment is in whole seconds. The
/// run that the bot has is named by the numbers of its task and its try.
#[derive(Drop)]
pub struct BotView {
    pub bot_id: Text,
    pub dimensions: BotDims,
    pub is_dead: bool,
    pub last_seen_ts: u64,
    /// Why the bot takes no work; empty where it does.
    pub quarantined: Text,
    pub task_id: Option<(u32, u32)>,
    pub terminating: bool,
}
