use bot_core::{Action, Bot};
use bot_worlds::{ChildRun, Got, Sent};
use dimensions::{BotDims, Text};

/// The bot, with what it sent and got, and with the runs that it was told of.
#[derive(Drop)]
pub(crate) struct BotEnd {
    pub(crate) bot: Bot,
    /// What the bot asks for.
    pub(crate) action: Action,
    pub(crate) name: Text,
    pub(crate) dims: BotDims,
    pub(crate) sent: Vec<Sent>,
    pub(crate) got: Vec<Got>,
    /// The newest first.
    pub(crate) runs: Vec<ChildRun>,
    /// The bytes of output that wait to be sent.
    pub(crate) pending: Vec<u8>,
    /// The place of the present request, also while the bot sleeps before it is sent again.
    pub(crate) asking: Option<usize>,
}
