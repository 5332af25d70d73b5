use crate::{CachePath, PreparedCache};
use bot_core::Signal;
use dimensions::{Seq, Text};

/// A call on a runner, with all that was handed in.
#[derive(Drop)]
pub enum RunnerCall {
    Open {
        bot: Text,
    },
    Prepare {
        run: Text,
        inputs: Seq<(Text, Seq<u8>)>,
        caches: Seq<PreparedCache>,
    },
    Start {
        command: Seq<Text>,
        env: Seq<(Text, Text)>,
    },
    /// `room` is the length of the buffer.
    Look {
        room: usize,
    },
    Signal {
        signal: Signal,
    },
    Collect {
        path: Text,
        most: u64,
    },
    Clean {
        caches: Seq<CachePath>,
    },
    Keep {
        names: Seq<Text>,
    },
}
