use dimensions::{BotDims, DimSet};

/// What the tasks of a queue have in common: the dimensions with which they wait, and the number of
/// the bot that they are kept from, where there is one.
#[derive(Drop)]
pub struct QueueSet {
    pub dims: DimSet,
    pub but: Option<u32>,
}

impl QueueSet {
    ghost use Rattle.std.specs.Prelude.{◌≡◌, ◌≢◌, IsTrue, IsFalse};
    ghost use Rattle.dim_queue.specs.Taking.{taker, set_with, may_take};

    /// Whether these are the dimensions, and this the bot that is kept out.
    pub fn is(&self, dims: &DimSet, but: Option<u32>) -> bool
        ensures same { IsTrue result → self.now ≡ set_with dims.now but }
        ensures other { IsFalse result → self.now ≢ set_with dims.now but }
    {
        self.dims == *dims && self.but == but
    }

    /// Whether the bot of this number, with these dimensions, may take a task of the queue. Its
    /// dimensions are matched only where it is not kept out.
    pub fn may_take(&self, no: u32, bot: &BotDims) -> bool
        ensures { result ≡ may_take (taker no bot.now) self.now }
    {
        match self.but {
            Some(but) if but == no => false,
            _ => self.dims.matches(bot),
        }
    }
}
