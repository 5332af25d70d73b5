use crate::limits::OPEN_LIMITS;
use bot_core::{BotEvent, BotLimits};

/// What is wanted of a bot at a line.
#[derive(Drop)]
pub(crate) enum Wanted {
    /// The action, in words.
    Action(String),
    /// No such event can come.
    NotExpected,
    /// That this event follows, both so many times in turn.
    Repeated { then: BotEvent, times: u32 },
}

/// A line of a course: an event at a moment.
#[derive(Drop)]
pub(crate) struct Row {
    pub line: usize,
    /// It is of another bot, which comes here by the rows above and ends here.
    pub aside: bool,
    pub event: BotEvent,
    pub moment: u64,
    pub wanted: Wanted,
}

/// The rows of one bot, from its begin on.
#[derive(Drop)]
pub(crate) struct Course {
    pub name: String,
    pub limits: BotLimits,
    pub rows: Vec<Row>,
    /// How many of the rows, at the front, are those of an earlier course.
    pub taken: usize,
}

impl Course {
    pub(crate) fn new(name: String, rows: Vec<Row>) -> Course {
        Course {
            name,
            limits: OPEN_LIMITS,
            rows,
            taken: 0,
        }
    }
}
