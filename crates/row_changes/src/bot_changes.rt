//! What an entry does to the row of one bot, and the row of a session.
ghost use Rattle.std.specs.Prelude.{◌≡◌, [], true, Some, None};
ghost use Rattle.swarm_model.specs.Effects.{session_row, silent_bot, heard, streak_after, polled, event_effect};

use crate::{Change, Row};
use dimensions::{BotDims, Text};
use std::mem;
use swarm_model::{BotRow, EventKind};

impl Row for BotRow {
    ghost use Rattle.swarm_model.specs.Effects.{no_of_bot};

    ghost no = { no_of_bot };

    fn no(&self) -> u32 {
        self.no
    }
}

/// The row of a bot that comes with a new session.
pub fn session_row(
    moment: u64,
    no: u32,
    name: Text,
    session: Text,
    dims: BotDims,
    quarantined: Text,
) -> BotRow
    ensures { result ≡ session_row moment no name session dims quarantined }
{
    BotRow {
        no,
        name,
        session,
        dims,
        contact: moment,
        streak: 0,
        quarantined,
        dead: false,
        terminating: false,
        task: None,
    }
}

fn be_heard(bot: &mut BotRow, moment: u64)
    ensures { bot.new ≡ heard moment bot.old }
{
    bot.contact = moment;
    bot.dead = bot.dead && bot.task.is_none();
}

/// The number of naps in a row, after a poll.
fn streak_after(hint: bool, bot: &BotRow) -> u32
    ensures { result ≡ streak_after hint bot.now }
{
    if hint {
        0
    } else if bot.terminating {
        bot.streak
    } else {
        bot.streak.saturating_add(1).min(63)
    }
}

fn be_polled(
    bot: &mut BotRow,
    moment: u64,
    dims: Option<BotDims>,
    quarantined: Option<Text>,
    hint: bool,
)
    ensures { bot.new ≡ polled moment dims quarantined hint bot.old }
{
    bot.streak = streak_after(hint, bot);
    be_heard(bot, moment);
    if let Some(dims) = dims {
        drop(mem::replace(&mut bot.dims, dims));
    }
    if let Some(text) = quarantined {
        drop(mem::replace(&mut bot.quarantined, text));
    }
}

fn quarantine(bot: &mut BotRow, text: Text)
    ensures { bot.new ≡ record bot.old { quarantined = text } }
{
    drop(mem::replace(&mut bot.quarantined, text));
}

fn be_told(bot: &mut BotRow, moment: u64, which: EventKind, message: Text, empty: Text)
    requires { empty ≡ [] }
    ensures { bot.new ≡ event_effect moment which message bot.old }
{
    be_heard(bot, moment);
    match which {
        EventKind::Ping => {
            drop(message);
            drop(empty);
        }
        EventKind::Quarantine => {
            drop(empty);
            quarantine(bot, message);
        }
        EventKind::Unquarantine => {
            drop(message);
            quarantine(bot, empty);
        }
    }
}

/// The bot was heard at a moment.
#[derive(Drop)]
pub struct RecordContact {
    pub moment: u64,
}

impl Change<BotRow> for RecordContact {
    ghost use Rattle.std.specs.Prelude.{⊤};
    ghost use Rattle.swarm_model.specs.Effects.{heard};

    ghost change = { λ c. heard c.moment };

    ghost fits = { λ bot. ⊤ };

    fn apply(self, row: &mut BotRow) {
        be_heard(row, self.moment);
    }
}

/// The bot asked what to do.
#[derive(Drop)]
pub struct Poll {
    pub moment: u64,
    pub dims: Option<BotDims>,
    pub quarantined: Option<Text>,
    pub hint: bool,
}

impl Change<BotRow> for Poll {
    ghost use Rattle.std.specs.Prelude.{⊤};
    ghost use Rattle.swarm_model.specs.Effects.{polled};

    ghost change = { λ c. polled c.moment c.dims c.quarantined c.hint };

    ghost fits = { λ bot. ⊤ };

    fn apply(self, row: &mut BotRow) {
        let Poll {
            moment,
            dims,
            quarantined,
            hint,
        } = self;
        be_polled(row, moment, dims, quarantined, hint);
    }
}

/// The bot told of itself, with an empty text that was made before.
#[derive(Drop)]
pub struct ApplyEvent {
    pub moment: u64,
    pub which: EventKind,
    pub message: Text,
    pub empty: Text,
    ghost is_empty: { empty ≡ [] },
}

impl Change<BotRow> for ApplyEvent {
    ghost use Rattle.std.specs.Prelude.{⊤};
    ghost use Rattle.swarm_model.specs.Effects.{event_effect};

    ghost change = { λ c. event_effect c.moment c.which c.message };

    ghost fits = { λ bot. ⊤ };

    fn apply(self, row: &mut BotRow) {
        let ApplyEvent {
            moment,
            which,
            message,
            empty,
        } = self;
        be_told(row, moment, which, message, empty);
    }
}

/// The bot begins a task.
#[derive(Drop)]
pub struct AssignTask {
    pub moment: u64,
    pub task: u32,
}

impl Change<BotRow> for AssignTask {
    ghost use Rattle.std.specs.Prelude.{⊤};
    ghost use Rattle.swarm_model.specs.Effects.{assigned_bot};

    ghost change = { λ c. assigned_bot c.moment c.task };

    ghost fits = { λ bot. ⊤ };

    fn apply(self, row: &mut BotRow) {
        be_heard(row, self.moment);
        row.task = Some(self.task);
    }
}

/// The bot was silent for too long.
#[derive(Drop)]
pub struct MarkDead;

impl Change<BotRow> for MarkDead {
    ghost use Rattle.std.specs.Prelude.{⊤};
    ghost use Rattle.swarm_model.specs.Effects.{dead_bot};

    ghost change = { λ c. dead_bot };

    ghost fits = { λ bot. ⊤ };

    fn apply(self, row: &mut BotRow) {
        row.dead = true;
    }
}

/// The bot is to end.
#[derive(Drop)]
pub struct MarkTerminating;

impl Change<BotRow> for MarkTerminating {
    ghost use Rattle.std.specs.Prelude.{⊤};
    ghost use Rattle.swarm_model.specs.Effects.{terminated};

    ghost change = { λ c. terminated };

    ghost fits = { λ bot. ⊤ };

    fn apply(self, row: &mut BotRow) {
        row.terminating = true;
    }
}

/// The bot begins anew, with this row.
#[derive(Drop)]
pub struct ReplaceSession {
    pub row: BotRow,
}

impl Change<BotRow> for ReplaceSession {
    ghost use Rattle.std.specs.Prelude.{⊤};

    ghost change = { λ c old. c.row };

    ghost fits = { λ bot. ⊤ };

    fn apply(self, row: &mut BotRow) {
        let ReplaceSession { row: new } = self;
        drop(mem::replace(row, new));
    }
}

/// The bot is silent, and its run is lost.
pub(crate) fn mark_silent(bot: &mut BotRow)
    ensures { bot.new ≡ silent_bot bot.old }
{
    bot.dead = true;
    bot.task = None;
}

/// The bot is done with its task.
#[derive(Drop)]
pub struct ReleaseTask;

impl Change<BotRow> for ReleaseTask {
    ghost use Rattle.std.specs.Prelude.{⊤};
    ghost use Rattle.swarm_model.specs.Effects.{idle_bot};

    ghost change = { λ c. idle_bot };

    ghost fits = { λ bot. ⊤ };

    fn apply(self, row: &mut BotRow) {
        row.task = None;
    }
}
