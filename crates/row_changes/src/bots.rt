//! What an entry does to the rows of the bots.
ghost use Rattle.std.specs.Prelude.{◌≡◌, ◌<◌, map, vec_len, vec_capacity, ⊤, MatchOption};
ghost use Rattle.swarm_model.specs.Numbers.{AreNumbered};
ghost use Rattle.swarm_model.specs.Effects.{no_of_bot, if_some, idle_bot_at, bot_at, heard};
ghost use Rattle.row_changes.specs.Rows.{row_of};
ghost use Rattle.row_changes.specs.Parts.{bot_parts};
ghost use Rattle.row_changes.specs.Bots.{silent_bot_if, with_bot, bots_after, HasRoomFor, with_session, with_changes, with_message};

use crate::{
    ApplyEvent, AssignTask, BotParts, MarkDead, MarkTerminating, Poll, RecordContact, ReleaseTask,
    ReplaceSession, change_row, mark_silent, row_of, session_row,
};
use dimensions::Text;
use std::alloc::Global;
use swarm_model::{BotRow, EntryKind, EventKind, Last};

fn mark_silent_if(number: u32, bot: &mut BotRow)
    ensures { bot.new ≡ silent_bot_if number bot.old }
{
    if bot.runs_task(number) {
        mark_silent(bot);
    }
}

fn mark_silent_all(bots: &mut [BotRow], number: u32)
    ensures { bots.new ≡ map (silent_bot_if number) bots.old }
{
    for bot in bots.iter_mut() {
        mark_silent_if(number, bot);
    }
}

/// The bot that runs the task of a number is silent.
fn mark_silent_runner(bots: &mut Vec<BotRow>, number: u32)
    ensures { bots.new.items ≡ map (silent_bot_if number) bots.old.items }
{
    mark_silent_all(bots.as_mut_slice(), number);
}

/// A bot reported of its run, which may end with that.
fn report(bots: &mut Vec<BotRow>, moment: u64, number: u32, last: &Option<Last>)
    requires { AreNumbered no_of_bot 1 bots.old.items }
    ensures { bots.new.items ≡ map (λ bot. if_some (idle_bot_at number) last.now (bot_at number (heard moment) bot)) bots.old.items }
{
    change_row(bots, number, RecordContact { moment });
    if let Some(_) = last {
        change_row(bots, number, ReleaseTask);
    }
}

/// A bot comes with this row: it is there, or it is new.
fn put_row(bots: &mut Vec<BotRow>, row: BotRow)
    requires numbered { AreNumbered no_of_bot 1 bots.old.items }
    requires room { MatchOption (row_of no_of_bot row.no bots.old.items) (vec_len bots.old < vec_capacity bots.old) (λ bot. ⊤) }
    ensures { bots.new.items ≡ with_bot row bots.old.items }
{
    if row_of(bots.as_slice(), row.no).is_some() {
        change_row(bots, row.no, ReplaceSession { row });
    } else {
        bots.push_reserved(row);
    }
}

fn begin_session(bots: &mut Vec<BotRow>, moment: u64, number: u32, parts: BotParts)
    requires numbered { AreNumbered no_of_bot 1 bots.old.items }
    requires room { MatchOption (row_of no_of_bot number bots.old.items) (vec_len bots.old < vec_capacity bots.old) (λ bot. ⊤) }
    ensures { bots.new.items ≡ with_session moment number parts bots.old.items }
{
    match parts {
        BotParts::Session {
            name,
            session,
            dims,
            quarantined,
        } => put_row(
            bots,
            session_row(moment, number, name, session, dims, quarantined),
        ),
        other => drop(other),
    }
}

fn poll(bots: &mut Vec<BotRow>, moment: u64, number: u32, hint: bool, parts: BotParts)
    requires { AreNumbered no_of_bot 1 bots.old.items }
    ensures { bots.new.items ≡ with_changes moment number hint parts bots.old.items }
{
    match parts {
        BotParts::Changes { dims, quarantined } => change_row(
            bots,
            number,
            Poll {
                moment,
                dims,
                quarantined,
                hint,
            },
        ),
        other => drop(other),
    }
}

fn apply_event(
    bots: &mut Vec<BotRow>,
    alloc: Global,
    moment: u64,
    number: u32,
    which: EventKind,
    parts: BotParts,
)
    requires { AreNumbered no_of_bot 1 bots.old.items }
    ensures { bots.new.items ≡ with_message moment number which parts bots.old.items }
{
    match parts {
        BotParts::Message(message) => change_row(
            bots,
            number,
            ApplyEvent {
                moment,
                which,
                message,
                empty: Text::new(alloc),
            },
        ),
        other => drop(other),
    }
}

/// Does to the rows of the bots what an entry does, whose parts move into them. It takes no
/// memory.
pub fn change_bots(
    bots: &mut Vec<BotRow>,
    alloc: Global,
    moment: u64,
    kind: &EntryKind,
    parts: BotParts,
)
    requires numbered { AreNumbered no_of_bot 1 bots.old.items }
    requires room { HasRoomFor bots.old.items (vec_len bots.old) (vec_capacity bots.old) kind.now }
    requires parts { parts ≡ bot_parts kind.now }
    ensures { bots.new.items ≡ bots_after moment kind.now bots.old.items }
{
    match kind {
        EntryKind::Silence { t } => mark_silent_runner(bots, *t),
        EntryKind::Dead { b } => change_row(bots, *b, MarkDead),
        EntryKind::Handshake { b, .. } => begin_session(bots, moment, *b, parts),
        EntryKind::Poll { b, hint, .. } => poll(bots, moment, *b, *hint, parts),
        EntryKind::Claim { b, t, .. } => change_row(bots, *b, AssignTask { moment, task: *t }),
        EntryKind::Contact { b } => change_row(bots, *b, RecordContact { moment }),
        EntryKind::Event { b, e, .. } => apply_event(bots, alloc, moment, *b, *e, parts),
        EntryKind::Update { b, last, .. } => report(bots, moment, *b, last),
        EntryKind::Terminate { b } => change_row(bots, *b, MarkTerminating),
        EntryKind::Slice { .. }
        | EntryKind::Blob { .. }
        | EntryKind::New { .. }
        | EntryKind::Cancel { .. }
        | EntryKind::Kill { .. }
        | EntryKind::Put { .. } => {}
    }
}
