use crate::action_text::action_text;
use crate::bots::course::{Course, Row, Wanted};
use crate::fault::{Fault, fault_at};
use bot_core::{Action, Bot, BotEvent};
use std::alloc::Global;

/// The action that follows the event, if it can come.
fn step(bot: &mut Bot, event: BotEvent, moment: u64) -> Option<Action> {
    if bot.expects(&event) {
        Some(bot.step(event, moment))
    } else {
        None
    }
}

fn check_action(
    alloc: Global,
    name: &str,
    row: &Row,
    wanted: &str,
    action: Option<Action>,
) -> Result<(), Fault> {
    let came = match &action {
        Some(action) => action_text(alloc, action)?,
        None => String::from_str(alloc, "not expected")?,
    };
    let came = came.as_str();
    if came == wanted {
        return Ok(());
    }
    Err(fault_at(
        row.line,
        format!(in alloc; "{name}: `{wanted}` is wanted, and not `{came}`"),
    ))
}

/// Plays two events in turn, so often as the row says.
fn play_repeated(
    alloc: Global,
    bot: &mut Bot,
    name: &str,
    row: &Row,
    then: BotEvent,
    times: u32,
) -> Result<(), Fault> {
    for at in 0..times {
        if step(bot, row.event, row.moment).is_none() || step(bot, then, row.moment).is_none() {
            return Err(fault_at(
                row.line,
                format!(in alloc; "{name}: after {at} times an event is not expected"),
            ));
        }
    }
    Ok(())
}

fn play_row(alloc: Global, bot: &mut Bot, name: &str, row: &Row) -> Result<(), Fault> {
    match &row.wanted {
        Wanted::Action(wanted) => {
            let action = step(bot, row.event, row.moment);
            check_action(alloc, name, row, wanted.as_str(), action)
        }
        Wanted::NotExpected => {
            let action = step(bot, row.event, row.moment);
            check_action(alloc, name, row, "not expected", action)
        }
        Wanted::Repeated { then, times } => { play_repeated(alloc, bot, name, row, *then, *times) }
    }
}

/// A bot that has come to a row, by the rows above it.
fn bot_at(alloc: Global, course: &Course, place: usize) -> Result<Bot, Fault> {
    let mut bot = Bot::new(course.limits);
    for row in course.rows.iter().take(place) {
        if !row.aside {
            play_row(alloc, &mut bot, course.name.as_str(), row)?;
        }
    }
    Ok(bot)
}

/// Plays a course, and answers how many rows of its own it has.
pub(crate) fn play(alloc: Global, course: &Course) -> Result<usize, Fault> {
    let name = course.name.as_str();
    let mut bot = Bot::new(course.limits);
    for (place, row) in course.rows.iter().enumerate() {
        if row.aside {
            let mut other = bot_at(alloc, course, place)?;
            play_row(alloc, &mut other, name, row)?;
        } else {
            play_row(alloc, &mut bot, name, row)?;
        }
    }
    Ok(course.rows.len().saturating_sub(course.taken))
}
