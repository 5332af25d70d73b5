//! What bots do: what came of an action, at which moment, and the action that is to follow.
//!
//! A text has one entry a line. Lines that are blank or begin with `#` are left out.
//!
//! | Line | Meaning |
//! |---|---|
//! | `course NAME` | begins a course: the rows of one bot, from its begin on |
//! | `limits tasks N polls N steps N` | its limits; 100, 1000 and 100000 where the line is absent |
//! | `from NAME` | the course begins with the limits and the rows of an earlier one of the file |
//! | `EVENT at MOMENT: ACTION` | a row: what came of the last action, and what the bot is to do next |
//! | `EVENT at MOMENT: not expected` | the event can't come here; the bot stays as it is |
//! | `aside EVENT at MOMENT: ACTION` | a row of another bot, which comes here by the rows above and ends here |
//! | `play N times EVENT then EVENT at MOMENT` | both events come so many times in turn; their actions are not compared |
//!
//! Events are `begin`, `handshake ok`, `poll sleep N`, `poll claim`, `poll terminate`,
//! `claim run execution N io N grace N tolerance N`, `claim skip`, `send ok`, `send ok must stop`,
//! `refused N`, `lost`, `slept`, `prepared`, `started`, `output N`, `quiet`, `ended N`, `signalled`,
//! `uploaded`, `cleaned` and `runner failed`.
//!
//! Actions are `handshake FIRST-SESSION`, `poll`, `claim FIRST-SESSION-CLAIM`, `prepare`, `start`,
//! `look ROOM`, `sleep N`, `signal term`, `signal kill`, `send SIZE from START`,
//! `last send SIZE from START, exit code N, N ms, dropped N`, then `, hard timeout` or `, io timeout`
//! where it is set, `upload`, `clean up` and `stop WHY after N`, where WHY is `terminated`, `tasks`,
//! `polls`, `steps` or `refused`, and N counts the runs that were cleaned up.

mod course;
mod event_text;
mod playing;
mod reading;

use crate::bots::playing::play;
use crate::bots::reading::read_courses;
use crate::fault::tell_fault;
use std::io;

/// Plays the courses of a text to bots, prints how many rows it has, tells of each that differs, and
/// answers whether none does.
pub(crate) fn check_bots<R: Print + Eprint + AllocGlobal>(
    rt: &R,
    file: &str,
    text: &str,
) -> io::Result<bool> {
    let alloc = rt.alloc();
    let courses = match read_courses(alloc, text) {
        Ok(courses) => courses,
        Err(fault) => return tell_fault(rt, file, &fault),
    };
    let mut do_agree = true;
    let mut rows = 0usize;
    for course in courses.iter() {
        match play(alloc, course) {
            Ok(count) => rows = rows.saturating_add(count),
            Err(fault) => do_agree = tell_fault(rt, file, &fault)?,
        }
    }
    let count = courses.len();
    println!(rt; "{file}: {count} courses, {rows} rows")?;
    Ok(do_agree)
}
