//! Batches: what is read of a file of tasks and of its progress, what is sent and marked of each line,
//! and what turns make of a batch and a pool.
//!
//! A text has one entry a line. Lines that are blank or begin with `#` are left out. In a TEXT `${NAME}`
//! stands for what the name was given, `${NAME*9}` for nine of it, and `${0x0a}` for a byte.
//!
//! | Line | Meaning |
//! |---|---|
//! | `let NAME TEXT` | from here on the name stands for the text |
//! | `case` | begins a case, with a new pool, the caller `ana`, the batch name `n1` and no file |
//! | `settings TEXT` | the pool of the case is that of these settings (TOML), which have one; else that of the open settings |
//! | `name NAME` | from here on the batch is read under this name |
//! | `file TEXT` | from here on this is the file of tasks |
//! | `read` | the file is read, with no progress |
//! | `read TEXT` | it is read with this progress |
//! | `broken LINE RULE` | the file is refused with no progress, at this line and rule |
//! | `broken LINE RULE TEXT` | with this progress the file or the progress is refused |
//! | `again TEXT` | the batch takes what this progress tells |
//! | `next N` | the line that is sent next; `next none` where every line is done |
//! | `body TEXT` | the body that is sent for that line |
//! | `told PLACE TASK: done` | the line is told its task, by place and number, and is done |
//! | `refused CODE: done` | it is refused, and is done; `again` where it is to be sent again |
//! | `progress TEXT` | what is saved of the batch |
//! | `printed TEXT` | what is printed of it |
//! | `turns TURN; TURN` | these turns are played over the pool: `send MOMENT`, `lost MOMENT`, `stop saved`, `stop unsaved`, `other WHO MOMENT TEXT`, where TEXT is the body of a new task |
//! | `log N` | the log of the pool has so many entries |
//! | `is name TEXT` | a batch may have this name; `no name TEXT` where it may not |
//! | `names NAME TEXT` | the name in the first line of this progress; `none` where there is none |

mod case;
mod checking;
mod playing;
mod reading;
mod texts;

use crate::batches::playing::play;
use crate::batches::reading::read_cases;
use crate::fault::tell_fault;
use std::io;

/// Plays the cases of a text, prints how many rows it has, tells of each that differs, and answers
/// whether none does.
pub(crate) fn check_batches<R: Print + Eprint + AllocGlobal>(
    rt: &R,
    file: &str,
    text: &str,
) -> io::Result<bool> {
    let alloc = rt.alloc();
    let cases = match read_cases(alloc, text) {
        Ok(cases) => cases,
        Err(fault) => return tell_fault(rt, file, &fault),
    };
    let mut do_agree = true;
    let mut rows = 0usize;
    for case in cases.iter() {
        match play(alloc, case) {
            Ok(count) => rows = rows.saturating_add(count),
            Err(fault) => do_agree = tell_fault(rt, file, &fault)?,
        }
    }
    let count = cases.len();
    println!(rt; "{file}: {count} cases, {rows} rows")?;
    Ok(do_agree)
}
