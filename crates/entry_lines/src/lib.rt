//! The lines of a log: each entry as one line of JSON, and back.
//!
//! A line is compact JSON (RFC 8259), its keys in order of bytes. It has the keys `m`, the moment
//! of the entry in whole seconds, `p`, the number of the pass that added it, `k`, the name of its
//! kind, and those of its kind:
//!
//! | `k` | Keys besides |
//! |---|---|
//! | `slice` | `t`; `to`: the place of a slice, or the name of a state |
//! | `silence`, `cancel`, `kill` | `t` |
//! | `dead`, `contact`, `terminate` | `b` |
//! | `blob` | `n`, `kept` |
//! | `new` | `t`, `who`, `uuid`, `request`, `state`, `slice`, `from`; `uuid` and `from` may be null |
//! | `handshake` | `b`, `id`, `session`, `dims`, `q` |
//! | `poll` | `b`, `dims`, `q`, `hint`; `dims` and `q` may be null |
//! | `claim` | `b`, `t`, `claim` |
//! | `event` | `b`, `e`: `ping`, `quarantine` or `unquarantine`; `text` |
//! | `update` | `b`, `t`, `try`, `chunk`, `last`; `chunk`: `[START, SIZE, DIGEST]` or null; `last`: an object or null |
//! | `put` | `digest`, `size` |
//!
//! `t`, `b` and `n` are the numbers of a task, a bot and a blob in their pool. A digest is 64
//! hexadecimal digits in lower case. The dimensions of a bot are a list of `[KEY, [VALUE, ..]]`.
//! `request` has the fields of a request for a task, but for its uuid, which is `uuid`: null stands
//! for none.
//!
//! [`read_line`] reads more spellings than one, writes the entry that it read again, and compares:
//! so a text is a line exactly where it is the very line of an entry, as
//! [`a_line_is_of_one_entry`] and [`an_entry_is_read_of_its_line`] say. Whether the entry is legal
//! anywhere, or keeps the rules on a request, is not asked.
//!
//! `specs/Kinds.antt` has the value of each entry, and `specs/Lines.antt` the line and the laws.
//! The crate stands on `line_parts`, `swarm_model`, `task_props`, `dimensions` and `serde_json`.
#![tactic(auto)]

mod kinds;
mod line;
mod read_kinds;

pub use line::{
    a_line_is_of_one_entry, an_entry_is_read_of_its_line, is_line_of, line_of, read_line,
};
pub use line_parts::LineFault;
