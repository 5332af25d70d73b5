//! The lines of a base: the rows of a pool as lines of JSON, and back.
//!
//! A base is what a pool's log begins from. Its lines are compact JSON (RFC 8259), the keys of each in
//! order of bytes, in this order:
//!
//! | `k` | Keys besides |
//! |---|---|
//! | `pool`, one line, the first | `last`, `placed` |
//! | `task`, by their numbers from 1 | `t`, `who`, `uuid`, `request`, `created`, `state`, `slice`, `since`, `attempt`, `retried`, `source`, `ended` |
//! | `bot`, by their numbers from 1 | `b`, `id`, `session`, `dims`, `contact`, `streak`, `q`, `dead`, `terminating` |
//! | `blob`, by rising numbers | `n`, `digest`, `size`, `at`, `deadline` |
//!
//! `last` is the moment of the last entry, `placed` how many blobs were ever placed. What is missing is
//! null. An attempt is an object of `b`, `begun`, `chunks`, `claim`, `kill`, `last`, `tail` (its last
//! chunk) and `try`; a retried run is one of `attempt`, `over` and `slice`. Requests, dimensions, chunks
//! and reports are as in the lines of a log (`entry_lines`).
//!
//! Lines leave out what is computed: the length of a run is that of its chunks together, the task of a
//! bot the one that runs on it, and a blob has the units that its size takes. A line whose chunks have
//! 2^32 bytes or more is that of no row.
//!
//! [`write_base`] writes all lines of a machine's rows, and [`line_of`] the line of one row. [`BaseRows`]
//! reads them, line by line: [`BaseRows::add_line`] takes the line of the row that comes next, and
//! refuses any other text. So the first line that is none of its place is the first that is refused, and
//! of lines that were written the rows are read. Whether a pool may have such rows is not asked.
//!
//! `specs/Rows.antt` and `specs/Attempts.antt` have the value of each row, `specs/Lines.antt` its line,
//! and `specs/Reading.antt` the order of the lines. The crate stands on `line_parts`, `row_changes`,
//! `pool_laws`, `swarm_model` and `blob_rows`.
#![tactic(auto)]

mod attempts;
mod base;
mod base_line;
mod base_row;
mod base_rows;
mod line;
mod machine_row;
mod rows;
mod runs;

pub use base::write_base;
pub use base_line::BaseLine;
pub use base_row::{BaseRow, PoolLine};
pub use base_rows::BaseRows;
pub use line::{a_line_is_of_one_row, line_of, read_line};
