//! Runs of the whole program by transcripts: [`check`] runs it over the connections of one transcript and
//! holds what it answered against it, and [`ProgramRuns`] does so for every transcript of a folder.
//!
//! A run is `run` of `swarm_cli`, over a console, files, a store, a listener, a dialer and a runner in
//! memory and a clock that answers the transcript's moments. The store is that of the transcript: a run
//! behind `again` finds what the run before it left there, or what the transcript puts in its place, and what
//! it leaves is compared where the transcript says so. [`ProgramRuns`] also runs each transcript by
//! [`check_sessions`](test_session_runs::check_sessions) over the machine that scans lists, so that the same
//! rows hold of another machine.
//!
//! A run that says `each` is repeated with each of its calls failing: `cases.rt` has the loop, and the files
//! that end in `_cases` say what has to come of a run in which one failed.
#![tactic(auto)]

mod cases;
mod checking;
mod dial_cases;
mod failing_call;
mod link_cases;
mod links;
mod program_runs;
mod record_cases;
mod records;
mod running;

pub use checking::check;
pub use program_runs::ProgramRuns;
