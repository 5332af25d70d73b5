//! Tests that no transcript can be and no contract says.
//!
//! Most connections stand as transcripts in the data files of `test_transcripts`. A transcript is
//! one input, which is there from the beginning on, so these can't be one:
//!
//! - a client that sends a request only once it has the reply to the one before, which takes a link
//!   of its own;
//! - an input that is cut behind each of its bytes, which would take 252 transcripts;
//! - kept records that were changed between two runs.
//!
//! Each makes its door itself by `test_sessions`, over the machine of the program, and is served by
//! `session`, so that the tests have none of the words, the client and the bot. Beside them stand a few of
//! `sw_base`: that a flush of the console reaches its writer, that the system's clock has its seconds and
//! waits, and what a link in memory has flushed.
//!
//! The crate has no code that runs. A crate that has a test is proved a second time with it, so what
//! else is to be tested of a public function stands here as well, where neither an example of its
//! definition nor a row says it.
#![tactic(auto)]

#[cfg(test)]
mod tests;
