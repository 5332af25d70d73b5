ghost use Rattle.std.specs.Prelude.{⊤};

use crate::batches::check_batches;
use crate::bots::check_bots;
use crate::worlds::check_worlds;
use std::io;
use test_programs::TextTest;

/// What the rows of a text are about.
#[derive(Clone, Copy)]
pub(crate) enum TextRows {
    Batches,
    Bots,
    Worlds,
}

impl TextTest for TextRows {
    ghost ready = { ⊤ };

    fn ending(&self) -> &str {
        match self {
            TextRows::Batches | TextRows::Bots => ".rows",
            TextRows::Worlds => ".worlds",
        }
    }

    fn check_text<R: Print + Eprint + AllocGlobal>(
        &self,
        rt: &R,
        file: &str,
        text: &str,
    ) -> io::Result<bool> {
        match self {
            TextRows::Batches => check_batches(rt, file, text),
            TextRows::Bots => check_bots(rt, file, text),
            TextRows::Worlds => check_worlds(rt, file, text),
        }
    }
}
