//! Plays rows of text files. For each file it prints how many rows agree, or where one does not and what
//! came instead, and it ends with status 1 if one does not, or if a folder holds what is no file of rows.
//!
//! The files lie in folders, one for each subject, of the folder that it is started in or of the one that
//! its word names. The first lines of a subject's module say how its rows are written.
//!
//! | Folder | Module | What its rows say |
//! |---|---|---|
//! | `batches` | `batches` | what is read of a file of tasks, what is sent for its lines, and what comes of a batch where replies or saves are lost |
//! | `boards` | `boards` | what a board shows of a pool before and after posts |
//! | `bots` | `bots` | what a bot does next |
//! | `worlds` | `worlds` | what comes of a bot and its pool where requests and replies are lost, repeated or late |
#![tactic(auto)]

mod action_text;
mod batches;
mod boards;
mod bots;
mod fault;
mod limits;
mod text_rows;
mod worlds;

use crate::boards::BoardRows;
use crate::text_rows::TextRows;
use std::process::ExitCode;
use std::rt::Files;
use std::sync::Wait;
use std::{env, io};
use test_programs::{check_folder, names_of, run_folder, tell};

/// Plays the rows of a subject, and answers whether all of them agree. A name of no subject does not
/// pass.
fn check_subject<R: Files + Print + Eprint + Wait + AllocGlobal + Clone + Drop>(
    rt: &R,
    folder: &str,
    subject: &str,
) -> io::Result<bool> {
    let alloc = rt.alloc();
    let path = format!(in alloc; "{folder}/{subject}")?;
    match subject {
        "batches" => check_folder(rt, path.as_str(), &TextRows::Batches),
        "boards" => run_folder(rt, path.as_str(), &BoardRows { rt }),
        "bots" => check_folder(rt, path.as_str(), &TextRows::Bots),
        "worlds" => check_folder(rt, path.as_str(), &TextRows::Worlds),
        _ => tell(
            rt,
            format!(in alloc; "{subject}: it is no folder of a subject")?.as_str(),
        ),
    }
}

fn main(rt: HostRuntime) -> io::Result<ExitCode> {
    let word = env::args(&rt)?.nth(1);
    let folder = word.as_ref().map_or(".", |it| it.as_str());
    let mut have_passed = true;
    for subject in names_of(&rt, folder)?.iter() {
        have_passed = check_subject(&rt, folder, subject.as_str())? && have_passed;
    }
    Ok(if have_passed {
        ExitCode::SUCCESS
    } else {
        ExitCode::FAILURE
    })
}
