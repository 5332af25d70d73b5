//! Runs the transcripts of all files of the folder that it is started in, or of the one that its
//! word names: through the program, and those that need no more than `session` over the machine that
//! scans lists too. It prints how many each file has of both, and where a run differs from its
//! transcript, and ends with status 1 if one does, or if a file of the folder holds no transcripts.
#![tactic(auto)]

use std::process::ExitCode;
use std::{env, io};
use test_program_runs::ProgramRuns;
use test_programs::run_folder;

fn main(rt: HostRuntime) -> io::Result<ExitCode> {
    let word = env::args(&rt)?.nth(1);
    let folder = word.as_ref().map_or(".", |it| it.as_str());
    let programs = ProgramRuns { rt: &rt };
    Ok(if run_folder(&rt, folder, &programs)? {
        ExitCode::SUCCESS
    } else {
        ExitCode::FAILURE
    })
}
