//! The runner of real children, over the system's shell.
//!
//! A [`ShellRunner`] tells what its shell tells, counts its calls that failed, and says why in the log.
//! What it has the system do is the trait [`Shell`], and [`SystemShell`] does it: it has a folder
//! `swarm-bot-ID` in the working directory. In it stand the folders of the
//! named caches, `caches/NAME`, and for each run a folder named by its id, `runs/RUN`, with the work
//! folder, the output of the child, the number of its process group, and its exit code. A child is
//! started in a session of its own, so that a signal reaches all that it starts. Nothing that a task
//! names, be it an input, an output or a cache, leads out of the work folder, and no symbolic link is
//! followed on the way. The work folder and `caches` are held open: where something else stands in the
//! place of one by now, each call fails that would use it. Each call waits for a limited time only: for a
//! process that was ended two seconds, for its group one more, and for each program of the system 300. The
//! files of these folders are those of `run_folders`.
//!
//! A cache has its size as `du -sb` tells it: the lengths of its files, and those of the folders
//! themselves. An input takes the place of a file that a cache has at its path. Where one cache lies in
//! another one, it takes the place of what that one has there.
//!
//! Proved is what a runner makes of its shell: which operation each call has, with all that was handed
//! in, and what each answer of it becomes. Proved are the words by which a child is started, how much of
//! its output is shown, and which exit code a line says. What the system does at an operation is not
//! proved. And some of it can't be had: that a signal is delivered, that a
//! process ends which made a session of its own, and that the test of a path and its opening are one
//! step, so that no process which still runs changes the path between them. The programs that are
//! trusted are `sh`, `env`, `nice`, `setsid`, `timeout`, `du` and `chmod`.
#![tactic(auto)]

mod child_command;
mod child_run;
mod exit_codes;
mod faults;
mod shell;
mod shell_calls;
mod shell_runner;
mod shown_output;
mod signals;
mod system_shell;

pub use shell::Shell;
pub use shell_runner::ShellRunner;
pub use system_shell::SystemShell;
