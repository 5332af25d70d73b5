//! The programs of the system that a runner uses. Each is given 300 seconds, so no call waits forever.
ghost use Rattle.std.specs.Prelude.{IfOk, map};
ghost use Rattle.run_folders.specs.Tools.{IsTool};

use std::alloc::{AllocError, Global};
use std::io;
use std::io::ErrorKind;
use std::process::{Command, Output, Processes, Stdio};

/// Sends a signal to a process group.
const SIGNAL: &str = "kill -s \"$1\" -- \"-$2\"";

/// Waits for a second at most until no process of a group is left.
const AWAIT: &str = "for turn in 1 2 3 4 5 6 7 8 9 10; do \
     kill -s 0 -- \"-$1\" || exit 0; sleep 0.1; done";

/// The command that runs a program with its arguments for 300 seconds at most.
fn tool_command(alloc: Global, words: &[&str]) -> Result<Command, AllocError>
    ensures { IfOk result (IsTool (map (λ word. word.now) words.now)) }
{
    let mut tool = Command::new(alloc, "timeout")?;
    tool.arg("-s")?;
    tool.arg("KILL")?;
    tool.arg("300")?;
    for word in words {
        tool.arg(*word)?;
    }
    Ok(tool)
}

/// Runs a program with its arguments to its end.
fn run_tool<R: Processes + AllocGlobal>(rt: &R, words: &[&str]) -> io::Result<Output> {
    let mut tool = tool_command(rt.alloc(), words)?;
    tool.stdin(Stdio::null()).stderr(Stdio::null()).output(rt)
}

/// Sends a signal, by its name without `SIG`, to a process group. Whether there is such a group.
pub fn signal_group<R: Processes + AllocGlobal>(
    rt: &R,
    signal: &str,
    group: u32,
) -> io::Result<bool> {
    let group = format!(in rt.alloc(); "{group}")?;
    let output = run_tool(rt, &["sh", "-c", SIGNAL, "sh", signal, group.as_str()])?;
    Ok(output.status.success())
}

/// Waits for a second at most until no process of a group is left. Ended ones for which nobody has
/// waited count as left.
pub fn await_group<R: Processes + AllocGlobal>(rt: &R, group: u32) -> io::Result<()> {
    let group = format!(in rt.alloc(); "{group}")?;
    run_tool(rt, &["sh", "-c", AWAIT, "sh", group.as_str()])?;
    Ok(())
}

/// Gives this user all rights on a folder and all that is in it, where that can be done.
pub(crate) fn unlock_folder<R: Processes + AllocGlobal>(rt: &R, folder: &str) -> io::Result<()> {
    run_tool(rt, &["chmod", "-R", "u+rwX", "--", folder])?;
    Ok(())
}

/// The size of a folder in bytes, as `du` counts them: the lengths of the files, and those of the
/// folders themselves.
pub(crate) fn folder_size<R: Processes + AllocGlobal>(rt: &R, folder: &str) -> io::Result<u64> {
    let output = run_tool(rt, &["du", "-sb", "--", folder])?;
    let text = str::from_utf8(&output.stdout).unwrap_or("");
    let (size, _) = text.split_once('\t').unwrap_or(("", ""));
    size.parse()
        .map_err(|_| io::Error::from(ErrorKind::InvalidData))
}
