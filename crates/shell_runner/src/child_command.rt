ghost use Rattle.std.specs.Prelude.{◌≡◌, IfOk, string_bytes};
ghost use Rattle.shell_runner.specs.Children.{env_word as spec_env_word, StartsChild};

use dimensions::Text;
use std::alloc::{AllocError, Global};
use std::process::Command;

/// Runs a command with its environment, in the work folder, as the first of a process group. It writes
/// its number, the output of the command, and its exit code, each into a file beside the work folder, in
/// which it stays itself, whatever becomes of the work folder.
///
/// Behind the command it stays until its input ends, which the runner holds open, or it is killed. So
/// the number of the group stays its own.
///
/// What the environment says holds for the command alone. It is `env` that sets it and starts the
/// command, since some variables are a shell's own: to set one of these to what it can't be ends a shell.
/// To `env` a program with a `=` in its name would be a variable, so `nice` starts such a one, at the
/// niceness that it has. What the shell itself has to remember it forgets before, so that the command
/// doesn't see it.
const SCRIPT: &str = "echo $$ >pid; trap : TERM; \
     (cd work || exit; swarm_past=; \
     for swarm_word in \"$@\"; do shift; \
     if [ \"$swarm_word\" != -- ] || [ \"$swarm_past\" ]; then set -- \"$@\" \"$swarm_word\"; \
     else swarm_past=1; case $1 in *=*) set -- \"$@\" \"$(command -v nice)\" -n 0;; esac; fi; done; \
     unset swarm_word swarm_past; exec env -- \"$@\") \
     >output 2>&1 </dev/null; \
     echo $? >status || exit 1; trap \"\" TERM; read -r end";

/// A variable of the environment, as a word.
fn env_word(alloc: Global, pair: &(Text, Text)) -> Result<String, AllocError>
    ensures { IfOk result (λ word. string_bytes word ≡ spec_env_word pair.now) }
{
    format!(in alloc; "{}={}", pair.0.as_str(), pair.1.as_str())
}

/// The command that starts a child in the folder of its run: the script, and behind it the environment
/// and the command of the child.
pub(crate) fn child_command(
    alloc: Global,
    folder: &str,
    command: &[Text],
    env: &[(Text, Text)],
) -> Result<Command, AllocError>
    ensures { IfOk result (StartsChild SCRIPT.now folder.now env.now command.now) }
{
    let mut shell = Command::new(alloc, "setsid")?;
    shell.arg("sh")?;
    shell.arg("-c")?;
    shell.arg(SCRIPT)?;
    shell.arg("sh")?;
    for pair in env {
        let word = env_word(alloc, pair)?;
        shell.arg(word.as_str())?;
    }
    shell.arg("--")?;
    for word in command {
        shell.arg(word.as_str())?;
    }
    shell.current_dir(folder)?;
    Ok(shell)
}
