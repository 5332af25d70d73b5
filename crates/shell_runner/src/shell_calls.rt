//! The calls of a runner for which a shell is asked for more than one operation, or only where it may be.
ghost use Rattle.std.specs.Prelude.{◌≡◌, length};
ghost use Rattle.std.specs.List.{list_all};
ghost use Rattle.runners.specs.declared.call.RunnerCall.TheVariants as call;
ghost use Rattle.shell_runner.specs.Shells.{Carries, ClearsAway};
ghost use Rattle.shell_runner.specs.Children.{has_env_key as spec_has_env_key};

use crate::Shell;
use dimensions::{Seq, Text};
use run_folders::{is_env_key, is_name};
use runners::{CachePath, PreparedCache};
use std::io;
use std::io::ErrorKind;

fn has_env_key(pair: &(Text, Text)) -> bool
    ensures { result ≡ spec_has_env_key pair.now }
{
    is_env_key(pair.0.as_str())
}

fn have_env_keys(env: &[(Text, Text)]) -> bool
    ensures { result ≡ list_all spec_has_env_key env.now }
{
    env.iter().all(|pair| has_env_key(pair))
}

#[tactic(auto, using(crate::proofs::Told::refused, crate::proofs::Told::goes_on))]
pub(crate) fn make_bot_folder<S: Shell>(shell: &mut S, bot: &Text) -> io::Result<()>
    ensures { Carries result (S.state shell.old) (S.state shell.new) (call.Open bot.now) }
{
    shell.end_child()?;
    if !is_name(bot.as_str()) {
        return Err(io::Error::from(ErrorKind::InvalidInput));
    }
    shell.make_folder(bot)
}

#[tactic(auto, using(crate::proofs::Told::refused, crate::proofs::Told::goes_on))]
pub(crate) fn prepare_run<S: Shell>(
    shell: &mut S,
    run: &Text,
    inputs: &[(Text, Seq<u8>)],
    caches: &[PreparedCache],
) -> io::Result<()>
    ensures { Carries result (S.state shell.old) (S.state shell.new) (call.Prepare run.now inputs.now caches.now) }
{
    shell.end_child()?;
    if !is_name(run.as_str()) {
        return Err(io::Error::from(ErrorKind::InvalidInput));
    }
    shell.lay_out(run, inputs, caches)
}

#[tactic(auto, using(crate::proofs::Told::refused))]
pub(crate) fn start_child<S: Shell>(
    shell: &mut S,
    command: &[Text],
    env: &[(Text, Text)],
) -> io::Result<()>
    ensures { Carries result (S.state shell.old) (S.state shell.new) (call.Start command.now env.now) }
{
    if command.is_empty() || !have_env_keys(env) {
        return Err(io::Error::from(ErrorKind::InvalidInput));
    }
    shell.launch(command, env)
}

#[tactic(auto, using(crate::proofs::Told::refused, crate::proofs::Told::clears_on))]
pub(crate) fn clear_run<S: Shell>(shell: &mut S, caches: &[CachePath]) -> io::Result<Seq<u64>>
    ensures { ClearsAway result (length caches.now) (S.state shell.old) (S.state shell.new) (call.Clean caches.now) }
{
    shell.end_child()?;
    shell.clear_away(caches)
}
