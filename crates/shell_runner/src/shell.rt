ghost use Rattle.std.specs.Prelude.{◌≡◌, ◌<◌, IsTrue, length};
ghost use Rattle.std.specs.List.{list_all};
ghost use Rattle.run_folders.specs.Names.{is_name};
ghost use Rattle.runners.specs.declared.call.RunnerCall.TheVariants as call;
ghost use Rattle.shell_runner.specs.Shells.{ShellState, Carries, Shows, Sends, ReadsFile, ClearsAway};
ghost use Rattle.shell_runner.specs.Children.{has_env_key};

use bot_core::Signal;
use dimensions::{Seq, Text};
use runners::{CachePath, Look, PreparedCache};
use std::io;

/// What a [`ShellRunner`](crate::ShellRunner) has the system do: an operation for each call on a runner,
/// and one that ends what still runs.
///
/// An error that is want of memory leaves what a shell tells as it was, though a real one may have done a
/// part of the operation. Every other error is told as a failure, or not told.
pub trait Shell {
    ghost state: { Self → ShellState };

    /// Makes the folder `swarm-bot-ID` anew, for the bot of this id, without a run and without a cache.
    /// What was in it is removed. Where this failed, all that needs the folder fails.
    fn make_folder(&mut self, bot: &Text) -> io::Result<()>
        requires { IsTrue (is_name bot.now) }
        ensures { Carries result (state self.old) (state self.new) (call.Open bot.now) };

    /// Makes a new work folder for the run of this id, with its caches and then its inputs, as
    /// `Runner::prepare` does. What it failed to make is there all the same for `clear_away`.
    fn lay_out(
        &mut self,
        run: &Text,
        inputs: &[(Text, Seq<u8>)],
        caches: &[PreparedCache],
    ) -> io::Result<()>
        requires { IsTrue (is_name run.now) }
        ensures { Carries result (state self.old) (state self.new) (call.Prepare run.now inputs.now caches.now) };

    /// Starts the child of the run that is laid out, which was not started yet.
    fn launch(&mut self, command: &[Text], env: &[(Text, Text)]) -> io::Result<()>
        requires words { 0 < length command.now }
        requires keys { IsTrue (list_all has_env_key env.now) }
        ensures { Carries result (state self.old) (state self.new) (call.Start command.now env.now) };

    /// Shows what comes next of the child's output, or that it has ended.
    fn show(&mut self, into: &mut [u8]) -> io::Result<Look>
        ensures { Shows result into.new (state self.old) (state self.new) };

    /// Sends a signal to the child and to all that it has started. Whether there was one to send it to.
    fn send(&mut self, signal: Signal) -> io::Result<bool>
        ensures { Sends result (state self.old) (state self.new) (call.Signal signal) };

    /// The bytes of the file at a path of the work folder, where one is there: of a longer one, `most`
    /// bytes and at least one more.
    fn read(&mut self, path: &Text, most: u64) -> io::Result<Option<Seq<u8>>>
        ensures { ReadsFile result most (state self.old) (state self.new) (call.Collect path.now most) };

    /// Ends the child of the run, where one was started, and all that it started and that is still of its
    /// group. This is no call on a runner, and isn't told.
    fn end_child(&mut self) -> io::Result<()>
        ensures { state self.new ≡ state self.old };

    /// Moves the caches of the run back, and removes its folder. It answers the size of each cache, as
    /// `du -sb` tells it.
    fn clear_away(&mut self, caches: &[CachePath]) -> io::Result<Seq<u64>>
        ensures { ClearsAway result (length caches.now) (state self.old) (state self.new) (call.Clean caches.now) };

    /// Removes each kept cache whose name isn't one of these.
    fn keep_named(&mut self, names: &[Text]) -> io::Result<()>
        ensures { Carries result (state self.old) (state self.new) (call.Keep names.now) };
}
