ghost use Rattle.std.specs.Prelude.{length};
ghost use Rattle.runners.specs.declared.call.RunnerCall.TheVariants as call;
ghost use Rattle.runners.specs.Calls.{RunnerState, Performs, Signals, Looks, CollectsFile, Cleans};

use crate::{CachePath, CollectFault, Look, PreparedCache};
use bot_core::Signal;
use dimensions::{Seq, Text};
use sw_base::{Failed, StartFault};

/// Runs the children of a bot, one at a time, each in a work folder of its own.
///
/// Paths are those of checked tasks: relative, with no part that is empty, `.` or `..`.
///
/// An error `Memory` leaves what a runner tells and its count of faults as they were, though a real one
/// may have done a part of the call. `Failed` comes only where that count rose.
pub trait Runner {
    ghost state: { Self → RunnerState };

    /// Makes the folder of the bot of this name anew, without a run and without a cache. It is the first
    /// call.
    fn open(&mut self, bot: &Text) -> Result<(), StartFault>
        ensures { Performs result (state self.old) (state self.new) (call.Open bot.now) };

    /// Makes a new work folder for the run of this id, with its caches and then its inputs, each a path
    /// with its bytes. A cache that the bot keeps is moved to its path, another one begins as an empty
    /// folder there.
    ///
    /// # Errors
    ///
    /// Part of it may be laid out then. `clean` clears that away too.
    fn prepare(
        &mut self,
        run: &Text,
        inputs: &[(Text, Seq<u8>)],
        caches: &[PreparedCache],
    ) -> Result<(), StartFault>
        ensures { Performs result (state self.old) (state self.new) (call.Prepare run.now inputs.now caches.now) };

    /// Starts the child in the work folder: a program with its arguments, and its environment, each a
    /// name with its value, beside that of the runner itself.
    fn start(&mut self, command: &[Text], env: &[(Text, Text)]) -> Result<(), StartFault>
        ensures { Performs result (state self.old) (state self.new) (call.Start command.now env.now) };

    /// Shows what comes next of the child's output, or that it has ended. Where `into` has no room it
    /// takes nothing of an output and is `Quiet`. It doesn't wait for output.
    fn look(&mut self, into: &mut [u8]) -> Result<Look, Failed>
        ensures { Looks result into.new (state self.old) (state self.new) };

    /// Sends a signal to the child and to all that it has started. Whether it comes there isn't told.
    fn signal(&mut self, signal: Signal) -> Result<(), Failed>
        ensures { Signals result (state self.old) (state self.new) (call.Signal signal) };

    /// The file at a path of the work folder, where one is there.
    ///
    /// # Errors
    ///
    /// The file has more than `most` bytes, the call failed, or there is no memory.
    fn collect(&mut self, path: &Text, most: u64) -> Result<Option<Seq<u8>>, CollectFault>
        ensures { CollectsFile result most (state self.old) (state self.new) (call.Collect path.now most) };

    /// Ends what still runs of the child, moves the caches back, and removes the work folder. It
    /// answers the size of each cache in bytes, in the order of `caches`.
    fn clean(&mut self, caches: &[CachePath]) -> Result<Seq<u64>, StartFault>
        ensures { Cleans result (length caches.now) (state self.old) (state self.new) (call.Clean caches.now) };

    /// Removes each kept cache whose name isn't one of these.
    fn keep(&mut self, names: &[Text]) -> Result<(), StartFault>
        ensures { Performs result (state self.old) (state self.new) (call.Keep names.now) };
}
