ghost use Rattle.std.specs.Prelude.{◌≡◌};
ghost use Rattle.shell_runner.specs.Shells.{told_by};

use crate::Shell;
use crate::faults::Faults;
use crate::shell_calls::{clear_run, make_bot_folder, prepare_run, start_child};
use bot_core::Signal;
use dimensions::{Seq, Text};
use log::Log;
use runners::{CachePath, CollectFault, Look, PreparedCache, Runner};
use std::io;
use std::io::ErrorKind;
use sw_base::{Failed, StartFault};

/// Runs children by a shell. It tells what its shell tells, and counts its own calls that failed.
///
/// A call whose words no shell may be asked for fails before its shell is asked. What still runs of a
/// child is ended before its folder is removed.
///
/// Where a runner is dropped, no child is ended and no folder is removed.
///
/// It logs why a call failed.
#[derive(Drop)]
pub struct ShellRunner<'a, S: Shell + Drop, G: Log> {
    shell: S,
    faults: Faults<'a, G>,
}

impl<'a, S: Shell + Drop, G: Log> ShellRunner<'a, S, G> {
    /// A runner over a shell, of which no call has failed.
    pub fn new(shell: S, log: &'a G) -> Self
        ensures { ⟦<ShellRunner<'a, S, G> as Runner>⟧.state result ≡ told_by (S.state shell) 0 }
    {
        ShellRunner {
            shell,
            faults: Faults::new(log),
        }
    }
}

impl<'a, S: Shell + Drop, G: Log> Runner for ShellRunner<'a, S, G> {
    ghost state = { λ r. told_by (S.state r.shell) r.faults.count };

    #[tactic(auto, using(crate::proofs::Told::succeeds, crate::proofs::Told::fails))]
    fn open(&mut self, bot: &Text) -> Result<(), StartFault> {
        match make_bot_folder(&mut self.shell, bot) {
            Ok(()) => Ok(()),
            Err(error) => Err(
                self.faults
                    .fault("make the folder of bot", bot.as_str(), &error),
            ),
        }
    }

    #[tactic(auto, using(crate::proofs::Told::succeeds, crate::proofs::Told::fails))]
    fn prepare(
        &mut self,
        run: &Text,
        inputs: &[(Text, Seq<u8>)],
        caches: &[PreparedCache],
    ) -> Result<(), StartFault> {
        match prepare_run(&mut self.shell, run, inputs, caches) {
            Ok(()) => Ok(()),
            Err(error) => Err(self.faults.fault("lay out run", run.as_str(), &error)),
        }
    }

    #[tactic(auto, using(crate::proofs::Told::succeeds, crate::proofs::Told::fails))]
    fn start(&mut self, command: &[Text], env: &[(Text, Text)]) -> Result<(), StartFault> {
        match start_child(&mut self.shell, command, env) {
            Ok(()) => Ok(()),
            Err(error) => Err(self.faults.fault("start", "the run", &error)),
        }
    }

    #[tactic(auto, using(crate::proofs::Told::succeeds, crate::proofs::Told::misses))]
    fn look(&mut self, into: &mut [u8]) -> Result<Look, Failed> {
        match self.shell.show(into) {
            Ok(look) => Ok(look),
            Err(error) => {
                self.faults.add("show the output of", "the run", &error);
                Err(Failed)
            }
        }
    }

    #[tactic(auto, using(crate::proofs::Told::succeeds, crate::proofs::Told::misses))]
    fn signal(&mut self, signal: Signal) -> Result<(), Failed> {
        let error = match self.shell.send(signal) {
            Ok(true) => return Ok(()),
            Ok(false) => io::Error::from(ErrorKind::NotFound),
            Err(error) => error,
        };
        self.faults.add("send a signal to", "the run", &error);
        Err(Failed)
    }

    #[tactic(auto, using(crate::proofs::Told::succeeds, crate::proofs::Told::fails))]
    fn collect(&mut self, path: &Text, most: u64) -> Result<Option<Seq<u8>>, CollectFault> {
        match self.shell.read(path, most) {
            Ok(Some(bytes)) if bytes.as_slice().len() as u64 > most => Err(CollectFault::TooLong),
            Ok(found) => Ok(found),
            Err(error) => match self.faults.fault("read the output", path.as_str(), &error) {
                StartFault::Memory => Err(CollectFault::Memory),
                StartFault::Failed => Err(CollectFault::Failed),
            },
        }
    }

    #[tactic(auto, using(crate::proofs::Told::succeeds, crate::proofs::Told::fails))]
    fn clean(&mut self, caches: &[CachePath]) -> Result<Seq<u64>, StartFault> {
        match clear_run(&mut self.shell, caches) {
            Ok(sizes) => Ok(sizes),
            Err(error) => Err(self.faults.fault("clear away", "the run", &error)),
        }
    }

    #[tactic(auto, using(crate::proofs::Told::succeeds, crate::proofs::Told::fails))]
    fn keep(&mut self, names: &[Text]) -> Result<(), StartFault> {
        match self.shell.keep_named(names) {
            Ok(()) => Ok(()),
            Err(error) => Err(self.faults.fault("remove", "caches", &error)),
        }
    }
}
