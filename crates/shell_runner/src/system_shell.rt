ghost use Rattle.std.specs.Prelude.{◌≡◌};
ghost use Rattle.shell_runner.specs.Shells.{untold};

use crate::Shell;
use crate::child_run::ChildRun;
use bot_core::Signal;
use dimensions::{Seq, Text};
use log::{Log, info};
use run_folders::{HeldFolder, KeptCaches, path_below, remove_folder};
use runners::{CachePath, Look, PreparedCache};
use std::io::ErrorKind;
use std::process::Processes;
use std::rt::{Clock, Files};
use std::{fs, io};

/// The `sh` of the system, with the folder of the bot in the working directory. It tells nothing, and
/// logs how each run begins and ends.
///
/// No process of a bot that had the folder before is ended: its number may be another's by now.
#[derive(Drop)]
pub struct SystemShell<'a, R: Files + Processes, G: Log> {
    rt: &'a R,
    log: &'a G,
    // The folder of the bot's runs, and that of its caches, once they were made.
    made: Option<(String, KeptCaches<'a, R>)>,
    // From `lay_out` to `clear_away`.
    run: Option<ChildRun<'a, R>>,
}

impl<'a, R: Files + Processes + Clock + AllocGlobal + Clone + Drop, G: Log> SystemShell<'a, R, G> {
    /// A shell that was asked for nothing. It makes nothing yet.
    pub fn new(rt: &'a R, log: &'a G) -> SystemShell<'a, R, G>
        ensures untold { ⟦<SystemShell<'a, R, G> as Shell>⟧.state result ≡ untold }
    {
        SystemShell {
            rt,
            log,
            made: None,
            run: None,
        }
    }

    /// What was made for the bot.
    fn made(&self) -> io::Result<&(String, KeptCaches<'a, R>)> {
        match &self.made {
            Some(made) => Ok(made),
            None => Err(io::Error::from(ErrorKind::NotFound)),
        }
    }

    /// Makes the folder of a bot anew.
    fn make(&self, bot: &str) -> io::Result<(String, KeptCaches<'a, R>)> {
        let alloc = self.rt.alloc();
        let folder = format!(in alloc; "swarm-bot-{bot}")?;
        let caches = path_below(alloc, folder.as_str(), "caches")?;
        let runs = path_below(alloc, folder.as_str(), "runs")?;
        remove_folder(self.rt, folder.as_str())?;
        fs::create_dir(self.rt, folder.as_str())?;
        let caches = KeptCaches::make(self.rt, caches)?;
        fs::create_dir(self.rt, runs.as_str())?;
        Ok((runs, caches))
    }

    /// Makes the folder of a run anew, with an empty work folder.
    fn begin(&self, run: &str) -> io::Result<ChildRun<'a, R>> {
        let alloc = self.rt.alloc();
        let folder = path_below(alloc, self.made()?.0.as_str(), run)?;
        let work = path_below(alloc, folder.as_str(), "work")?;
        // A run that could not be cleared away.
        if let Some(run) = &self.run {
            let _ = remove_folder(self.rt, run.folder.as_str());
        }
        remove_folder(self.rt, folder.as_str())?;
        fs::create_dir(self.rt, folder.as_str())?;
        let work = HeldFolder::make(self.rt, work)?;
        info!(self.log; "run in {} begins", folder.as_str());
        Ok(ChildRun::new(folder, work))
    }

    /// Lays caches into a work folder, and then inputs.
    fn fill(
        &self,
        work: &HeldFolder<'a, R>,
        inputs: &[(Text, Seq<u8>)],
        caches: &[PreparedCache],
    ) -> io::Result<()> {
        self.made()?.1.move_all_in(work, caches)?;
        for (path, bytes) in inputs {
            work.write(path.as_str(), bytes.as_slice())?;
        }
        Ok(())
    }

    /// Takes the caches of a run back, and removes its folder, also where not all could be taken back.
    fn clear(&self, run: &ChildRun<'a, R>, caches: &[CachePath]) -> io::Result<()> {
        let taken = self.made()?.1.move_all_back(&run.work, caches);
        remove_folder(self.rt, run.folder.as_str())?;
        match run.ended {
            Some(code) => info!(self.log; "run in {} ended, exit code {code}", run.folder.as_str()),
            None => info!(self.log; "run in {} ended, no exit code", run.folder.as_str()),
        }
        taken
    }
}

impl<'a, R: Files + Processes + Clock + AllocGlobal + Clone + Drop, G: Log> Shell
    for SystemShell<'a, R, G> {
    ghost state = { λ _. untold };

    #[tactic(auto, using(crate::proofs::Untold::carries))]
    fn make_folder(&mut self, bot: &Text) -> io::Result<()> {
        self.run = None;
        self.made = None;
        self.made = Some(self.make(bot.as_str())?);
        Ok(())
    }

    #[tactic(auto, using(crate::proofs::Untold::carries))]
    fn lay_out(
        &mut self,
        run: &Text,
        inputs: &[(Text, Seq<u8>)],
        caches: &[PreparedCache],
    ) -> io::Result<()> {
        let run = self.begin(run.as_str())?;
        let filled = self.fill(&run.work, inputs, caches);
        self.run = Some(run);
        filled
    }

    #[tactic(auto, using(crate::proofs::Untold::carries))]
    fn launch(&mut self, command: &[Text], env: &[(Text, Text)]) -> io::Result<()> {
        match &mut self.run {
            Some(run) => run.start(self.rt, command, env),
            None => Err(io::Error::from(ErrorKind::NotFound)),
        }
    }

    #[tactic(auto, using(crate::proofs::Untold::shows))]
    fn show(&mut self, into: &mut [u8]) -> io::Result<Look> {
        match &mut self.run {
            Some(run) => run.look(self.rt, into),
            None => Err(io::Error::from(ErrorKind::NotFound)),
        }
    }

    #[tactic(auto, using(crate::proofs::Untold::sends))]
    fn send(&mut self, signal: Signal) -> io::Result<bool> {
        match &self.run {
            Some(run) => run.signal(self.rt, signal),
            None => Ok(false),
        }
    }

    #[tactic(auto, using(crate::proofs::Untold::reads))]
    fn read(&mut self, path: &Text, most: u64) -> io::Result<Option<Seq<u8>>> {
        match &self.run {
            Some(run) => run.work.read(path.as_str(), most),
            None => Err(io::Error::from(ErrorKind::NotFound)),
        }
    }

    fn end_child(&mut self) -> io::Result<()> {
        match &mut self.run {
            Some(run) => run.end(self.rt),
            None => Ok(()),
        }
    }

    #[tactic(auto, using(crate::proofs::Untold::clears))]
    fn clear_away(&mut self, caches: &[CachePath]) -> io::Result<Seq<u64>> {
        if let Some(run) = &self.run {
            self.clear(run, caches)?;
        }
        self.run = None;
        self.made()?.1.sizes(caches)
    }

    #[tactic(auto, using(crate::proofs::Untold::carries))]
    fn keep_named(&mut self, names: &[Text]) -> io::Result<()> {
        self.made()?.1.keep(names)
    }
}
