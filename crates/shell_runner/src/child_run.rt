ghost use Rattle.std.specs.Prelude.{◌≡◌, ◌≤◌, None, IfOk, length};
ghost use Rattle.runners.specs.Calls.{FitsRoom};

use crate::child_command::child_command;
use crate::exit_codes::{code_left, code_of};
use crate::shown_output::{ShownOutput, look_of};
use crate::signals::signal_name;
use bot_core::Signal;
use dimensions::Text;
use run_folders::{HeldFolder, await_group, path_below, read_file, signal_group};
use runners::Look;
use std::io::ErrorKind;
use std::process::{Child, Processes, Stdio};
use std::rt::{Clock, Files};
use std::time::Duration;
use std::{fs, io, thread};

/// A run: its folder and its work folder, and its child from the start to the end.
#[derive(Drop)]
pub(crate) struct ChildRun<'a, R: Files + Processes> {
    pub(crate) folder: String,
    pub(crate) work: HeldFolder<'a, R>,
    // Until it was waited for.
    child: Option<Child<R::Started>>,
    output: Option<ShownOutput<R::File>>,
    // The exit code, once it was seen.
    pub(crate) ended: Option<i32>,
}

impl<'a, R: Files + Processes> ChildRun<'a, R> {
    /// A run without a child.
    pub(crate) fn new(folder: String, work: HeldFolder<'a, R>) -> ChildRun<'a, R>
        ensures folder { result.folder ≡ folder }
        ensures work { result.work ≡ work.entry }
        ensures child { result.child ≡ None }
        ensures output { result.output ≡ None }
        ensures ended { result.ended ≡ None }
    {
        ChildRun {
            folder,
            work,
            child: None,
            output: None,
            ended: None,
        }
    }
}

impl<'a, R: Files + Processes + Clock + AllocGlobal> ChildRun<'a, R> {
    /// Starts the child.
    pub(crate) fn start(
        &mut self,
        rt: &R,
        command: &[Text],
        env: &[(Text, Text)],
    ) -> io::Result<()> {
        if self.output.is_some() {
            return Err(io::Error::from(ErrorKind::InvalidInput));
        }
        let mut shell = child_command(rt.alloc(), self.folder.as_str(), command, env)?;
        let output = path_below(rt.alloc(), self.folder.as_str(), "output")?;
        drop(fs::create(rt, output.as_str())?);
        self.output = Some(ShownOutput::new(fs::open(rt, output.as_str())?));
        let child = shell
            .stdin(Stdio::piped())
            .stdout(Stdio::null())
            .stderr(Stdio::null())
            .spawn(rt)?;
        self.child = Some(child);
        Ok(())
    }

    /// The exit code that the shell has written.
    fn written_code(&self, rt: &R) -> io::Result<Option<i32>> {
        let path = path_below(rt.alloc(), self.folder.as_str(), "status")?;
        match read_file(rt, path.as_str(), 16)? {
            Some(line) => code_of(&line),
            None => Ok(None),
        }
    }

    /// The exit code of a child whose shell is gone.
    fn code_of_group(&mut self, rt: &R) -> io::Result<Option<i32>> {
        let Some(child) = &mut self.child else {
            return Err(io::Error::from(ErrorKind::NotFound));
        };
        let group = child.id();
        let Some(status) = child.try_wait()? else {
            return Ok(None);
        };
        // Others of the group may be left, and then the number is still theirs.
        self.child = None;
        signal_group(rt, "KILL", group)?;
        await_group(rt, group)?;
        code_left(self.written_code(rt)?, status)
    }

    /// Looks whether the child has ended, unless it is known.
    fn note_end(&mut self, rt: &R) -> io::Result<()> {
        if self.ended.is_none() {
            self.ended = self.written_code(rt)?;
        }
        if self.ended.is_none() {
            self.ended = self.code_of_group(rt)?;
        }
        Ok(())
    }

    /// Looks whether the child has ended, and shows what comes next.
    pub(crate) fn look(&mut self, rt: &R, into: &mut [u8]) -> io::Result<Look>
        ensures fits { IfOk result (λ l. FitsRoom l (length into.new)) }
        ensures same { length into.new ≡ length into.old }
    {
        self.note_end(rt)?;
        let Some(output) = &mut self.output else {
            return Err(io::Error::from(ErrorKind::NotFound));
        };
        let n = output.read(into)?;
        Ok(look_of(into.len(), n, self.ended))
    }

    /// Sends a signal to the child and all that it started. Whether there was one to send it to.
    pub(crate) fn signal(&self, rt: &R, signal: Signal) -> io::Result<bool> {
        match &self.child {
            Some(child) => signal_group(rt, signal_name(signal), child.id()),
            None => Ok(false),
        }
    }

    /// Ends the child, and all that it started and that is still of its group.
    pub(crate) fn end(&mut self, rt: &R) -> io::Result<()> {
        let Some(child) = &mut self.child else {
            return Ok(());
        };
        let group = child.id();
        signal_group(rt, "KILL", group)?;
        // It may not have its group yet.
        child.kill()?;
        for _ in 0..100 {
            if child.try_wait()?.is_some() {
                self.child = None;
                return await_group(rt, group);
            }
            thread::sleep(rt, Duration::from_millis(20));
        }
        Err(io::Error::from(ErrorKind::TimedOut))
    }
}
