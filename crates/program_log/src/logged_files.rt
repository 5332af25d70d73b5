ghost use Rattle.std.specs.Prelude.{◌≡◌, ◌==◌, ◌≤◌, None, IfOk, IfSome, count_by, length};
ghost use Rattle.sw_base.specs.Faults.{Rose};

use crate::disk::{read_up_to, write_file};
use log::{Log, error, info};
use std::alloc::Global;
use std::fs::{File, OpenOptions, TryLockError};
use std::io::ErrorKind;
use std::rt::Clock;
use std::{fs, io};
use sw_base::{FileFault, Files};

/// The files of the disk, which tell nothing. They say why one of them can't be had, and in each second at
/// most once how many lines a file has that was saved.
///
/// A save writes a new file beside the old one, its path with `.new` behind it, and renames it, so a
/// reader finds the old bytes or the new ones and no part of them, also where the program ends in
/// between. A file that stood at the path with `.new` is lost. The new file has the rights of a file
/// that is made, whatever the old one had. Its bytes are synced before it is renamed; that the name
/// outlasts a failure of power isn't promised, since its folder isn't synced.
///
/// The first save locks a file beside its path, with `.lock` behind that, which is made empty and stays.
/// Until the program ends no other run of it that begins with this path saves.
#[derive(Drop)]
pub struct LoggedFiles<'a, R: fs::Files<File = File> + Clock, G: Log> {
    disk: &'a R,
    log: &'a G,
    faults: u64,
    /// From the first save on.
    lock: Option<File>,
    /// The second in which a save was told last, counted from 1970.
    told: Option<u64>,
}

impl<'a, R: fs::Files<File = File> + Clock, G: Log> LoggedFiles<'a, R, G> {
    ghost use Rattle.sw_base.specs.Files.{new_files};

    pub fn new(disk: &'a R, log: &'a G) -> Self
        ensures untold { ⟦<LoggedFiles<'a, R, G> as Files>⟧.state result ≡ new_files None }
    {
        LoggedFiles {
            disk,
            log,
            faults: 0,
            lock: None,
            told: None,
        }
    }

    /// Counts and logs a call that failed.
    fn add_fault(&mut self, call: &str, path: &str, error: &io::Error)
        ensures rose { Rose self.old.faults self.new.faults }
        ensures never_falls { self.old.faults ≤ self.new.faults }
    {
        error!(self.log; "can't {call} {path}: {error}");
        self.faults = self.faults.saturating_add(1);
    }

    /// The bytes of the file at a path, where there is one.
    fn read(&self, alloc: Global, path: &str, most: u64) -> io::Result<Option<Vec<u8>>>
        ensures { IfOk result (λ found. IfSome found (λ bytes. length bytes.items ≤ most)) }
    {
        match fs::open(self.disk, path) {
            Ok(mut file) => Ok(Some(read_up_to(alloc, &mut file, most)?)),
            Err(error) if error.kind() == ErrorKind::NotFound => Ok(None),
            Err(error) => Err(error),
        }
    }

    /// Locks the file at a path with `.lock` behind it, which is made where there is none.
    ///
    /// # Errors
    ///
    /// Another run has locked it.
    fn lock_beside(&self, alloc: Global, path: &str) -> io::Result<File> {
        let lock = format!(in alloc; "{path}.lock")?;
        let file = OpenOptions::new()
            .append(true)
            .create(true)
            .open(self.disk, lock.as_str())?;
        match file.try_lock() {
            Ok(()) => Ok(file),
            Err(TryLockError::Error(error)) => Err(error),
            Err(TryLockError::WouldBlock) => Err(io::Error::other("another run saves it")),
        }
    }

    /// Puts a file of these bytes at a path, over the path with `.new` behind it, at which none stays
    /// where that fails.
    fn replace(&self, alloc: Global, path: &str, bytes: &[u8]) -> io::Result<()> {
        let new = format!(in alloc; "{path}.new")?;
        let replaced = match write_file(self.disk, new.as_str(), bytes) {
            Ok(()) => fs::rename(self.disk, new.as_str(), path),
            Err(error) => Err(error),
        };
        if replaced.is_err() {
            drop(fs::remove_file(self.disk, new.as_str()));
        }
        replaced
    }

    /// Replaces the file at a path, once there is a lock.
    fn replace_locked(&mut self, alloc: Global, path: &str, bytes: &[u8]) -> io::Result<()>
        ensures { self.new.faults ≡ self.old.faults }
    {
        if self.lock.is_none() {
            self.lock = Some(self.lock_beside(alloc, path)?);
        }
        self.replace(alloc, path, bytes)
    }

    fn tell_saved(&mut self, path: &str, bytes: &[u8])
        ensures { self.new.faults ≡ self.old.faults }
    {
        let Ok(since) = self.disk.since_1970() else {
            return;
        };
        let second = Some(since.as_secs());
        if self.told != second {
            self.told = second;
            info!(self.log; "saved {path}: {} lines", lines_of(bytes));
        }
    }
}

/// How many bytes end a line.
fn lines_of(bytes: &[u8]) -> usize
    ensures { result ≡ count_by (λ byte. byte == 10) bytes.now }
{
    let mut lines = 0;
    for byte in bytes {
        if *byte == b'\n' {
            lines += 1;
        }
    }
    lines
}

impl<'a, R: fs::Files<File = File> + Clock, G: Log> Files for LoggedFiles<'a, R, G> {
    ghost state = { λ l. record { held = None; faults = l.faults } };

    fn load(&mut self, alloc: Global, path: &str, most: u64) -> Result<Option<Vec<u8>>, FileFault> {
        match self.read(alloc, path, most) {
            Ok(found) => Ok(found),
            Err(error) => match error.kind() {
                ErrorKind::OutOfMemory => Err(FileFault::Memory),
                ErrorKind::FileTooLarge => Err(FileFault::TooLong),
                _ => {
                    self.add_fault("read", path, &error);
                    Err(FileFault::Failed)
                }
            },
        }
    }

    fn save(&mut self, alloc: Global, path: &str, bytes: &[u8]) -> Result<(), FileFault> {
        match self.replace_locked(alloc, path, bytes) {
            Ok(()) => {
                self.tell_saved(path, bytes);
                Ok(())
            }
            Err(error) if error.kind() == ErrorKind::OutOfMemory => Err(FileFault::Memory),
            Err(error) => {
                self.add_fault("write", path, &error);
                Err(FileFault::Failed)
            }
        }
    }
}
