ghost use Rattle.std.specs.Prelude.{◌≡◌, ◌≤◌, None, IfOk, OnOk, IfSome, length};
ghost use Rattle.std.specs.Io.KnownBytes.{Appends};

use crate::{FileFault, Files};
use std::alloc::Global;
use std::fs::OpenFile;
use std::io::{ErrorKind, Read, Write};
use std::{fs, io};

/// The files of the disk, which tell nothing.
///
/// A save writes a new file beside the old one, its path with `.new` behind it, and renames it, so a
/// reader finds the old bytes or the new ones and no part of them, also where the program ends in
/// between. A file that stood at the path with `.new` is lost. The new file has the rights of a file
/// that is made, whatever the old one had. Its bytes are synced before it is renamed; that the name
/// outlasts a failure of power isn't promised, since its folder isn't synced.
#[derive(Drop)]
pub struct DiskFiles<R> {
    rt: R,
    faults: u64,
}

impl<R: fs::Files> DiskFiles<R> {
    ghost use Rattle.sw_base.specs.Files.{new_files};

    pub fn new(rt: R) -> Self
        ensures untold { ⟦<DiskFiles<R> as Files>⟧.state result ≡ new_files None }
    {
        DiskFiles { rt, faults: 0 }
    }
}

/// All that is left of a file, where that is at most so many bytes. It keeps no more of a longer one.
#[tactic(auto, using(crate::proofs::Whole::none_yet, crate::proofs::Whole::one_more, crate::proofs::Whole::none_more, crate::proofs::Whole::all_of_it))]
fn read_up_to<F: Read>(alloc: Global, file: &mut F, most: u64) -> Result<Vec<u8>, FileFault>
    ensures bound { IfOk result (λ bytes. length bytes.items ≤ most) }
    ensures whole { IfOk result (λ bytes. IfSome (F.remaining file.old) (λ left. bytes.items ≡ left)) }
{
    let mut bytes = Vec::new(alloc);
    let mut piece = [0; 4096];
    for _ in 0..u64::MAX {
        match file.read(&mut piece) {
            Ok(0) => return Ok(bytes),
            Ok(n) => {
                if bytes.len() as u64 + n as u64 > most {
                    return Err(FileFault::TooLong);
                }
                bytes.extend_from_slice(&piece[..n])?;
            }
            Err(error) => {
                if error.kind() != ErrorKind::Interrupted {
                    return Err(FileFault::Failed);
                }
            }
        }
    }
    Err(FileFault::Failed)
}

/// The bytes of the file at a path, where there is one.
fn read_file<R: fs::Files>(
    alloc: Global,
    rt: &R,
    path: &str,
    most: u64,
) -> Result<Option<Vec<u8>>, FileFault>
    ensures { IfOk result (λ found. IfSome found (λ bytes. length bytes.items ≤ most)) }
{
    match fs::open(rt, path) {
        Ok(mut file) => Ok(Some(read_up_to(alloc, &mut file, most)?)),
        Err(error) => {
            if error.kind() == ErrorKind::NotFound {
                return Ok(None);
            }
            Err(FileFault::Failed)
        }
    }
}

/// Writes all the bytes to a file, and syncs it.
fn write_synced<F: Write + OpenFile>(file: &mut F, bytes: &[u8]) -> io::Result<()>
    ensures whole { OnOk result (Appends (F.contents file.old) (F.contents file.new) bytes.now) }
{
    file.write_all(bytes)?;
    file.sync_all()
}

/// Makes a file of these bytes at a path, or makes an old one anew.
fn write_file<R: fs::Files>(rt: &R, path: &str, bytes: &[u8]) -> io::Result<()> {
    let mut file = fs::create(rt, path)?;
    write_synced(&mut file, bytes)
}

/// Puts a file of these bytes at a path, over the path `new`, at which none stays where that fails.
fn replace_file<R: fs::Files>(rt: &R, path: &str, new: &str, bytes: &[u8]) -> io::Result<()> {
    let replaced = match write_file(rt, new, bytes) {
        Ok(()) => fs::rename(rt, new, path),
        Err(error) => Err(error),
    };
    if replaced.is_err() {
        drop(fs::remove_file(rt, new));
    }
    replaced
}

impl<R: fs::Files> Files for DiskFiles<R> {
    ghost state = { λ d. record { held = None; faults = d.faults } };

    fn load(&mut self, alloc: Global, path: &str, most: u64) -> Result<Option<Vec<u8>>, FileFault> {
        match read_file(alloc, &self.rt, path, most) {
            Ok(found) => Ok(found),
            Err(FileFault::Failed) => {
                self.faults = self.faults.saturating_add(1);
                Err(FileFault::Failed)
            }
            Err(FileFault::Memory) => Err(FileFault::Memory),
            Err(FileFault::TooLong) => Err(FileFault::TooLong),
        }
    }

    fn save(&mut self, alloc: Global, path: &str, bytes: &[u8]) -> Result<(), FileFault> {
        let new = format!(in alloc; "{path}.new")?;
        if replace_file(&self.rt, path, new.as_str(), bytes).is_err() {
            self.faults = self.faults.saturating_add(1);
            return Err(FileFault::Failed);
        }
        Ok(())
    }
}
