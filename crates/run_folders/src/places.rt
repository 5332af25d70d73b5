//! What stands at a path: folders and files.
use crate::found::found;
use crate::tools::unlock_folder;
use std::io::{ErrorKind, Read};
use std::process::Processes;
use std::rt::Files;
use std::{fs, io};

/// Whether a folder stands at a path.
///
/// # Errors
///
/// What is there is no folder, but a file or a link.
pub(crate) fn is_folder<R: Files>(rt: &R, path: &str) -> io::Result<bool> {
    match found(fs::symlink_metadata(rt, path))? {
        Some(data) if !data.is_dir() => Err(io::Error::from(ErrorKind::NotADirectory)),
        data => Ok(data.is_some()),
    }
}

/// The bytes of a file; more than `most` where it is longer. None where nothing is there.
///
/// # Errors
///
/// What is there is no file.
pub fn read_file<R: Files + AllocGlobal>(
    rt: &R,
    name: &str,
    most: u64,
) -> io::Result<Option<Vec<u8>>> {
    // A pipe would hold up its opening.
    match found(fs::symlink_metadata(rt, name))? {
        Some(data) if data.is_file() => {}
        Some(_) => return Err(io::Error::from(ErrorKind::InvalidInput)),
        None => return Ok(None),
    }
    let mut bytes = Vec::new(rt.alloc());
    let file = fs::open(rt, name)?;
    file.take(most.saturating_add(1)).read_to_end(&mut bytes)?;
    Ok(Some(bytes))
}

/// Removes a folder with all that is in it, where it is there.
pub fn remove_folder<R: Files + Processes + AllocGlobal>(rt: &R, folder: &str) -> io::Result<()> {
    if found(fs::remove_dir_all(rt, folder)).is_ok() {
        return Ok(());
    }
    unlock_folder(rt, folder)?;
    fs::remove_dir_all(rt, folder)
}
