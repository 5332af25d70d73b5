use crate::found::found;
use crate::paths::{path_below, path_inside, path_of_name};
use crate::places::{is_folder, read_file};
use dimensions::Seq;
use std::fs::{OpenFile, OpenOptions};
use std::io::{ErrorKind, Write};
use std::os::unix::fs::MetadataExt;
use std::rt::Files;
use std::{fs, io};

/// A folder that is held open, and the path at which it was made.
///
/// Where a task can reach a folder, another one or a link may stand at its path by now. As long as the
/// folder is held no other has its numbers, so these tell whether it still stands there itself. Each use
/// looks before and after it.
#[derive(Drop)]
pub struct HeldFolder<'a, R: Files> {
    pub(crate) rt: &'a R,
    path: String,
    folder: R::File,
}

impl<'a, R: Files + AllocGlobal> HeldFolder<'a, R> {
    /// Makes a folder at a path, and holds it.
    pub fn make(rt: &'a R, path: String) -> io::Result<HeldFolder<'a, R>> {
        fs::create_dir(rt, path.as_str())?;
        let folder = fs::open(rt, path.as_str())?;
        Ok(HeldFolder { rt, path, folder })
    }

    /// Its path. Where nothing can be looked at there, a use of the path fails by itself.
    ///
    /// # Errors
    ///
    /// Something else stands there.
    pub(crate) fn checked(&self) -> io::Result<&str> {
        let path = self.path.as_str();
        let Ok(there) = fs::symlink_metadata(self.rt, path) else {
            return Ok(path);
        };
        let held = self.folder.metadata()?;
        if there.dev() == held.dev() && there.ino() == held.ino() {
            return Ok(path);
        }
        let why = "its folder was replaced";
        Err(io::Error::new(ErrorKind::InvalidInput, why))
    }

    /// The path of what has a name in it.
    pub(crate) fn path_of(&self, name: &str) -> io::Result<String> {
        path_of_name(self.rt.alloc(), self.checked()?, name)
    }

    /// The place of a path in it. The folders above that are made where they aren't there.
    ///
    /// # Errors
    ///
    /// The path may lead elsewhere, or one of these is no folder, but a file or a link.
    pub(crate) fn make_place(&self, path: &str) -> io::Result<String> {
        let folder = self.checked()?;
        let place = path_inside(self.rt.alloc(), folder, path)?;
        for (at, _) in path.match_indices('/') {
            let parent = path_below(self.rt.alloc(), folder, &path[..at])?;
            if !is_folder(self.rt, parent.as_str())? {
                fs::create_dir(self.rt, parent.as_str())?;
            }
        }
        Ok(place)
    }

    /// The place of a path in it, where all folders above that are there. It fails as `make_place` does.
    pub(crate) fn find_place(&self, path: &str) -> io::Result<Option<String>> {
        let folder = self.checked()?;
        let place = path_inside(self.rt.alloc(), folder, path)?;
        for (at, _) in path.match_indices('/') {
            let parent = path_below(self.rt.alloc(), folder, &path[..at])?;
            if !is_folder(self.rt, parent.as_str())? {
                return Ok(None);
            }
        }
        Ok(Some(place))
    }

    /// Writes a file at a path, in place of a file or a link that is there.
    pub fn write(&self, path: &str, bytes: &[u8]) -> io::Result<()> {
        let place = self.make_place(path)?;
        found(fs::remove_file(self.rt, place.as_str()))?;
        let mut file = OpenOptions::new()
            .write(true)
            .create_new(true)
            .open(self.rt, place.as_str())?;
        file.write_all(bytes)?;
        self.checked()?;
        Ok(())
    }

    /// The bytes of the file at a path, as `read_file` answers them.
    pub fn read(&self, path: &str, most: u64) -> io::Result<Option<Seq<u8>>> {
        let found = match self.find_place(path)? {
            Some(place) => read_file(self.rt, place.as_str(), most)?,
            None => None,
        };
        self.checked()?;
        Ok(found.map(Seq::from_vec))
    }
}
