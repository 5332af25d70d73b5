//! The folders of the named caches. Each stands among the kept caches under its name, and in the work
//! folder of a run at its path.
//!
//! One cache may lie in another. So the outer ones are moved in first, and moved back last.
ghost use Rattle.std.specs.Prelude.{◌≡◌, IfOk, length};

use crate::HeldFolder;
use crate::found::found;
use crate::paths::depth;
use crate::places::{is_folder, remove_folder};
use crate::tools::{folder_size, unlock_folder};
use dimensions::{Seq, Text};
use runners::{CachePath, PreparedCache};
use std::io::ErrorKind;
use std::process::Processes;
use std::rt::Files;
use std::{fs, io};

/// Moves a folder. Where it or the folder around it may not be written to, `around` is made writable.
fn move_folder<R: Files + Processes + AllocGlobal>(
    rt: &R,
    from: &str,
    to: &str,
    around: &str,
) -> io::Result<()> {
    match fs::rename(rt, from, to) {
        Err(error) if error.kind() == ErrorKind::PermissionDenied => {}
        moved => return moved,
    }
    unlock_folder(rt, around)?;
    fs::rename(rt, from, to)
}

/// Removes what stands at a path, be it a folder, a file or a link.
fn clear_place<R: Files + Processes + AllocGlobal>(rt: &R, name: &str) -> io::Result<()> {
    match found(fs::remove_file(rt, name)) {
        Ok(_) => Ok(()),
        Err(_) => remove_folder(rt, name),
    }
}

/// The folder of the caches that no run has.
#[derive(Drop)]
pub struct KeptCaches<'a, R: Files> {
    folder: HeldFolder<'a, R>,
}

impl<'a, R: Files + Processes + AllocGlobal> KeptCaches<'a, R> {
    /// Makes the folder at a path; no cache is kept.
    pub fn make(rt: &'a R, path: String) -> io::Result<KeptCaches<'a, R>> {
        let folder = HeldFolder::make(rt, path)?;
        Ok(KeptCaches { folder })
    }

    /// Looks whether both folders still stand where they were made.
    fn check(&self, work: &HeldFolder<'a, R>) -> io::Result<()> {
        self.folder.checked()?;
        work.checked()?;
        Ok(())
    }

    /// Moves a kept cache to its path, or makes an empty folder there: for one that isn't kept, and where
    /// the folder of a kept one is gone.
    fn move_in(&self, work: &HeldFolder<'a, R>, cache: &PreparedCache) -> io::Result<()> {
        let from = self.folder.path_of(cache.name.as_str())?;
        let place = work.make_place(cache.path.as_str())?;
        clear_place(work.rt, place.as_str())?;
        if !cache.is_kept {
            remove_folder(work.rt, from.as_str())?;
        } else if found(move_folder(
            work.rt,
            from.as_str(),
            place.as_str(),
            from.as_str(),
        ))?.is_some()
        {
            return Ok(());
        }
        fs::create_dir(work.rt, place.as_str())
    }

    /// Moves the caches of a run to their paths.
    pub fn move_all_in(
        &self,
        work: &HeldFolder<'a, R>,
        caches: &[PreparedCache],
    ) -> io::Result<()> {
        let deepest = caches.iter().map(|it| depth(it.path.as_str())).max();
        for level in 0..=deepest.unwrap_or(0) {
            for cache in caches {
                if depth(cache.path.as_str()) == level {
                    self.move_in(work, cache)?;
                    self.check(work)?;
                }
            }
        }
        Ok(())
    }

    /// Moves a cache back, where a folder stands at its path. Otherwise the kept one stays.
    fn move_back(&self, work: &HeldFolder<'a, R>, cache: &CachePath) -> io::Result<()> {
        let around = work.checked()?;
        if let Ok(Some(from)) = work.find_place(cache.path.as_str())
            && let Ok(true) = is_folder(work.rt, from.as_str())
        {
            let to = self.folder.path_of(cache.name.as_str())?;
            remove_folder(work.rt, to.as_str())?;
            move_folder(work.rt, from.as_str(), to.as_str(), around)?;
        }
        Ok(())
    }

    /// Moves the caches of a run back from its work folder.
    pub fn move_all_back(&self, work: &HeldFolder<'a, R>, caches: &[CachePath]) -> io::Result<()> {
        let deepest = caches.iter().map(|it| depth(it.path.as_str())).max();
        for level in (0..=deepest.unwrap_or(0)).rev() {
            for cache in caches {
                if depth(cache.path.as_str()) == level {
                    self.move_back(work, cache)?;
                    self.check(work)?;
                }
            }
        }
        Ok(())
    }

    /// The size of a kept cache. One that has no folder is made, empty.
    fn size_of(&self, cache: &CachePath) -> io::Result<u64> {
        let folder = self.folder.path_of(cache.name.as_str())?;
        if !is_folder(self.folder.rt, folder.as_str())? {
            fs::create_dir(self.folder.rt, folder.as_str())?;
        }
        let size = folder_size(self.folder.rt, folder.as_str())?;
        self.folder.checked()?;
        Ok(size)
    }

    /// The sizes of kept caches, in their order.
    pub fn sizes(&self, caches: &[CachePath]) -> io::Result<Seq<u64>>
        ensures { IfOk result (λ sizes. length sizes ≡ length caches.now) }
    {
        let mut sizes = Seq::new(self.folder.rt.alloc());
        for cache in caches {
            let size = self.size_of(cache)?;
            if sizes.try_push(size).is_err() {
                return Err(io::Error::from(ErrorKind::OutOfMemory));
            }
        }
        Ok(sizes)
    }
}

impl<'a, R: Files + Processes + AllocGlobal + Clone + Drop> KeptCaches<'a, R> {
    /// Removes the kept caches whose names aren't these.
    pub fn keep(&self, names: &[Text]) -> io::Result<()> {
        for entry in fs::read_dir(self.folder.rt, self.folder.checked()?)? {
            let entry = entry?;
            if !names.iter().any(|name| name.as_str() == entry.file_name()) {
                let folder = self.folder.path_of(entry.file_name())?;
                remove_folder(self.folder.rt, folder.as_str())?;
            }
        }
        self.folder.checked()?;
        Ok(())
    }
}
