use dimensions::{Text, TryCopy};
use std::alloc::{AllocError, Global};

/// A named cache, and its path in the work folder.
#[derive(Drop)]
pub struct CachePath {
    pub name: Text,
    pub path: Text,
}

/// A named cache that a run is to find at a path of its work folder.
#[derive(Drop)]
pub struct PreparedCache {
    pub name: Text,
    pub path: Text,
    /// Whether the bot keeps a cache of this name, which is then moved in. Otherwise the run finds an
    /// empty folder.
    pub is_kept: bool,
}

impl TryCopy for CachePath {
    fn try_copy(&self, alloc: Global) -> Result<CachePath, AllocError> {
        Ok(CachePath {
            name: self.name.try_copy(alloc)?,
            path: self.path.try_copy(alloc)?,
        })
    }
}

impl TryCopy for PreparedCache {
    fn try_copy(&self, alloc: Global) -> Result<PreparedCache, AllocError> {
        Ok(PreparedCache {
            name: self.name.try_copy(alloc)?,
            path: self.path.try_copy(alloc)?,
            is_kept: self.is_kept,
        })
    }
}
