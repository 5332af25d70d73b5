ghost use Rattle.sw_base.specs.Files.{FilesState, Loads, Saves};

use crate::FileFault;
use std::alloc::Global;

/// Files that are read and written whole, by their paths.
pub trait Files {
    ghost state: { Self → FilesState };

    /// The bytes of the file at a path, where there is one.
    ///
    /// # Errors
    ///
    /// The file has more than `most` bytes, the call failed, or there is no memory.
    fn load(&mut self, alloc: Global, path: &str, most: u64) -> Result<Option<Vec<u8>>, FileFault>
        ensures { Loads (state self.old) (state self.new) path.now most result };

    /// Puts these bytes at a path, in place of a file that stands there.
    ///
    /// # Errors
    ///
    /// The call failed, or there is no memory. What stood at the path stands there still.
    fn save(&mut self, alloc: Global, path: &str, bytes: &[u8]) -> Result<(), FileFault>
        ensures { Saves (state self.old) (state self.new) path.now bytes.now result };
}
