ghost use Rattle.std.specs.Prelude.{◌≡◌, Some, option_copied};
ghost use Rattle.sw_base.specs.Files.{file_at};

use crate::failing::is_failing;
use crate::{FileFault, Files};
use std::alloc::Global;

/// Files in memory, which tell all. Calls of them can be made to fail.
#[derive(Drop)]
pub struct MemoryFiles {
    files: Vec<(String, Vec<u8>)>,
    calls: u64,
    fails: Vec<u64>,
    faults: u64,
}

impl MemoryFiles {
    ghost use Rattle.sw_base.specs.Files.{new_files};

    /// Files by their paths, of which the first file of a path counts. The calls that fail are
    /// those whose number stands in `fails`: loads and saves are counted together, from 0.
    pub fn new(files: Vec<(String, Vec<u8>)>, fails: Vec<u64>) -> MemoryFiles
        ensures held { ⟦<MemoryFiles as Files>⟧.state result ≡ new_files (Some (file_at files.items)) }
    {
        MemoryFiles {
            files,
            calls: 0,
            fails,
            faults: 0,
        }
    }
}

fn find_file<'f>(files: &'f [(String, Vec<u8>)], path: &str) -> Option<&'f [u8]>
    ensures { option_copied result ≡ file_at files.now path.now }
{
    for (name, bytes) in files {
        if name.as_str() == path {
            return Some(bytes.as_slice());
        }
    }
    None
}

impl Files for MemoryFiles {
    ghost state = { λ m. record {
      held = Some (file_at m.files.items);
      faults = m.faults;
    } };

    fn load(&mut self, alloc: Global, path: &str, most: u64) -> Result<Option<Vec<u8>>, FileFault> {
        if is_failing(&mut self.calls, &self.fails) {
            self.faults = self.faults.saturating_add(1);
            return Err(FileFault::Failed);
        }
        let Some(bytes) = find_file(&self.files, path) else {
            return Ok(None);
        };
        if bytes.len() as u64 > most {
            return Err(FileFault::TooLong);
        }
        Ok(Some(Vec::from_slice(alloc, bytes)?))
    }

    fn save(&mut self, alloc: Global, path: &str, bytes: &[u8]) -> Result<(), FileFault> {
        if is_failing(&mut self.calls, &self.fails) {
            self.faults = self.faults.saturating_add(1);
            return Err(FileFault::Failed);
        }
        let name = String::from_str(alloc, path)?;
        let file = (name, Vec::from_slice(alloc, bytes)?);
        // The first file of a path counts.
        if self.files.insert(0, file).is_err() {
            return Err(FileFault::Memory);
        }
        Ok(())
    }
}
