ghost use Rattle.std.specs.Prelude.{◌≡◌, false, None, refl};
ghost use Rattle.swarm_keeper.specs.Tables.{Counts};

use crate::records::Records;
use crate::site::is_memory;
use crate::sql_file::SqlFile;
use dimensions::{Seq, Text};
use sqlite::Error;
use swarm_keeper::{Digest, Keeper, KeeperFault};

/// A keeper over a file, which tells nothing. It logs how the lines of its base and of its log are read,
/// one after the other, that it has another base, and why a call failed.
#[derive(Drop)]
pub struct SqliteKeeper {
    pub(crate) records: Records<SqlFile>,
    pub(crate) faults: u64,
}

/// What a call found, where a failure is counted if it is not want of memory.
fn counted<T>(faults: &mut u64, found: Result<T, Error>) -> Result<T, KeeperFault>
    ensures { Counts false faults.old faults.new result }
{
    match found {
        Ok(value) => Ok(value),
        Err(error) if is_memory(&error) => Err(KeeperFault::Memory),
        Err(_) => {
            *faults = faults.saturating_add(1);
            Err(KeeperFault::Failed)
        }
    }
}

impl Keeper for SqliteKeeper {
    ghost tables = { λ k. None };

    ghost faults = { λ k. k.faults };

    ghost TELLS = { false };

    ghost tells = { λ keeper. refl };

    ghost SURE = { false };

    const SURE: bool = false;

    ghost sure_untold = { refl };

    fn append(
        &mut self,
        line: &str,
        add: Option<Digest>,
        bytes: &[u8],
        remove: Option<Digest>,
    ) -> Result<(), KeeperFault> {
        let done = self.records.append(line, add, bytes, remove);
        counted(&mut self.faults, done)
    }

    fn replace(&mut self, base: &[Text], count: u64) -> Result<(), KeeperFault> {
        counted(&mut self.faults, self.records.replace(base, count))
    }

    fn count(&mut self) -> Result<u64, KeeperFault> {
        counted(&mut self.faults, self.records.count())
    }

    fn base_line(&mut self, at: u64) -> Result<Option<Text>, KeeperFault> {
        counted(&mut self.faults, self.records.base_line(at))
    }

    fn line(&mut self, at: u64) -> Result<Option<Text>, KeeperFault> {
        counted(&mut self.faults, self.records.line(at))
    }

    fn blob(&mut self, digest: &Digest) -> Result<Option<Seq<u8>>, KeeperFault> {
        counted(&mut self.faults, self.records.blob(digest))
    }
}
