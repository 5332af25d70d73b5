ghost use Rattle.std.specs.Prelude.{◌≡◌, None, IfOk, IfErr};
ghost use Rattle.sqlite_keeper.specs.Faults.{CountsStart};

use crate::records::Records;
use crate::site::Site;
use crate::sql_file::SqlFile;
use crate::sqlite_keeper::SqliteKeeper;
use program_log::ProgramLog;
use std::alloc::Global;
use sw_base::StartFault;
use swarm_keeper::{Store, faults_after};

/// Files of pools on the disk, which tell nothing. It logs why a file can't be had.
#[derive(Drop)]
pub struct SqliteStore<'a> {
    rt: &'a HostRuntime,
    log: ProgramLog,
    faults: u64,
}

type Opened = Result<Records<SqlFile>, StartFault>;

/// The keeper of records that could be opened. A failure is counted.
fn keeper_of(faults: &mut u64, opened: Opened) -> Result<SqliteKeeper, StartFault>
    ensures ok { IfOk result (λ keeper. (keeper.faults ≡ 0) × (faults.new ≡ faults.old)) }
    ensures err { IfErr result (CountsStart faults.old faults.new) }
{
    match opened {
        Ok(records) => Ok(SqliteKeeper { records, faults: 0 }),
        Err(StartFault::Memory) => Err(StartFault::Memory),
        Err(StartFault::Failed) => {
            *faults = faults.saturating_add(1);
            Err(StartFault::Failed)
        }
    }
}

impl<'a> SqliteStore<'a> {
    ghost use Rattle.swarm_keeper.specs.Stores.{untold_store};

    pub fn new(rt: &'a HostRuntime, log: ProgramLog) -> SqliteStore<'a>
        ensures { ⟦<SqliteStore<'a> as Store>⟧.state result ≡ untold_store }
    {
        SqliteStore { rt, log, faults: 0 }
    }

    fn opened(&self, alloc: Global, folder: &str, pool: &str) -> Opened {
        let site = Site::new(*self.rt, self.log, alloc, folder, pool)?;
        let file = SqlFile::new(*self.rt, alloc, site.path.as_str())?;
        Records::open(site, file)
    }
}

impl<'a> Store for SqliteStore<'a> {
    type Keeper = SqliteKeeper;

    ghost state = { λ s. record {
      kept = None;
      places = None;
      faults = s.faults;
    } };

    fn attach(
        &mut self,
        alloc: Global,
        folder: &str,
        pool: &str,
    ) -> Result<SqliteKeeper, StartFault> {
        let opened = self.opened(alloc, folder, pool);
        keeper_of(&mut self.faults, opened)
    }

    fn detach(&mut self, _folder: &str, _pool: &str, mut keeper: SqliteKeeper) {
        self.faults = faults_after(self.faults, keeper.faults);
        keeper.records.close();
    }
}
