ghost use Rattle.std.specs.Prelude.{◌≡◌, ◌==◌, ◌≤◌, ◌+◌, ◌-◌, ◌^◌, false, Some, min, MatchBool, IfSome, IfOk, OnOk, OnErr, option_map};
ghost use Rattle.sw_base.specs.Faults.{Rose};
ghost use Rattle.swarm_keeper.specs.Places.{FindsPlace, Replaces, IsKept, IsTaken, tables_in, has_place};

use crate::keeper::Keeper;
use crate::memory_keeper::MemoryKeeper;
use crate::memory_tables::MemoryTables;
use crate::store::{Store, faults_after};
use dimensions::Text;
use std::alloc::{AllocError, Global};
use std::mem;
use sw_base::{StartFault, is_failing};

/// What is kept of one folder and pool.
#[derive(Drop)]
struct Place {
    folder: Text,
    pool: Text,
    tables: MemoryTables,
}

impl Place {
    ghost use Rattle.swarm_keeper.specs.Places.{is_place};

    fn is_at(&self, folder: &str, pool: &str) -> bool
        ensures { result ≡ is_place folder.now pool.now self.now }
    {
        self.folder.as_str() == folder && self.pool.as_str() == pool
    }
}

/// A store in memory, which tells all, and holds tables of either version. Calls of it and of its
/// keepers can be made to fail.
#[derive(Drop)]
pub struct MemoryStore {
    alloc: Global,
    places: Vec<Place>,
    calls: u64,
    fails: Vec<u64>,
    keeper_fails: Vec<Vec<u64>>,
    faults: u64,
}

/// Where the place of a folder and pool stands, if it has one.
fn place_of(places: &[Place], folder: &str, pool: &str) -> Option<usize>
    ensures { FindsPlace places.now folder.now pool.now result }
{
    for (at, place) in places.iter().enumerate() {
        if place.is_at(folder, pool) {
            return Some(at);
        }
    }
    None
}

/// Puts tables in the place of a folder and pool, if it has one, and gives those that were there.
fn replace_tables(
    places: &mut Vec<Place>,
    folder: &str,
    pool: &str,
    tables: MemoryTables,
) -> Option<MemoryTables>
    ensures { Replaces places.old.items places.new.items folder.now pool.now tables result }
{
    match place_of(places, folder, pool) {
        Some(at) => Some(mem::replace(&mut places[at].tables, tables)),
        None => None,
    }
}

/// Adds a place with these tables.
fn add_place(
    places: &mut Vec<Place>,
    alloc: Global,
    folder: &str,
    pool: &str,
    tables: MemoryTables,
) -> Result<(), AllocError>
    ensures ok { OnOk result (has_place places.old.items folder.now pool.now ≡ false → IsKept places.old.items places.new.items folder.now pool.now tables) }
    ensures err { OnErr result (places.new.items ≡ places.old.items) }
{
    let folder = Text::from_str(alloc, folder)?;
    let pool = Text::from_str(alloc, pool)?;
    places.push(Place {
        folder,
        pool,
        tables,
    })?;
    Ok(())
}

/// Keeps tables at a folder and pool, in place of those that were there.
fn keep_tables(
    places: &mut Vec<Place>,
    alloc: Global,
    folder: &str,
    pool: &str,
    tables: MemoryTables,
) -> Result<(), AllocError>
    ensures ok { OnOk result (IsKept places.old.items places.new.items folder.now pool.now tables) }
    ensures err { OnErr result (places.new.items ≡ places.old.items) }
{
    match place_of(places, folder, pool) {
        Some(at) => {
            places[at].tables = tables;
            Ok(())
        }
        None => add_place(places, alloc, folder, pool, tables),
    }
}

impl MemoryStore {
    ghost use Rattle.swarm_keeper.specs.Stores.{HasPlace, PlacesStay, new_store, with_line, with_tables};

    /// A store that keeps nothing yet. The attaches that fail are those whose number stands in
    /// `attach_fails`; the keeper of the n-th attach that succeeds fails at the calls whose numbers
    /// stand in `keeper_fails[n]`. All are counted from 0.
    pub fn new(alloc: Global, attach_fails: Vec<u64>, keeper_fails: Vec<Vec<u64>>) -> MemoryStore
        ensures { ⟦<MemoryStore as Store>⟧.state result ≡ new_store }
    {
        let mut keeper_fails = keeper_fails;
        keeper_fails.reverse();
        MemoryStore {
            alloc,
            places: Vec::new(alloc),
            calls: 0,
            fails: attach_fails,
            keeper_fails,
            faults: 0,
        }
    }

    /// The tables of a folder and pool, in whose place there are then none.
    fn take_tables(
        &mut self,
        alloc: Global,
        folder: &str,
        pool: &str,
    ) -> Result<MemoryTables, AllocError>
        ensures taken { IfOk result (IsTaken self.old.places.items self.new.places.items folder.now pool.now) }
        ensures stays { OnErr result (self.new.places.items ≡ self.old.places.items) }
        ensures faults { self.new.faults ≡ self.old.faults }
    {
        match replace_tables(&mut self.places, folder, pool, MemoryTables::new(alloc)) {
            Some(tables) => Ok(tables),
            None => {
                add_place(
                    &mut self.places,
                    alloc,
                    folder,
                    pool,
                    MemoryTables::new(alloc),
                )?;
                Ok(MemoryTables::new(alloc))
            }
        }
    }

    /// Keeps tables of a folder and pool, in place of those that were there.
    pub fn keep(&mut self, folder: &str, pool: &str, tables: MemoryTables) -> Result<(), AllocError>
        ensures kept { OnOk result ((⟦<MemoryStore as Store>⟧.state self.new).kept ≡ option_map (with_tables folder.now pool.now tables) (⟦<MemoryStore as Store>⟧.state self.old).kept) }
        ensures place { OnOk result (HasPlace (⟦<MemoryStore as Store>⟧.state self.new) folder.now pool.now) }
        ensures places { OnOk result (PlacesStay (⟦<MemoryStore as Store>⟧.state self.old) (⟦<MemoryStore as Store>⟧.state self.new)) }
        ensures faults { OnOk result ((⟦<MemoryStore as Store>⟧.state self.new).faults ≡ (⟦<MemoryStore as Store>⟧.state self.old).faults) }
        ensures stays { OnErr result (⟦<MemoryStore as Store>⟧.state self.new ≡ ⟦<MemoryStore as Store>⟧.state self.old) }
    {
        keep_tables(&mut self.places, self.alloc, folder, pool, tables)
    }

    /// The lines of the base that is kept of a folder and pool.
    pub fn base_lines(&self, folder: &str, pool: &str) -> &[Text]
        ensures { IfSome (⟦<MemoryStore as Store>⟧.state self.now).kept (λ kept. result.now ≡ (kept folder.now pool.now).base) }
    {
        match place_of(&self.places, folder, pool) {
            Some(at) => self.places[at].tables.base(),
            None => &[],
        }
    }

    /// How many entries came before the base that is kept of a folder and pool.
    pub fn count(&self, folder: &str, pool: &str) -> u64
        ensures { IfSome (⟦<MemoryStore as Store>⟧.state self.now).kept (λ kept. result ≡ (kept folder.now pool.now).count) }
    {
        match place_of(&self.places, folder, pool) {
            Some(at) => self.places[at].tables.count(),
            None => 0,
        }
    }

    /// The lines of the log that are kept of a folder and pool.
    pub fn lines(&self, folder: &str, pool: &str) -> &[Text]
        ensures { IfSome (⟦<MemoryStore as Store>⟧.state self.now).kept (λ kept. result.now ≡ (kept folder.now pool.now).lines) }
    {
        match place_of(&self.places, folder, pool) {
            Some(at) => self.places[at].tables.lines(),
            None => &[],
        }
    }

    /// Puts a text in the place of a line that is kept of a folder and pool, where there is one.
    pub fn replace_line(&mut self, folder: &str, pool: &str, at: usize, line: Text)
        ensures faults { (⟦<MemoryStore as Store>⟧.state self.new).faults ≡ (⟦<MemoryStore as Store>⟧.state self.old).faults }
        ensures places { (⟦<MemoryStore as Store>⟧.state self.new).places ≡ (⟦<MemoryStore as Store>⟧.state self.old).places }
        ensures kept { (⟦<MemoryStore as Store>⟧.state self.new).kept ≡ option_map (with_line folder.now pool.now at line) (⟦<MemoryStore as Store>⟧.state self.old).kept }
    {
        match place_of(&self.places, folder, pool) {
            Some(place) => self.places[place].tables.replace_line(at, line),
            None => {}
        }
    }
}

impl Store for MemoryStore {
    type Keeper = MemoryKeeper;

    ghost state = { λ s. record {
      kept = Some (tables_in s.places.items);
      places = Some (has_place s.places.items);
      faults = s.faults;
    } };

    fn attach(
        &mut self,
        alloc: Global,
        folder: &str,
        pool: &str,
    ) -> Result<MemoryKeeper, StartFault> {
        if is_failing(&mut self.calls, &self.fails) {
            self.faults = self.faults.saturating_add(1);
            return Err(StartFault::Failed);
        }
        let tables = self.take_tables(alloc, folder, pool)?;
        let fails = self.keeper_fails.pop().unwrap_or(Vec::new(alloc));
        Ok(MemoryKeeper::from_tables(alloc, tables, fails))
    }

    fn detach(&mut self, folder: &str, pool: &str, keeper: MemoryKeeper) {
        self.faults = faults_after(self.faults, keeper.faults());
        let _before = replace_tables(&mut self.places, folder, pool, keeper.into_tables());
    }
}
