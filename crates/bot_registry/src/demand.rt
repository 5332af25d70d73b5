//! The sets of dimensions that tasks ask for, each with the number of fit bots that match it.
ghost use Rattle.std.specs.Prelude.{◌≡◌, ◌≤◌, ◌<◌, ◌^◌, ℕ, true, [], map, length, MatchOption, ⊤, unwrap_or};
ghost use Rattle.std.specs.List.{All, find, list_any, count_by};
ghost use Rattle.std.specs.Option.{option_copied};
ghost use Rattle.swarm_model.specs.Numbers.{AreNumbered};
ghost use Rattle.swarm_model.specs.Slices.{could_run};
ghost use Rattle.swarm_model.specs.Effects.{no_of_bot};
ghost use Rattle.dimensions.specs.declared.dim_set.DimSet.{DimSet};
ghost use Rattle.row_changes.specs.Bots.{silent_bot_if, bots_after};
ghost use Rattle.bot_registry.specs.Acting.{row_of};
ghost use Rattle.bot_registry.specs.Demands.{IsCounted, has_dims, recounted, CanRecount, bot_of_entry, row_of_entry, KeepsDims, MayInclude, IsCountedWith, IsCountedBut, AreFew, AreCounted, AreCountedBut};

use dimensions::{BotDims, DimSet, TryCopy};
use row_changes::{is_capable, row_of};
use std::alloc::{AllocError, Global};
use std::mem;
use swarm_model::{BotRow, EntryKind};

/// How many sets are known at most, so that an entry's pass over them stays short. One more takes
/// the place of the next in turn.
const MOST_SETS: usize = 1024;

/// A set of dimensions, and how many bots are fit and match it.
#[derive(Drop)]
pub(crate) struct Demand {
    dims: DimSet,
    count: u32,
}

/// How many of the bots are fit and match the dimensions.
fn capable_count(rows: &[BotRow], dims: &DimSet) -> u32
    requires { length rows.now < 2 ^ 32 }
    ensures { result ≡ count_by (could_run dims.now) rows.now }
{
    let mut count = 0;
    for bot in rows {
        if bot.could_run(dims) {
            count += 1;
        }
    }
    count
}

/// The set with these dimensions, where it is known.
fn known_set<'a>(demands: &'a [Demand], dims: &DimSet) -> Option<&'a Demand>
    ensures { option_copied result ≡ find (has_dims dims.now) demands.now }
{
    demands.iter().find(|demand| demand.dims == *dims)
}

/// A bot of these dimensions, where it matches the set, is one more of those that it counts, or one
/// less.
fn recount_one(demand: &mut Demand, dims: &BotDims, more: bool)
    requires { CanRecount dims.now more demand.old }
    ensures { demand.new ≡ recounted dims.now more demand.old }
{
    if demand.dims.matches(dims) {
        if more {
            demand.count += 1;
        } else {
            demand.count -= 1;
        }
    }
}

/// A bot of these dimensions is one more of those that the sets it matches count, or one less.
fn recount(demands: &mut [Demand], dims: &BotDims, more: bool)
    requires { All (CanRecount dims.now more) demands.old }
    ensures { demands.new ≡ map (recounted dims.now more) demands.old }
{
    for demand in demands.iter_mut() {
        recount_one(demand, dims, more);
    }
}

/// The number of the bot that an entry names. An entry changes the row of no other, but that of a
/// silent run, which names the task.
fn bot_of_entry(kind: &EntryKind) -> Option<u32>
    ensures { result ≡ bot_of_entry kind.now }
{
    match kind {
        EntryKind::Dead { b }
        | EntryKind::Handshake { b, .. }
        | EntryKind::Poll { b, .. }
        | EntryKind::Claim { b, .. }
        | EntryKind::Contact { b }
        | EntryKind::Event { b, .. }
        | EntryKind::Update { b, .. }
        | EntryKind::Terminate { b } => Some(*b),
        _ => None,
    }
}

/// Whether the bot has these dimensions, or none are named.
fn is_none_or_same(dims: &Option<BotDims>, bot: &BotRow) -> bool
    ensures { result ≡ true → unwrap_or dims.now bot.now.dims ≡ bot.now.dims }
{
    match dims {
        Some(dims) => *dims == bot.dims,
        None => true,
    }
}

/// Whether the bot is known to have the same dimensions after the entry.
fn keeps_dims(kind: &EntryKind, bot: &BotRow) -> bool
    ensures { result ≡ true → KeepsDims kind.now bot.now }
{
    match kind {
        EntryKind::Handshake { dims, .. } => *dims == bot.dims,
        EntryKind::Poll { dims, .. } => is_none_or_same(dims, bot),
        _ => true,
    }
}

/// Takes the bot of a number out of the counts where its dimensions change. Whether it is still
/// included.
fn remove_one(demands: &mut [Demand], rows: &[BotRow], number: u32, kind: &EntryKind) -> bool
    requires numbered { AreNumbered no_of_bot 1 rows.now }
    requires counted { All (IsCounted rows.now) demands.old }
    ensures counted { All (IsCountedBut rows.now (row_of rows.now number) result) demands.new }
    ensures kept { result ≡ true → MatchOption (row_of rows.now number) ⊥ (KeepsDims kind.now) }
{
    match row_of(rows, number) {
        None => false,
        Some(bot) => {
            let fit = bot.is_fit();
            if fit && !keeps_dims(kind, bot) {
                recount(demands, &bot.dims, false);
                return false;
            }
            fit
        }
    }
}

/// Counts the bot of a number as it is now. It may be included as a fit bot of these dimensions.
fn count_one(demands: &mut [Demand], rows: &[BotRow], number: u32, included: bool)
    requires few { length rows.now < 2 ^ 32 }
    requires numbered { AreNumbered no_of_bot 1 rows.now }
    requires counted { All (IsCountedBut rows.now (row_of rows.now number) included) demands.old }
    ensures { All (IsCounted rows.now) demands.new }
{
    if let Some(bot) = row_of(rows, number) {
        if bot.is_fit() != included {
            recount(demands, &bot.dims, !included);
        }
    }
}

/// Takes a bot out of the counts where it runs the task.
fn remove_runner(demands: &mut [Demand], bot: &BotRow, task: u32)
    requires { All (MayInclude bot.now) demands.old }
    ensures { (others : DimSet → ℕ) → All (IsCountedWith others bot.now) demands.old → All (IsCountedWith others (silent_bot_if task bot.now)) demands.new }
{
    if bot.runs_task(task) && bot.is_fit() {
        recount(demands, &bot.dims, false);
    }
}

/// Takes the bots that run the task out of the counts.
fn remove_runners(demands: &mut [Demand], rows: &[BotRow], task: u32)
    requires { All (IsCounted rows.now) demands.old }
    ensures { All (IsCounted (map (silent_bot_if task) rows.now)) demands.new }
{
    for bot in rows {
        remove_runner(demands, bot, task);
    }
}

/// The sets that are known.
#[derive(Drop)]
pub(crate) struct Demands {
    sets: Vec<Demand>,
    /// The place of the set that comes next.
    next: usize,
}

impl Demands {
    /// No set yet. It takes no memory.
    pub(crate) fn new(alloc: Global) -> Demands
        ensures few { AreFew result }
        ensures none { result.sets.items ≡ [] }
    {
        Demands {
            sets: Vec::new(alloc),
            next: 0,
        }
    }

    /// Whether some fit bot has the dimensions. For a set that is known its count tells, for any
    /// other the rows do.
    pub(crate) fn is_capable(&self, rows: &[BotRow], dims: &DimSet) -> bool
        requires { AreCounted rows.now self.now }
        ensures { result ≡ list_any (could_run dims.now) rows.now }
    {
        match known_set(&self.sets, dims) {
            Some(demand) => demand.count > 0,
            None => is_capable(rows, dims),
        }
    }

    /// Puts a set behind the others, or in the place of the next one where no more are known.
    fn put(&mut self, demand: Demand) -> Result<(), AllocError>
        requires { AreFew self.old }
        ensures few { AreFew self.new }
        ensures counted { (rows : _) → All (IsCounted rows) self.old.sets.items → IsCounted rows demand → All (IsCounted rows) self.new.sets.items }
    {
        if self.next < self.sets.len() {
            drop(mem::replace(&mut self.sets[self.next], demand));
        } else {
            self.sets.push(demand)?;
        }
        self.next = (self.next + 1) % MOST_SETS;
        Ok(())
    }

    /// Adds a set, where it isn't known, with the number of its bots.
    fn add_set(&mut self, alloc: Global, rows: &[BotRow], dims: &DimSet) -> Result<(), AllocError>
        requires few { length rows.now < 2 ^ 32 }
        requires known { AreCounted rows.now self.old }
        ensures { AreCounted rows.now self.new }
    {
        if known_set(&self.sets, dims).is_some() {
            return Ok(());
        }
        let demand = Demand {
            dims: dims.try_copy(alloc)?,
            count: capable_count(rows, dims),
        };
        self.put(demand)
    }

    /// Adds the sets that a new task asks for, with the numbers of their bots. Each set is compared
    /// with all that are known, and one that isn't known costs a pass over the rows.
    pub(crate) fn add_sets(
        &mut self,
        alloc: Global,
        rows: &[BotRow],
        kind: &EntryKind,
    ) -> Result<(), AllocError>
        requires few { length rows.now < 2 ^ 32 }
        requires known { AreCounted rows.now self.old }
        ensures { AreCounted rows.now self.new }
    {
        if let EntryKind::New { request, .. } = kind {
            for slice in request.task_slices.as_slice() {
                self.add_set(alloc, rows, &slice.properties.dimensions)?;
            }
        }
        Ok(())
    }

    /// Before an entry: takes the bot that it names out of the counts where its dimensions change,
    /// and the bot of a silent run. Whether the bot that it names is still included.
    pub(crate) fn remove_changing(&mut self, rows: &[BotRow], kind: &EntryKind) -> bool
        requires numbered { AreNumbered no_of_bot 1 rows.now }
        requires known { AreCounted rows.now self.old }
        ensures { (moment : ℕ) → AreCountedBut (bots_after moment kind.now rows.now) (row_of_entry kind.now (bots_after moment kind.now rows.now)) result self.new }
    {
        if let EntryKind::Silence { t } = kind {
            remove_runners(&mut self.sets, rows, *t);
            return false;
        }
        match bot_of_entry(kind) {
            None => false,
            Some(number) => remove_one(&mut self.sets, rows, number, kind),
        }
    }

    /// After the entry: counts the bot that it names as it is now.
    pub(crate) fn count_changed(&mut self, rows: &[BotRow], kind: &EntryKind, included: bool)
        requires few { length rows.now < 2 ^ 32 }
        requires numbered { AreNumbered no_of_bot 1 rows.now }
        requires known { AreCountedBut rows.now (row_of_entry kind.now rows.now) included self.old }
        ensures { AreCounted rows.now self.new }
    {
        match bot_of_entry(kind) {
            None => {}
            Some(number) => count_one(&mut self.sets, rows, number, included),
        }
    }
}
