//! The rows of a case.
ghost use Rattle.std.specs.Prelude.{◌≡◌, ◌∷◌, [], IfOk, IsTrue};
ghost use Rattle.swarm_model.specs.Settings.{are_settings, keeps_rules};
ghost use Rattle.pool_loading.specs.Records.{AreFilled};

use crate::batches::case::{Case, Opening, Row, Step};
use crate::batches::checking::{check_bytes, check_number, check_true};
use crate::fault::{Fault, fault_at};
use batch_plays::{BatchTurn, play_batch};
use dimensions::{Seq, TryCopy};
use server_calls::Told;
use std::alloc::Global;
use swarm_batch::{Batch, BatchFault, Marked, is_batch_name, progress_name, told_mark};
use swarm_machine::Pool;
use swarm_model::{Machine, PoolSettings, Reply, Settings, TaskState};
use swarm_policy::{SettingsFault, open_settings, read_settings};

fn bytes_of(text: &Option<Vec<u8>>) -> Option<&[u8]> {
    match text {
        Some(text) => Some(text.as_slice()),
        None => None,
    }
}

/// Reads a file and its progress.
fn open(alloc: Global, line: usize, opening: &Opening) -> Result<Result<Batch, BatchFault>, Fault> {
    let name = opening.name.as_str();
    if !is_batch_name(name.as_bytes()) {
        return Err(fault_at(
            line,
            String::from_str(alloc, "the name of a batch is wanted"),
        ));
    }
    let file = opening.file.as_slice();
    Ok(Batch::read(alloc, file, name, bytes_of(&opening.done)))
}

/// The fault that a file was refused.
fn refused_at(alloc: Global, line: usize, fault: &BatchFault) -> Fault {
    match fault {
        BatchFault::Memory => Fault::Memory,
        BatchFault::Broken { line: at, rule } => {
            let rule = rule.name();
            fault_at(line, format!(in alloc; "it is refused: {at} {rule}"))
        }
    }
}

fn check_broken(
    alloc: Global,
    line: usize,
    at: u32,
    rule: &str,
    read: Result<Batch, BatchFault>,
) -> Result<(), Fault> {
    match read {
        Ok(_) => Err(fault_at(line, String::from_str(alloc, "it is not refused"))),
        Err(BatchFault::Memory) => Err(Fault::Memory),
        Err(
            BatchFault::Broken {
                line: came,
                rule: broken,
            },
        ) => {
            check_number(alloc, line, u64::from(at), u64::from(came))?;
            check_bytes(alloc, line, rule.as_bytes(), broken.name().as_bytes())
        }
    }
}

/// Tells the line that comes next what its reply told.
fn tell(
    alloc: Global,
    line: usize,
    batch: &mut Batch,
    told: &Told,
    again: bool,
) -> Result<(), Fault> {
    if batch.next().is_none() || told_mark(told).is_none() {
        return Err(fault_at(line, String::from_str(alloc, "there is nothing to mark")));
    }
    let marked = batch.told(alloc, told)?;
    check_true(
        alloc,
        line,
        (marked == Marked::Again) == again,
        "the line is marked otherwise",
    )
}

#[tactic(auto, using(crate::proofs::NextLines::next_from, crate::proofs::NextLines::next_within))]
fn check_body(alloc: Global, line: usize, batch: &Batch, wanted: &[u8]) -> Result<(), Fault> {
    let Some(next) = batch.next() else {
        return Err(fault_at(line, String::from_str(alloc, "every line is done")));
    };
    let body = batch.body(alloc, next)?;
    check_bytes(alloc, line, wanted, body.as_slice())
}

fn check_name(
    alloc: Global,
    line: usize,
    name: &Option<Vec<u8>>,
    text: &[u8],
) -> Result<(), Fault> {
    match (name, progress_name(text)) {
        (Some(name), Some(came)) => check_bytes(alloc, line, name.as_slice(), came),
        (None, None) => Ok(()),
        _ => Err(fault_at(
            line,
            String::from_str(alloc, "it is otherwise with the name"),
        )),
    }
}

fn read_again(alloc: Global, line: usize, batch: &mut Batch, text: &[u8]) -> Result<(), Fault> {
    match batch.read_again(alloc, Some(text)) {
        Ok(()) => Ok(()),
        Err(fault) => Err(refused_at(alloc, line, &fault)),
    }
}

/// A row of a batch that was read.
fn check_batch(alloc: Global, row: &Row, batch: &mut Batch) -> Result<(), Fault> {
    let line = row.line;
    match &row.step {
        Step::Again(text) => read_again(alloc, line, batch, text.as_slice()),
        Step::Next(wanted) => check_number(
            alloc,
            line,
            u64::from(wanted.unwrap_or(0)),
            u64::from(batch.next().unwrap_or(0)),
        ),
        Step::Body(wanted) => check_body(alloc, line, batch, wanted.as_slice()),
        Step::Told { place, task } => {
            let told = Told::Good {
                place: *place,
                reply: Reply::New {
                    task: *task,
                    state: TaskState::Pending,
                },
                bytes: Seq::new(alloc),
            };
            tell(alloc, line, batch, &told, false)
        }
        Step::Refused { code, again } => {
            let told = Told::No {
                code: *code,
                body: Seq::new(alloc),
            };
            tell(alloc, line, batch, &told, *again)
        }
        Step::Progress(wanted) => {
            let came = batch.progress(alloc)?;
            check_bytes(alloc, line, wanted.as_slice(), came.as_bytes())
        }
        Step::Printed(wanted) => {
            let came = batch.marks_text(alloc)?;
            check_bytes(alloc, line, wanted.as_slice(), came.as_bytes())
        }
        _ => Ok(()),
    }
}

fn batch_at(alloc: Global, line: usize, batch: Option<Batch>) -> Result<Batch, Fault> {
    match batch {
        Some(batch) => Ok(batch),
        None => Err(fault_at(line, String::from_str(alloc, "no batch was read"))),
    }
}

fn play_turns<M: Machine + Drop>(
    alloc: Global,
    case: &Case,
    settings: &Settings,
    machine: M,
    batch: Batch,
    turns: &[BatchTurn],
) -> Result<(M, Option<Batch>), Fault>
    requires one { settings.now.pools ≡ (M.kept machine).pool.settings ∷ [] }
    requires filled { AreFilled (M.kept machine) }
    ensures one { IfOk result (λ left. settings.now.pools ≡ (M.kept left.0).pool.settings ∷ []) }
    ensures filled { IfOk result (λ left. AreFilled (M.kept left.0)) }
{
    match play_batch(alloc, settings, machine, batch, &case.who, turns) {
        Ok((machine, batch)) => Ok((machine, Some(batch))),
        Err(_) => Err(Fault::Memory),
    }
}

/// A row of a case over a machine and a batch.
fn play_row<M: Machine + Drop>(
    alloc: Global,
    case: &Case,
    settings: &Settings,
    machine: M,
    batch: Option<Batch>,
    row: &Row,
) -> Result<(M, Option<Batch>), Fault>
    requires one { settings.now.pools ≡ (M.kept machine).pool.settings ∷ [] }
    requires filled { AreFilled (M.kept machine) }
    ensures one { IfOk result (λ left. settings.now.pools ≡ (M.kept left.0).pool.settings ∷ []) }
    ensures filled { IfOk result (λ left. AreFilled (M.kept left.0)) }
{
    let line = row.line;
    match &row.step {
        Step::Read(opening) => match open(alloc, line, opening)? {
            Ok(batch) => Ok((machine, Some(batch))),
            Err(fault) => Err(refused_at(alloc, line, &fault)),
        },
        Step::Broken {
            opening,
            line: at,
            rule,
        } => {
            let read = open(alloc, line, opening)?;
            check_broken(alloc, line, *at, rule.as_str(), read)?;
            Ok((machine, batch))
        }
        Step::Name { name, may } => {
            let holds = is_batch_name(name.as_slice()) == *may;
            check_true(alloc, line, holds, "it is otherwise with the name")?;
            Ok((machine, batch))
        }
        Step::Names { name, text } => {
            check_name(alloc, line, name, text.as_slice())?;
            Ok((machine, batch))
        }
        Step::Log(count) => {
            check_number(alloc, line, *count, machine.length())?;
            Ok((machine, batch))
        }
        Step::Turns(turns) => {
            let batch = batch_at(alloc, line, batch)?;
            play_turns(alloc, case, settings, machine, batch, turns.as_slice())
        }
        _ => {
            let mut batch = batch_at(alloc, line, batch)?;
            check_batch(alloc, row, &mut batch)?;
            Ok((machine, Some(batch)))
        }
    }
}

fn settings_of(alloc: Global, case: &Case) -> Result<Settings, Fault>
    ensures { IfOk result (λ settings. IsTrue (are_settings settings)) }
{
    match &case.settings {
        None => Ok(open_settings(alloc)?),
        Some(text) => match read_settings(alloc, text.as_slice()) {
            Ok(settings) => Ok(settings),
            Err(SettingsFault::Memory) => Err(Fault::Memory),
            Err(SettingsFault::Broken { .. }) => Err(fault_at(
                case.line,
                String::from_str(alloc, "the settings are refused"),
            )),
        },
    }
}

/// The only pool of settings.
#[tactic(auto, using(crate::proofs::NewMachines::only_rules))]
fn only_pool(alloc: Global, line: usize, settings: &Settings) -> Result<PoolSettings, Fault>
    requires { IsTrue (are_settings settings.now) }
    ensures one { IfOk result (λ pool. settings.now.pools ≡ pool ∷ []) }
    ensures rules { IfOk result (λ pool. IsTrue (keeps_rules pool)) }
{
    match settings.pools.as_slice() {
        [pool] => Ok(pool.try_copy(alloc)?),
        _ => Err(fault_at(
            line,
            String::from_str(alloc, "settings of one pool are wanted"),
        )),
    }
}

/// A machine of a pool, without entries.
#[tactic(auto, using(crate::proofs::NewMachines::new_settings, crate::proofs::NewMachines::new_filled))]
fn new_machine<M: Machine>(alloc: Global, pool: PoolSettings) -> Result<M, Fault>
    requires { IsTrue (keeps_rules pool) }
    ensures settings { IfOk result (λ machine. (M.kept machine).pool.settings ≡ pool) }
    ensures filled { IfOk result (λ machine. AreFilled (M.kept machine)) }
{
    Ok(M::new(alloc, pool)?)
}

fn play_over<M: Machine + Drop>(
    alloc: Global,
    case: &Case,
    settings: &Settings,
    mut machine: M,
) -> Result<usize, Fault>
    requires one { settings.now.pools ≡ (M.kept machine).pool.settings ∷ [] }
    requires filled { AreFilled (M.kept machine) }
{
    let mut batch = None;
    for row in case.rows.iter() {
        let left = play_row(alloc, case, settings, machine, batch, row)?;
        machine = left.0;
        batch = left.1;
    }
    Ok(case.rows.len())
}

/// Plays a case, and answers how many rows it has.
pub(crate) fn play(alloc: Global, case: &Case) -> Result<usize, Fault> {
    let settings = settings_of(alloc, case)?;
    let pool = only_pool(alloc, case.line, &settings)?;
    let machine: Pool = new_machine(alloc, pool)?;
    play_over(alloc, case, &settings, machine)
}
