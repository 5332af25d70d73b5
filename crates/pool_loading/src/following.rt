//! Whether a kept entry may follow a log.
ghost use Rattle.std.specs.Prelude.{◌≡◌, ◌≤◌, ◌^◌, None, Some, Decides, IfOk, IsTrue, IsSomeAnd, is_some, option_map};
ghost use Rattle.swarm_model.specs.Answers.{answer};
ghost use Rattle.swarm_model.specs.Deadlines.{due_entry};
ghost use Rattle.swarm_model.specs.Entries.{asks, is_deadline};
ghost use Rattle.swarm_model.specs.Fits.{fits};
ghost use Rattle.swarm_model.specs.History.{IsDue, IsAnswered, MayFollow};
ghost use Rattle.swarm_model.specs.declared.entry.Entry.{Entry};
ghost use Rattle.entry_lines.specs.Lines.{entry_of_line};
ghost use Rattle.pool_loading.specs.Asking.{as_asked};

use crate::asking::{EntryRequest, asked};
use entry_lines::is_line_of;
use request_fits::fits;
use std::alloc::{AllocError, Global};
use swarm_model::{Entry, EntryKind, Machine, PoolSettings, answer_uncounted, due_uncounted};

/// The greatest moment of an entry.
const MOST_MOMENT: u64 = 1 << 40;

/// Whether the entry is that of a deadline.
fn is_deadline(kind: &EntryKind) -> bool
    ensures { result ≡ is_deadline kind.now }
{
    match kind {
        EntryKind::Slice { .. }
        | EntryKind::Silence { .. }
        | EntryKind::Dead { .. }
        | EntryKind::Blob { .. } => true,
        _ => false,
    }
}

/// Whether there is an entry, and the line is its own.
fn is_on_line(alloc: Global, found: &Option<Entry>, line: &str) -> Result<bool, AllocError>
    ensures { IfOk result (λ b. (e : Entry) → entry_of_line line.now ≡ Some e → Decides b (found.now ≡ Some e)) }
{
    match found {
        None => Ok(false),
        Some(entry) => is_line_of(alloc, entry, line),
    }
}

/// Whether the entry of the line is that of the first deadline that has come at its moment.
fn is_due<M: Machine>(
    alloc: Global,
    machine: &M,
    entry: &Entry,
    line: &str,
) -> Result<bool, AllocError>
    requires { entry_of_line line.now ≡ Some entry.now }
    ensures { IfOk result (λ b. Decides b (IsDue (M.kept machine.now).pool entry.now)) }
{
    let due = due_uncounted(machine, entry.moment, entry.pass);
    is_on_line(alloc, &due, line)
}

/// Whether the answer to the request adds the entry of the line.
fn is_added<M: Machine>(
    alloc: Global,
    machine: &M,
    entry: &Entry,
    line: &str,
    asked: &EntryRequest,
) -> Result<bool, AllocError>
    requires reads { entry_of_line line.now ≡ Some entry.now }
    requires fits { IsTrue (fits (M.kept machine.now).pool.settings asked.now.request) }
    requires not_before { (M.kept machine.now).pool.last ≤ entry.now.moment }
    requires not_late { entry.now.moment ≤ 2 ^ 40 }
    requires nothing_due { due_entry (M.kept machine.now).pool entry.now.moment entry.now.pass ≡ None }
    ensures { IfOk result (λ b. Decides b ((answer (M.kept machine.now).pool asked.now.caller entry.now.moment entry.now.pass asked.now.request).entry ≡ Some entry.now)) }
{
    let answer = answer_uncounted(
        machine,
        &asked.caller,
        entry.moment,
        entry.pass,
        &asked.request,
    )?;
    is_on_line(alloc, &answer.entry, line)
}

fn is_any_due<M: Machine>(machine: &M, moment: u64, pass: u32) -> bool
    ensures { result ≡ is_some (due_entry (M.kept machine.now).pool moment pass) }
{
    let due = due_uncounted(machine, moment, pass);
    due.is_some()
}

/// Whether nothing is due, the request may be asked, and its answer adds the entry of the line.
fn is_answered<M: Machine>(
    alloc: Global,
    machine: &M,
    settings: &PoolSettings,
    entry: &Entry,
    line: &str,
    asked: &EntryRequest,
) -> Result<bool, AllocError>
    requires reads { entry_of_line line.now ≡ Some entry.now }
    requires settings { settings.now ≡ (M.kept machine.now).pool.settings }
    requires not_before { (M.kept machine.now).pool.last ≤ entry.now.moment }
    requires not_late { entry.now.moment ≤ 2 ^ 40 }
    ensures { IfOk result (λ b. Decides b (IsAnswered (M.kept machine.now).pool entry.now (as_asked asked.now))) }
{
    if is_any_due(machine, entry.moment, entry.pass) {
        return Ok(false);
    }
    if !fits(settings, &asked.request) {
        return Ok(false);
    }
    is_added(alloc, machine, entry, line, asked)
}

/// The same of the request for which the entry stands.
fn is_asked<M: Machine>(
    alloc: Global,
    machine: &M,
    settings: &PoolSettings,
    entry: &Entry,
    line: &str,
    asked: &Option<EntryRequest>,
) -> Result<bool, AllocError>
    requires reads { entry_of_line line.now ≡ Some entry.now }
    requires settings { settings.now ≡ (M.kept machine.now).pool.settings }
    requires not_before { (M.kept machine.now).pool.last ≤ entry.now.moment }
    requires not_late { entry.now.moment ≤ 2 ^ 40 }
    requires asked { option_map as_asked asked.now ≡ asks (M.kept machine.now).pool entry.now.kind }
    ensures { IfOk result (λ b. Decides b (IsSomeAnd (asks (M.kept machine.now).pool entry.now.kind) (IsAnswered (M.kept machine.now).pool entry.now))) }
{
    match asked {
        Some(asked) => is_answered(alloc, machine, settings, entry, line, asked),
        None => Ok(false),
    }
}

/// Whether the entry of the line may follow the log: what is due or asked at its moment gives this
/// very entry.
pub(crate) fn may_follow<M: Machine>(
    alloc: Global,
    machine: &M,
    settings: &PoolSettings,
    entry: &Entry,
    line: &str,
) -> Result<bool, AllocError>
    requires reads { entry_of_line line.now ≡ Some entry.now }
    requires settings { settings.now ≡ (M.kept machine.now).pool.settings }
    ensures { IfOk result (λ b. Decides b (MayFollow (M.kept machine.now).pool entry.now)) }
{
    if entry.moment < machine.last() {
        return Ok(false);
    }
    if entry.moment > MOST_MOMENT {
        return Ok(false);
    }
    if is_deadline(&entry.kind) {
        is_due(alloc, machine, entry, line)
    } else {
        let asked = asked(alloc, machine, &entry.kind)?;
        is_asked(alloc, machine, settings, entry, line, &asked)
    }
}
