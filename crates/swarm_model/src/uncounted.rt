//! What a machine tells, where nobody counts the rows that are read.
ghost use Rattle.std.specs.Prelude.{◌≡◌, ◌≤◌, ◌<◌, ◌^◌, None, IfOk, IsTrue};
ghost use Rattle.std.specs.Option.{option_copied};
ghost use Rattle.swarm_model.specs.Answers.{answer};
ghost use Rattle.swarm_model.specs.Deadlines.{due_entry};
ghost use Rattle.swarm_model.specs.Finding.{task_of};
ghost use Rattle.swarm_model.specs.Fits.{fits};

use crate::{Answer, Entry, Machine, Request, Steps, TaskRow};
use dimensions::Text;
use std::alloc::AllocError;
use std::marker::Brand;
use std::sync::ledger::{Blank, Ledger};

fn due_by<M: Machine, L: Ledger>(machine: &M, moment: u64, pass: u32, blank: Blank) -> Option<Entry>
    requires name { blank.name ≡ L.name }
    requires parts { blank.parts ≡ L.parts }
    requires some { 0 < blank.parts }
    ensures { result ≡ due_entry (M.kept machine.now).pool moment pass }
{
    let mut steps = Steps::<L>::open(blank);
    machine.due(moment, pass, &mut steps)
}

/// The entry of the first deadline that has come by the moment.
pub fn due_uncounted<M: Machine>(machine: &M, moment: u64, pass: u32) -> Option<Entry>
    ensures { result ≡ due_entry (M.kept machine.now).pool moment pass }
{
    due_by::<M, Brand>(machine, moment, pass, Blank::new(1))
}

fn answer_by<M: Machine, L: Ledger>(
    machine: &M,
    who: &Text,
    moment: u64,
    pass: u32,
    request: &Request,
    blank: Blank,
) -> Result<Answer, AllocError>
    requires fits { IsTrue (fits (M.kept machine.now).pool.settings request.now) }
    requires not_before { (M.kept machine.now).pool.last ≤ moment }
    requires not_late { moment ≤ 2 ^ 40 }
    requires nothing_due { due_entry (M.kept machine.now).pool moment pass ≡ None }
    requires name { blank.name ≡ L.name }
    requires parts { blank.parts ≡ L.parts }
    requires some { 0 < blank.parts }
    ensures { IfOk result (λ a. a ≡ answer (M.kept machine.now).pool who.now moment pass request.now) }
{
    let mut steps = Steps::<L>::open(blank);
    machine.answer(who, moment, pass, request, &mut steps)
}

/// The answer to a request, where nothing is due.
///
/// # Errors
///
/// Want of memory.
pub fn answer_uncounted<M: Machine>(
    machine: &M,
    who: &Text,
    moment: u64,
    pass: u32,
    request: &Request,
) -> Result<Answer, AllocError>
    requires fits { IsTrue (fits (M.kept machine.now).pool.settings request.now) }
    requires not_before { (M.kept machine.now).pool.last ≤ moment }
    requires not_late { moment ≤ 2 ^ 40 }
    requires nothing_due { due_entry (M.kept machine.now).pool moment pass ≡ None }
    ensures { IfOk result (λ a. a ≡ answer (M.kept machine.now).pool who.now moment pass request.now) }
{
    answer_by::<M, Brand>(machine, who, moment, pass, request, Blank::new(1))
}

fn task_by<M: Machine, L: Ledger>(machine: &M, no: u32, blank: Blank) -> Option<&TaskRow>
    requires name { blank.name ≡ L.name }
    requires parts { blank.parts ≡ L.parts }
    requires some { 0 < blank.parts }
    ensures { option_copied result ≡ task_of (M.kept machine.now).pool no }
{
    let mut steps = Steps::<L>::open(blank);
    machine.task(no, &mut steps)
}

/// The row of a task, by its number.
pub fn task_uncounted<M: Machine>(machine: &M, no: u32) -> Option<&TaskRow>
    ensures { option_copied result ≡ task_of (M.kept machine.now).pool no }
{
    task_by::<M, Brand>(machine, no, Blank::new(1))
}
