ghost use Rattle.std.specs.Prelude.{◌≡◌, ◌≤◌, List, [], ◌∷◌, ◌++◌, length, drop, option_map, Some, if◌then◌else◌};
ghost use Rattle.sw_base.specs.Faults.{Rose};
ghost use Rattle.runners.specs.declared.answer.RunnerAnswer.{RunnerAnswer};
ghost use Rattle.runners.specs.declared.answer.RunnerAnswer.TheVariants as answer;
ghost use Rattle.runners.specs.Answers.{first_taken, as_answer, as_done, as_file, next_output};
ghost use Rattle.runners.specs.InMemory.{with_output, unless_output, file_answer};
ghost use Rattle.runners.specs.Calls.{look_answer, FitsRoom, Performs};

use crate::copying::{copy_inputs, copy_list};
use crate::{CachePath, CollectFault, Look, PreparedCache, Runner, RunnerAnswer, RunnerCall};
use bot_core::Signal;
use dimensions::{Seq, Text, TryCopy};
use std::alloc::Global;
use std::collections::VecDeque;
use sw_base::{Failed, StartFault};

/// A runner in memory, which tells all: its children do what its answers say.
#[derive(Drop)]
pub struct MemoryRunner {
    alloc: Global,
    calls: Vec<RunnerCall>,
    answers: VecDeque<RunnerAnswer>,
    // The output that is being shown, and how much of it was.
    output: Vec<u8>,
    at: usize,
    faults: u64,
    ghost within: { at ≤ length output.items },
}

impl MemoryRunner {
    /// A runner on which no call was made. Its answers are taken from the first on.
    pub fn new(alloc: Global, answers: VecDeque<RunnerAnswer>) -> MemoryRunner
        ensures { ⟦<MemoryRunner as Runner>⟧.state result ≡ record { calls = Some []; answers = Some answers.items; faults = 0 } }
    {
        MemoryRunner {
            alloc,
            calls: Vec::new(alloc),
            answers,
            output: Vec::new(alloc),
            at: 0,
            faults: 0,
        }
    }

    /// The calls made so far, in their order.
    pub fn calls(&self) -> &[RunnerCall]
        ensures { (⟦<MemoryRunner as Runner>⟧.state self.now).calls ≡ Some result.now }
    {
        &self.calls
    }

    /// How many answers are left, among them one of whose output a part was shown.
    #[tactic(auto, using(crate::proofs::Taking::count_left))]
    pub fn answers_left(&self) -> usize
        ensures { option_map length (⟦<MemoryRunner as Runner>⟧.state self.now).answers ≡ Some result }
    {
        if self.at < self.output.len() {
            self.answers.len() + 1
        } else {
            self.answers.len()
        }
    }

    /// A call that answers nothing more, and does what the next answer says.
    fn perform(&mut self, call: RunnerCall) -> Result<(), StartFault>
        requires plain { (a : RunnerAnswer) (rest : List RunnerAnswer) → as_answer call a rest ≡ as_done a rest }
        ensures { Performs result (⟦<MemoryRunner as Runner>⟧.state self.old) (⟦<MemoryRunner as Runner>⟧.state self.new) call }
    {
        if !push_call(&mut self.calls, call) {
            return Err(StartFault::Memory);
        }
        if take_done(&self.output, &mut self.at, &mut self.answers) {
            Ok(())
        } else {
            count_fault(&mut self.faults);
            Err(StartFault::Failed)
        }
    }
}

fn count_fault(faults: &mut u64)
    ensures { Rose faults.old faults.new }
{
    *faults = faults.saturating_add(1);
}

/// Adds a call, the last one: false where there is no memory for it.
fn push_call(calls: &mut Vec<RunnerCall>, call: RunnerCall) -> bool
    ensures { calls.new.items ≡ (if result then calls.old.items ++ call ∷ [] else calls.old.items) }
{
    calls.push(call).is_ok()
}

/// The next answer, to another call than a look.
fn next_answer(output: &[u8], at: &mut usize, answers: &mut VecDeque<RunnerAnswer>) -> RunnerAnswer
    requires { at.old ≤ length output.now }
    ensures taken { first_taken unless_output (with_output (drop at.old output.now) answers.old.items) ≡ (result, answers.new.items) }
    ensures done { at.new ≡ length output.now }
{
    if *at < output.len() {
        *at = output.len();
        return RunnerAnswer::Failure;
    }
    match answers.pop_front() {
        None | Some(RunnerAnswer::Output { .. }) => RunnerAnswer::Failure,
        Some(answer) => answer,
    }
}

/// Takes the next answer, to a call that answers nothing more: true where it is success.
#[tactic(auto, using(crate::proofs::Taking::taken_as_done))]
fn take_done(output: &[u8], at: &mut usize, answers: &mut VecDeque<RunnerAnswer>) -> bool
    requires { at.old ≤ length output.now }
    ensures taken { first_taken as_done (with_output (drop at.old output.now) answers.old.items) ≡ ((if result then answer.Done else answer.Failure), answers.new.items) }
    ensures done { at.new ≡ length output.now }
{
    match next_answer(output, at, answers) {
        RunnerAnswer::Done => true,
        _ => false,
    }
}

/// What `collect` finds by the next answer: none where that is a failure.
#[tactic(auto, using(crate::proofs::Taking::taken_as_file))]
fn next_file(
    output: &[u8],
    at: &mut usize,
    answers: &mut VecDeque<RunnerAnswer>,
) -> Option<Option<Seq<u8>>>
    requires { at.old ≤ length output.now }
    ensures taken { first_taken as_file (with_output (drop at.old output.now) answers.old.items) ≡ (file_answer result, answers.new.items) }
    ensures done { at.new ≡ length output.now }
{
    match next_answer(output, at, answers) {
        RunnerAnswer::File { bytes } => Some(Some(bytes)),
        RunnerAnswer::NoFile => Some(None),
        _ => None,
    }
}

/// Shows what is left of an output, as far as there is room.
fn show(output: &[u8], at: &mut usize, into: &mut [u8]) -> Look
    requires { at.old ≤ length output.now }
    ensures fits { FitsRoom result (length into.new) }
    ensures same { length into.new ≡ length into.old }
    ensures place { at.new ≤ length output.now }
    ensures shown { (rest : _) → next_output (length into.old) (drop at.old output.now) rest ≡ (look_answer result into.new, with_output (drop at.new output.now) rest) }
{
    let rest = &output[*at..];
    let n = rest.len().min(into.len());
    if n == 0 {
        return Look::Quiet;
    }
    into[..n].copy_from_slice(&rest[..n]);
    *at += n;
    Look::Output(n)
}

impl Runner for MemoryRunner {
    ghost state = { λ m. record {
      calls = Some m.calls.items;
      answers = Some (with_output (drop m.at m.output.items) m.answers.items);
      faults = m.faults;
    } };

    fn open(&mut self, bot: &Text) -> Result<(), StartFault> {
        let bot = bot.try_copy(self.alloc)?;
        self.perform(RunnerCall::Open { bot })
    }

    fn prepare(
        &mut self,
        run: &Text,
        inputs: &[(Text, Seq<u8>)],
        caches: &[PreparedCache],
    ) -> Result<(), StartFault> {
        let call = RunnerCall::Prepare {
            run: run.try_copy(self.alloc)?,
            inputs: copy_inputs(self.alloc, inputs)?,
            caches: copy_list(self.alloc, caches)?,
        };
        self.perform(call)
    }

    fn start(&mut self, command: &[Text], env: &[(Text, Text)]) -> Result<(), StartFault> {
        let call = RunnerCall::Start {
            command: copy_list(self.alloc, command)?,
            env: copy_list(self.alloc, env)?,
        };
        self.perform(call)
    }

    fn look(&mut self, into: &mut [u8]) -> Result<Look, Failed> {
        let call = RunnerCall::Look { room: into.len() };
        if !push_call(&mut self.calls, call) {
            count_fault(&mut self.faults);
            return Err(Failed);
        }
        if self.at == self.output.len() {
            match self.answers.pop_front() {
                Some(RunnerAnswer::Output { bytes }) => {
                    self.output = bytes.into_vec();
                    self.at = 0;
                }
                Some(RunnerAnswer::Quiet) => return Ok(Look::Quiet),
                Some(RunnerAnswer::Ended { code }) => return Ok(Look::Ended(code)),
                _ => {
                    count_fault(&mut self.faults);
                    return Err(Failed);
                }
            }
        }
        Ok(show(&self.output, &mut self.at, into))
    }

    fn signal(&mut self, signal: Signal) -> Result<(), Failed> {
        if !push_call(&mut self.calls, RunnerCall::Signal { signal }) {
            count_fault(&mut self.faults);
            return Err(Failed);
        }
        if take_done(&self.output, &mut self.at, &mut self.answers) {
            Ok(())
        } else {
            count_fault(&mut self.faults);
            Err(Failed)
        }
    }

    fn collect(&mut self, path: &Text, most: u64) -> Result<Option<Seq<u8>>, CollectFault> {
        let call = RunnerCall::Collect {
            path: path.try_copy(self.alloc)?,
            most,
        };
        if !push_call(&mut self.calls, call) {
            return Err(CollectFault::Memory);
        }
        match next_file(&self.output, &mut self.at, &mut self.answers) {
            Some(Some(bytes)) => {
                if bytes.as_slice().len() as u64 <= most {
                    Ok(Some(bytes))
                } else {
                    Err(CollectFault::TooLong)
                }
            }
            Some(None) => Ok(None),
            None => {
                count_fault(&mut self.faults);
                Err(CollectFault::Failed)
            }
        }
    }

    #[tactic(auto, using(crate::proofs::Taking::taken_as_sizes))]
    fn clean(&mut self, caches: &[CachePath]) -> Result<Seq<u64>, StartFault> {
        let call = RunnerCall::Clean {
            caches: copy_list(self.alloc, caches)?,
        };
        if !push_call(&mut self.calls, call) {
            return Err(StartFault::Memory);
        }
        if let RunnerAnswer::Cleaned { sizes } = next_answer(
            &self.output,
            &mut self.at,
            &mut self.answers,
        ) {
            if sizes.as_slice().len() == caches.len() {
                return Ok(sizes);
            }
            count_fault(&mut self.faults);
            return Err(StartFault::Failed);
        }
        count_fault(&mut self.faults);
        Err(StartFault::Failed)
    }

    fn keep(&mut self, names: &[Text]) -> Result<(), StartFault> {
        let names = copy_list(self.alloc, names)?;
        self.perform(RunnerCall::Keep { names })
    }
}
