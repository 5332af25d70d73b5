//! What an entry does to the row of one task, and the row that it adds.
ghost use Rattle.std.specs.Prelude.{◌≡◌, ◌≤◌, [], length};
ghost use Rattle.std.specs.Option.{option_map};
ghost use Rattle.swarm_model.specs.Effects.{end_at, new_row, expired_slice, end_state, retried_from, retried_run, died_run, lost_run, started_run, reported, with_last_report, ended_run};

use crate::{Change, Row, is_tried_again};
use dimensions::Text;
use reserved_vec::ReservedVec;
use std::mem;
use swarm_model::{
    Attempt, Chunk, Last, MaybeRetried, Outcome, Retried, RetriedRoom, TaskRow, TaskState,
};
use task_props::SharedTask;

impl Row for TaskRow {
    ghost use Rattle.swarm_model.specs.Effects.{no_of_task};

    ghost no = { no_of_task };

    fn no(&self) -> u32 {
        self.no
    }
}

fn end_at(state: TaskState, moment: u64) -> Option<u64>
    ensures { result ≡ end_at state moment }
{
    match state {
        TaskState::Pending => None,
        _ => Some(moment),
    }
}

/// The row of a task that is accepted in a state, at a slice.
pub fn new_row(
    moment: u64,
    no: u32,
    creator: Text,
    request: SharedTask,
    state: TaskState,
    slice: u32,
    source: Option<u32>,
) -> TaskRow
    ensures { result ≡ new_row moment no creator request state slice source }
{
    TaskRow {
        no,
        creator,
        request,
        created: moment,
        state,
        slice,
        since: moment,
        attempt: None,
        retried: MaybeRetried::none(),
        source,
        ended: end_at(state, moment),
    }
}

/// The task comes to another slice, or ends at its last one.
fn move_on(task: &mut TaskRow, moment: u64, to: Outcome)
    requires { length task.old.request.task_slices ≤ 8 }
    ensures { task.new ≡ expired_slice moment to task.old }
{
    match to {
        Outcome::Slice(place) => {
            task.slice = place;
            task.since = moment;
        }
        Outcome::Ended(state) => {
            let count = task.request.task_slices.as_slice().len();
            task.state = state;
            task.slice = count.saturating_sub(1) as u32;
            task.ended = Some(moment);
        }
    }
}

/// The slice of a task ran out at a moment.
#[derive(Drop)]
pub struct ExpireSlice {
    pub moment: u64,
    pub to: Outcome,
}

impl Change<TaskRow> for ExpireSlice {
    ghost use Rattle.std.specs.Prelude.{◌≤◌, length};
    ghost use Rattle.swarm_model.specs.Effects.{expired_slice};

    ghost change = { λ c. expired_slice c.moment c.to };

    ghost fits = { λ task. length task.request.task_slices ≤ 8 };

    fn apply(self, row: &mut TaskRow) {
        move_on(row, self.moment, self.to);
    }
}

/// The state in which a run ends: killed, where it was asked to stop.
fn end_state(attempt: &Option<Attempt>, state: TaskState) -> TaskState
    ensures { result ≡ end_state attempt.now state }
{
    match attempt {
        None => state,
        Some(attempt) => {
            if attempt.kill {
                TaskState::Killed
            } else {
                state
            }
        }
    }
}

/// The run, kept in room that was made before.
fn kept_run(attempt: Option<Attempt>, slice: u32, over: u64, room: RetriedRoom) -> MaybeRetried
    ensures { result ≡ option_map (retried_from over slice) attempt }
{
    match attempt {
        None => {
            drop(room);
            MaybeRetried::none()
        }
        Some(attempt) => room.keep(Retried {
            attempt,
            slice,
            over,
        }),
    }
}

/// The task waits again, at the same slice, and its run is kept beside it.
fn try_again(task: &mut TaskRow, moment: u64, room: RetriedRoom)
    ensures { task.new ≡ retried_run moment task.old }
{
    task.state = TaskState::Pending;
    task.since = moment;
    let attempt = task.attempt.take();
    let retried = kept_run(attempt, task.slice, moment, room);
    drop(mem::replace(&mut task.retried, retried));
}

/// The run ends for good.
fn die(task: &mut TaskRow, moment: u64)
    ensures { task.new ≡ died_run moment task.old }
{
    task.state = end_state(&task.attempt, TaskState::BotDied);
    task.ended = Some(moment);
}

fn lose(task: &mut TaskRow, retries: u32, moment: u64, room: RetriedRoom)
    ensures { task.new ≡ lost_run retries moment task.old }
{
    if is_tried_again(retries, task) {
        try_again(task, moment, room);
    } else {
        drop(room);
        die(task, moment);
    }
}

/// The run of a task ends without a last update. It is tried again where the pool retries.
#[derive(Drop)]
pub struct LoseRun {
    pub moment: u64,
    /// How often the pool tries a run again that is lost.
    pub retries: u32,
    /// Where the run is kept, if it is tried again.
    pub room: RetriedRoom,
}

impl Change<TaskRow> for LoseRun {
    ghost use Rattle.std.specs.Prelude.{⊤};
    ghost use Rattle.swarm_model.specs.Effects.{lost_run};

    ghost change = { λ c. lost_run c.retries c.moment };

    ghost fits = { λ task. ⊤ };

    fn apply(self, row: &mut TaskRow) {
        let LoseRun {
            moment,
            retries,
            room,
        } = self;
        lose(row, retries, moment, room);
    }
}

/// A bot begins the task, with a text and an empty list that were made before.
fn begin(task: &mut TaskRow, moment: u64, bot: u32, claim: Text, chunks: ReservedVec<Chunk>)
    requires { chunks ≡ [] }
    ensures { task.new ≡ started_run moment bot claim task.old }
{
    let try_no = task.next_try();
    task.state = TaskState::Running;
    drop(mem::replace(
        &mut task.attempt,
        Some(Attempt {
            try_no,
            bot,
            claim,
            begun: moment,
            kill: false,
            chunks,
            length: 0,
            last: None,
            last_chunk: None,
        }),
    ));
}

/// A bot begins a task under the id of its claim.
#[derive(Drop)]
pub struct StartRun {
    pub moment: u64,
    pub bot: u32,
    pub claim: Text,
    pub chunks: ReservedVec<Chunk>,
    ghost empty: { chunks ≡ [] },
}

impl Change<TaskRow> for StartRun {
    ghost use Rattle.std.specs.Prelude.{⊤};
    ghost use Rattle.swarm_model.specs.Effects.{started_run};

    ghost change = { λ c. started_run c.moment c.bot c.claim };

    ghost fits = { λ task. ⊤ };

    fn apply(self, row: &mut TaskRow) {
        let StartRun {
            moment,
            bot,
            claim,
            chunks,
        } = self;
        begin(row, moment, bot, claim, chunks);
    }
}

/// A task that waits is canceled.
#[derive(Drop)]
pub struct Cancel {
    pub moment: u64,
}

impl Change<TaskRow> for Cancel {
    ghost use Rattle.std.specs.Prelude.{⊤};
    ghost use Rattle.swarm_model.specs.Effects.{canceled};

    ghost change = { λ c. canceled c.moment };

    ghost fits = { λ task. ⊤ };

    fn apply(self, row: &mut TaskRow) {
        row.state = TaskState::Canceled;
        row.ended = Some(self.moment);
    }
}

/// The run of a task is asked to stop.
#[derive(Drop)]
pub struct MarkKill;

impl Change<TaskRow> for MarkKill {
    ghost use Rattle.std.specs.Prelude.{⊤};
    ghost use Rattle.swarm_model.specs.Effects.{kill_marked};

    ghost change = { λ c. kill_marked };

    ghost fits = { λ task. ⊤ };

    fn apply(self, row: &mut TaskRow) {
        if let Some(attempt) = &mut row.attempt {
            attempt.kill = true;
        }
    }
}

/// The state that a last report tells.
fn reported(last: &Last) -> TaskState
    ensures { result ≡ reported last.now }
{
    if last.hard_timeout || last.io_timeout {
        TaskState::TimedOut
    } else {
        TaskState::Completed
    }
}

fn close(attempt: &mut Attempt, chunk: Option<Chunk>, last: Last)
    ensures { attempt.new ≡ with_last_report chunk last attempt.old }
{
    attempt.last_chunk = chunk;
    drop(mem::replace(&mut attempt.last, Some(last)));
}

fn close_if_some(attempt: &mut Option<Attempt>, chunk: Option<Chunk>, last: Last)
    ensures { attempt.new ≡ option_map (with_last_report chunk last) attempt.old }
{
    match attempt {
        None => drop(last),
        Some(attempt) => close(attempt, chunk, last),
    }
}

fn end_run(task: &mut TaskRow, moment: u64, chunk: Option<Chunk>, last: Last)
    ensures { task.new ≡ ended_run moment chunk last task.old }
{
    task.state = end_state(&task.attempt, reported(&last));
    close_if_some(&mut task.attempt, chunk, last);
    task.ended = Some(moment);
}

/// The run of a task ends with a last report.
#[derive(Drop)]
pub struct Finish {
    pub moment: u64,
    pub chunk: Option<Chunk>,
    pub last: Last,
}

impl Change<TaskRow> for Finish {
    ghost use Rattle.std.specs.Prelude.{⊤};
    ghost use Rattle.swarm_model.specs.Effects.{ended_run};

    ghost change = { λ c. ended_run c.moment c.chunk c.last };

    ghost fits = { λ task. ⊤ };

    fn apply(self, row: &mut TaskRow) {
        let Finish {
            moment,
            chunk,
            last,
        } = self;
        end_run(row, moment, chunk, last);
    }
}
