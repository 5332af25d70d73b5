//! What the command of a client does at a server: how it is written, and how it is read.

ghost use Rattle.std.specs.Prelude.{◌≡◌, ◌≤◌, IfOk, IfSome, codes, false, option_map, string_bytes};
ghost use Rattle.clap.specs.Words.{app_of, first_of, found_of, rows_of, rule_of};
ghost use Rattle.clap.specs.declared.builder.command.Command.TheViews.{out-Command as fields_of};
ghost use Rattle.command_words.specs.Rules.{number_rule, place_rule, required_rule};
ghost use Rattle.command_words.specs.Values.{both_of};
ghost use Rattle.command_words.specs.ClientWork.{HasWorkRanges, bots_app, bots_in, cancel_app, cancel_in, collect_app, collect_batch_app, collect_batch_in, collect_in, polls_in, spawn_tasks_app, spawn_tasks_in, tasks_app, tasks_in, trigger_app, trigger_in, with_batches, with_clients, with_polls, with_tasks, work_in, work_of};

use crate::arguments::{add, client, command, defaulted, enter, flag, number, place, required};
use crate::values::{flag as read_flag, number as read_number, text as read_text};
use clap::{Arg, ArgMatches, Command};
use std::alloc::{AllocError, Global};

/// What the command of a client does.
#[derive(Drop)]
pub enum ClientWork {
    /// `swarm trigger`: posts a new task.
    Trigger {
        /// The path of the file that holds the body of the request.
        file: String,
    },
    /// `swarm collect`: waits for the result of a task, and prints it.
    Collect {
        /// How often the result is asked for: 1 to 100000.
        polls: u32,
        /// The seconds between two polls: 0 to 60.
        every: u32,
        /// The id of the task.
        id: String,
    },
    /// `swarm cancel`: cancels a task.
    Cancel {
        /// Whether a task that runs is killed.
        kill: bool,
        /// The id of the task.
        id: String,
    },
    /// `swarm spawn-tasks`: sends a batch of tasks, each once.
    SpawnTasks {
        /// The name of the batch.
        name: String,
        /// The path of the file that holds the batch.
        file: String,
    },
    /// `swarm collect-batch`: waits for the results of a batch, and prints them.
    CollectBatch {
        /// How often each result is asked for: 1 to 100000.
        polls: u32,
        /// The seconds between two polls: 0 to 60.
        every: u32,
        /// The path of the file that holds the batch.
        file: String,
    },
    /// `swarm tasks`: lists tasks of a pool.
    Tasks {
        pool: String,
        /// The name of a state, or `ALL`.
        state: String,
        /// How many tasks are listed at most: 1 to 200.
        limit: u32,
    },
    /// `swarm bots`: lists bots of a pool.
    Bots {
        pool: String,
        /// How many bots are listed at most: 1 to 200.
        limit: u32,
    },
}

fn id<'a>(alloc: Global) -> Arg<'a>
    ensures rule { rule_of result ≡ place_rule (codes "ID") }
    ensures plain { result.global ≡ false }
{
    place(
        alloc,
        "ID",
        "The id of the task, as trigger prints it, such as 1a0",
    )
}

fn pool<'a>(alloc: Global) -> Arg<'a>
    ensures rule { rule_of result ≡ required_rule (codes "pool") }
    ensures plain { result.global ≡ false }
{
    required(alloc, "pool", "POOL", "The name of the pool")
}

fn limit<'a>(alloc: Global) -> Arg<'a>
    ensures rule { rule_of result ≡ number_rule (codes "limit") 1 200 (codes "50") }
    ensures plain { result.global ≡ false }
{
    number(
        alloc,
        "limit",
        1,
        200,
        "50",
        "How many are listed at most: 1 to 200",
    )
}

fn trigger<'a>(alloc: Global) -> Result<Command<'a>, AllocError>
    ensures app { IfOk result (λ c. app_of c ≡ trigger_app) }
    ensures plain { IfOk result (λ c. (fields_of c).has_globals ≡ false) }
{
    let trigger = command(
        alloc,
        "trigger",
        "Sends a new task, and prints its id and its state",
    );
    let trigger = client(trigger, alloc)?;
    add(
        trigger,
        place(
            alloc,
            "FILE",
            "The body of the request NewTask, a JSON file of at most 65536 bytes",
        ),
    )
}

/// The command with how often a result is asked for, and the seconds between.
fn with_polls<'a>(command: Command<'a>, alloc: Global) -> Result<Command<'a>, AllocError>
    requires command { (fields_of command).has_globals ≡ false }
    ensures app { IfOk result (λ c. app_of c ≡ with_polls (app_of command.entry)) }
    ensures plain { IfOk result (λ c. (fields_of c).has_globals ≡ false) }
{
    let command = add(
        command,
        number(
            alloc,
            "polls",
            1,
            100000,
            "1000",
            "How often a result is asked for at most: 1 to 100000",
        ),
    )?;
    add(
        command,
        number(
            alloc,
            "every",
            0,
            60,
            "5",
            "The seconds between two polls: 0 to 60",
        ),
    )
}

fn collect<'a>(alloc: Global) -> Result<Command<'a>, AllocError>
    ensures app { IfOk result (λ c. app_of c ≡ collect_app) }
    ensures plain { IfOk result (λ c. (fields_of c).has_globals ≡ false) }
{
    let collect = command(
        alloc,
        "collect",
        "Asks for the result of a task until it is final, then prints its state, its exit code and its output",
    );
    let collect = client(collect, alloc)?;
    let collect = with_polls(collect, alloc)?;
    add(collect, id(alloc))
}

fn cancel<'a>(alloc: Global) -> Result<Command<'a>, AllocError>
    ensures app { IfOk result (λ c. app_of c ≡ cancel_app) }
    ensures plain { IfOk result (λ c. (fields_of c).has_globals ≡ false) }
{
    let cancel = command(
        alloc,
        "cancel",
        "Cancels a task, and prints whether it is canceled and whether it was running",
    );
    let cancel = client(cancel, alloc)?;
    let cancel = add(
        cancel,
        flag(
            alloc,
            "kill",
            "Cancels a task that runs, too. Without it only a task that waits is canceled",
        ),
    )?;
    add(cancel, id(alloc))
}

fn spawn_tasks<'a>(alloc: Global) -> Result<Command<'a>, AllocError>
    ensures app { IfOk result (λ c. app_of c ≡ spawn_tasks_app) }
    ensures plain { IfOk result (λ c. (fields_of c).has_globals ≡ false) }
{
    let spawn = command(
        alloc,
        "spawn-tasks",
        "Sends a file of tasks, each once however often it is stopped and run again, then prints the number and the id of each, or why it is refused. FILE.done keeps what is done",
    );
    let spawn = client(spawn, alloc)?;
    let spawn = add(
        spawn,
        required(
            alloc,
            "name",
            "NAME",
            "The name of the batch: 1 to 40 letters, digits and -, such as nightly-17. Line N is sent under the uuid NAME-N",
        ),
    )?;
    add(
        spawn,
        place(
            alloc,
            "FILE",
            "The batch, a file of at most 1048576 bytes and 1 to 4096 lines, each the body of a request NewTask without `request_uuid`",
        ),
    )
}

fn collect_batch<'a>(alloc: Global) -> Result<Command<'a>, AllocError>
    ensures app { IfOk result (λ c. app_of c ≡ collect_batch_app) }
    ensures plain { IfOk result (λ c. (fields_of c).has_globals ≡ false) }
{
    let collect = command(
        alloc,
        "collect-batch",
        "Asks for the result of each task that FILE.done names until it is final, then prints the number, the id, the state and the exit code of each",
    );
    let collect = client(collect, alloc)?;
    let collect = with_polls(collect, alloc)?;
    add(
        collect,
        place(alloc, "FILE", "The batch, as spawn-tasks was given it"),
    )
}

fn tasks<'a>(alloc: Global) -> Result<Command<'a>, AllocError>
    ensures app { IfOk result (λ c. app_of c ≡ tasks_app) }
    ensures plain { IfOk result (λ c. (fields_of c).has_globals ≡ false) }
{
    let tasks = command(
        alloc,
        "tasks",
        "Lists tasks of a pool, the newest first: id, state, priority and name",
    );
    let tasks = client(tasks, alloc)?;
    let tasks = add(tasks, pool(alloc))?;
    let tasks = add(
        tasks,
        defaulted(
            alloc,
            "state",
            "STATE",
            "ALL",
            "Only the tasks of this state, such as PENDING, RUNNING or COMPLETED",
        ),
    )?;
    add(tasks, limit(alloc))
}

fn bots<'a>(alloc: Global) -> Result<Command<'a>, AllocError>
    ensures app { IfOk result (λ c. app_of c ≡ bots_app) }
    ensures plain { IfOk result (λ c. (fields_of c).has_globals ≡ false) }
{
    let bots = command(
        alloc,
        "bots",
        "Lists bots of a pool by name: name, status and the run that the bot works on",
    );
    let bots = client(bots, alloc)?;
    let bots = add(bots, pool(alloc))?;
    add(bots, limit(alloc))
}

/// The program with the commands that ask about one task.
fn with_tasks<'a>(program: Command<'a>, alloc: Global) -> Result<Command<'a>, AllocError>
    requires program { (fields_of program).has_globals ≡ false }
    ensures app { IfOk result (λ c. app_of c ≡ with_tasks (app_of program.entry)) }
    ensures plain { IfOk result (λ c. (fields_of c).has_globals ≡ false) }
{
    let program = enter(program, trigger(alloc)?)?;
    let program = enter(program, collect(alloc)?)?;
    enter(program, cancel(alloc)?)
}

/// And with those of batches.
fn with_batches<'a>(program: Command<'a>, alloc: Global) -> Result<Command<'a>, AllocError>
    requires program { (fields_of program).has_globals ≡ false }
    ensures app { IfOk result (λ c. app_of c ≡ with_batches (app_of program.entry)) }
    ensures plain { IfOk result (λ c. (fields_of c).has_globals ≡ false) }
{
    let program = with_tasks(program, alloc)?;
    let program = enter(program, spawn_tasks(alloc)?)?;
    enter(program, collect_batch(alloc)?)
}

/// The program with all commands of a client.
pub(crate) fn with_clients<'a>(
    program: Command<'a>,
    alloc: Global,
) -> Result<Command<'a>, AllocError>
    requires program { (fields_of program).has_globals ≡ false }
    ensures app { IfOk result (λ c. app_of c ≡ with_clients (app_of program.entry)) }
    ensures plain { IfOk result (λ c. (fields_of c).has_globals ≡ false) }
{
    let program = with_batches(program, alloc)?;
    let program = enter(program, tasks(alloc)?)?;
    enter(program, bots(alloc)?)
}

fn read_trigger(alloc: Global, found: &ArgMatches<'_>) -> Result<Option<ClientWork>, AllocError>
    ensures value { IfOk result (λ w. option_map work_of w ≡ trigger_in (rows_of (found_of found.now))) }
    ensures ranges { IfOk result (λ w. IfSome w (λ w. HasWorkRanges (work_of w))) }
{
    match read_text(alloc, found, "FILE")? {
        Some(file) => Ok(Some(ClientWork::Trigger { file })),
        None => Ok(None),
    }
}

/// How often a result is asked for, and the seconds between.
fn read_polls(found: &ArgMatches<'_>) -> Option<(u32, u32)>
    ensures value { result ≡ polls_in (rows_of (found_of found.now)) }
    ensures polls { IfSome result (λ p. (1 ≤ p.0) × (p.0 ≤ 100000)) }
    ensures every { IfSome result (λ p. p.1 ≤ 60) }
{
    let Some(polls) = read_number(found, "polls", 1, 100000) else {
        return None;
    };
    let Some(every) = read_number(found, "every", 0, 60) else {
        return None;
    };
    Some((polls, every))
}

fn read_collect(alloc: Global, found: &ArgMatches<'_>) -> Result<Option<ClientWork>, AllocError>
    ensures value { IfOk result (λ w. option_map work_of w ≡ collect_in (rows_of (found_of found.now))) }
    ensures ranges { IfOk result (λ w. IfSome w (λ w. HasWorkRanges (work_of w))) }
{
    let Some((polls, every)) = read_polls(found) else {
        return Ok(None);
    };
    match read_text(alloc, found, "ID")? {
        Some(id) => Ok(Some(ClientWork::Collect { polls, every, id })),
        None => Ok(None),
    }
}

fn read_cancel(alloc: Global, found: &ArgMatches<'_>) -> Result<Option<ClientWork>, AllocError>
    ensures value { IfOk result (λ w. option_map work_of w ≡ cancel_in (rows_of (found_of found.now))) }
    ensures ranges { IfOk result (λ w. IfSome w (λ w. HasWorkRanges (work_of w))) }
{
    let kill = read_flag(found, "kill");
    match read_text(alloc, found, "ID")? {
        Some(id) => Ok(Some(ClientWork::Cancel { kill, id })),
        None => Ok(None),
    }
}

fn read_spawn_tasks(alloc: Global, found: &ArgMatches<'_>) -> Result<Option<ClientWork>, AllocError>
    ensures value { IfOk result (λ w. option_map work_of w ≡ spawn_tasks_in (rows_of (found_of found.now))) }
    ensures ranges { IfOk result (λ w. IfSome w (λ w. HasWorkRanges (work_of w))) }
{
    let name = read_text(alloc, found, "name")?;
    let file = read_text(alloc, found, "FILE")?;
    match (name, file) {
        (Some(name), Some(file)) => Ok(Some(ClientWork::SpawnTasks { name, file })),
        _ => Ok(None),
    }
}

fn read_collect_batch(
    alloc: Global,
    found: &ArgMatches<'_>,
) -> Result<Option<ClientWork>, AllocError>
    ensures value { IfOk result (λ w. option_map work_of w ≡ collect_batch_in (rows_of (found_of found.now))) }
    ensures ranges { IfOk result (λ w. IfSome w (λ w. HasWorkRanges (work_of w))) }
{
    let Some((polls, every)) = read_polls(found) else {
        return Ok(None);
    };
    match read_text(alloc, found, "FILE")? {
        Some(file) => Ok(Some(ClientWork::CollectBatch { polls, every, file })),
        None => Ok(None),
    }
}

/// The pool and the state.
fn pool_and_state(
    alloc: Global,
    found: &ArgMatches<'_>,
) -> Result<Option<(String, String)>, AllocError>
    ensures { IfOk result (λ p. option_map (λ p. (string_bytes p.0, string_bytes p.1)) p
        ≡ both_of (first_of (codes "pool") (rows_of (found_of found.now))) (first_of (codes "state") (rows_of (found_of found.now)))) }
{
    let pool = read_text(alloc, found, "pool")?;
    let state = read_text(alloc, found, "state")?;
    match (pool, state) {
        (Some(pool), Some(state)) => Ok(Some((pool, state))),
        _ => Ok(None),
    }
}

fn read_tasks(alloc: Global, found: &ArgMatches<'_>) -> Result<Option<ClientWork>, AllocError>
    ensures value { IfOk result (λ w. option_map work_of w ≡ tasks_in (rows_of (found_of found.now))) }
    ensures ranges { IfOk result (λ w. IfSome w (λ w. HasWorkRanges (work_of w))) }
{
    let Some(limit) = read_number(found, "limit", 1, 200) else {
        return Ok(None);
    };
    match pool_and_state(alloc, found)? {
        Some((pool, state)) => Ok(Some(ClientWork::Tasks { pool, state, limit })),
        None => Ok(None),
    }
}

fn read_bots(alloc: Global, found: &ArgMatches<'_>) -> Result<Option<ClientWork>, AllocError>
    ensures value { IfOk result (λ w. option_map work_of w ≡ bots_in (rows_of (found_of found.now))) }
    ensures ranges { IfOk result (λ w. IfSome w (λ w. HasWorkRanges (work_of w))) }
{
    let Some(limit) = read_number(found, "limit", 1, 200) else {
        return Ok(None);
    };
    match read_text(alloc, found, "pool")? {
        Some(pool) => Ok(Some(ClientWork::Bots { pool, limit })),
        None => Ok(None),
    }
}

/// What a command of this name does, from what was found of its words.
pub(crate) fn read_work(
    alloc: Global,
    name: &str,
    found: &ArgMatches<'_>,
) -> Result<Option<ClientWork>, AllocError>
    ensures value { IfOk result (λ w. option_map work_of w ≡ work_in name.now (rows_of (found_of found.now))) }
    ensures ranges { IfOk result (λ w. IfSome w (λ w. HasWorkRanges (work_of w))) }
{
    match name {
        "trigger" => read_trigger(alloc, found),
        "collect" => read_collect(alloc, found),
        "cancel" => read_cancel(alloc, found),
        "spawn-tasks" => read_spawn_tasks(alloc, found),
        "collect-batch" => read_collect_batch(alloc, found),
        "tasks" => read_tasks(alloc, found),
        "bots" => read_bots(alloc, found),
        _ => Ok(None),
    }
}
