//! What an entry does to the rows of tasks and bots.
ghost use Rattle.std.specs.Prelude.{◌≡◌, Some};
ghost use Rattle.std.specs.Option.{option_and_then};
ghost use Rattle.row_changes.specs.Parts.{bot_parts, task_parts};
ghost use Rattle.bot_registry.specs.Acting.{row_of, Follows};
ghost use Rattle.common_rows.specs.Changing.{run_to_end, AreTasksAfter, AreRowsAfter};
ghost use Rattle.common_rows.specs.Suiting.{SuitsTasks};

use bot_registry::Registry;
use swarm_model::{Entry, EntryKind};
use task_rows::TaskRows;

/// The task that the bot of a number runs.
pub fn run_of_bot(bots: &Registry, number: u32) -> Option<u32>
    ensures { result ≡ option_and_then (λ bot. bot.task) (row_of bots.now.rows number) }
{
    match bots.bot(number) {
        Some(bot) => bot.task,
        None => None,
    }
}

/// The run that ends where its bot comes with another session.
fn run_to_end(bots: &Registry, kind: &EntryKind) -> Option<u32>
    ensures { result ≡ run_to_end bots.now.rows kind.now }
{
    match kind {
        EntryKind::Handshake { b, .. } => run_of_bot(bots, *b),
        _ => None,
    }
}

/// Does to the rows of tasks what the entry does. `run` is the run that ends where its bot comes with
/// another session.
fn change_tasks(tasks: &mut TaskRows, run: Option<u32>, entry: &Entry)
    requires ready { tasks.old.ready ≡ Some (task_parts entry.now.kind) }
    requires suits { SuitsTasks tasks.old.rows entry.now.kind }
    ensures rows { AreTasksAfter tasks.old.retries tasks.old.rows run entry.now tasks.new.rows }
    ensures retries { tasks.new.retries ≡ tasks.old.retries }
{
    match &entry.kind {
        EntryKind::Slice { t, .. } => tasks.next_slice(*t, entry),
        EntryKind::New { t, .. } => tasks.add_row(*t, entry),
        EntryKind::Cancel { t } => tasks.cancel(*t, entry),
        EntryKind::Kill { t } => tasks.mark_kill(*t, entry),
        EntryKind::Claim { t, .. } => tasks.claim_row(*t, entry),
        EntryKind::Update { t, last, .. } => match last {
            None => tasks.append_chunk(*t, entry),
            Some(_) => tasks.finish(*t, entry),
        },
        EntryKind::Silence { t } => tasks.finish(*t, entry),
        EntryKind::Handshake { .. } => match run {
            Some(t) => tasks.finish(t, entry),
            None => {}
        },
        EntryKind::Dead { .. } => {}
        EntryKind::Blob { .. } => {}
        EntryKind::Poll { .. } => {}
        EntryKind::Contact { .. } => {}
        EntryKind::Event { .. } => {}
        EntryKind::Terminate { .. } => {}
        EntryKind::Put { .. } => {}
    }
}

/// Does to the rows of tasks and bots what the entry does that was made ready in both just before.
/// It takes no memory.
pub fn change_rows(tasks: &mut TaskRows, bots: &mut Registry, entry: &Entry)
    requires ready_tasks { tasks.old.ready ≡ Some (task_parts entry.now.kind) }
    requires ready_bots { bots.old.ready ≡ Some (bot_parts entry.now.kind) }
    requires suits { SuitsTasks tasks.old.rows entry.now.kind }
    requires follows { Follows bots.old entry.now.kind }
    ensures rows { AreRowsAfter tasks.old.retries tasks.old.rows bots.old.rows entry.now tasks.new.rows bots.new.rows }
    ensures retries { tasks.new.retries ≡ tasks.old.retries }
    ensures most { bots.new.most ≡ bots.old.most }
{
    let run = run_to_end(bots, &entry.kind);
    change_tasks(tasks, run, entry);
    bots.apply(entry);
}
