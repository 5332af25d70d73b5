//! The file of a batch, and its progress beside it.
ghost use Rattle.std.specs.Prelude.{◌≡◌, ℕ, List, IfOk, Option, Some, option_map, string_bytes, true, vec_items};
ghost use Rattle.sw_base.specs.Dialers.{DialerState};
ghost use Rattle.client_commands.specs.declared.server.Server.{Server as SpecServer};
ghost use Rattle.swarm_batch.specs.Batches.{BatchValue};
ghost use Rattle.swarm_batch.specs.Names.{is_batch_name, IsNameIn};
ghost use Rattle.client_commands.specs.Batches.{batch_line as spec_batch_line, breaking, done_path as spec_done_path, faulting, loading, loading_done, once_read, opening, opening_named, opening_progress, reading_both, reading_named, recalling};
ghost use Rattle.client_commands.specs.Plans.{Plan, Follows, read_batch};
ghost use Rattle.client_commands.specs.Steps.{world, Aside, Carries, aside_of};

use crate::printing::{print_last, print_refusal};
use std::alloc::{AllocError, Global};
use std::str;
use sw_base::{FileFault, Files, Link};
use swarm_batch::{Batch, BatchFault, BatchRule, progress_name};

/// The most bytes of a file of tasks, and of its progress.
const FILE_LIMIT: u64 = 1_048_576;

/// The path of the progress of a file.
pub(crate) fn done_path(alloc: Global, path: &str) -> Result<String, AllocError>
    ensures { IfOk result (λ done. string_bytes done ≡ spec_done_path path.now) }
{
    format!(in alloc; "{path}.done")
}

fn batch_line(alloc: Global, line: u32, rule: BatchRule) -> Result<String, AllocError>
    ensures { IfOk result (λ text. string_bytes text ≡ spec_batch_line line rule) }
{
    let rule = rule.name();
    format!(in alloc; "batch {line} {rule}\n")
}

/// Prints which rule a batch breaks, and where.
fn print_broken<L: Link>(alloc: Global, console: &mut L, line: u32, rule: BatchRule) -> u8
    ensures { (server : SpecServer) (dialer : DialerState) (aside : Aside) →
        Follows server (breaking line rule) (world dialer (L.state console.old) aside) (world dialer (L.state console.new) aside) result }
{
    match batch_line(alloc, line, rule) {
        Ok(text) => print_last(console, text.as_bytes(), 3),
        Err(_) => 5,
    }
}

/// Prints why a file or its progress is refused.
fn print_fault<L: Link>(alloc: Global, console: &mut L, fault: BatchFault) -> u8
    ensures { (server : SpecServer) (dialer : DialerState) (aside : Aside) →
        Follows server (faulting fault) (world dialer (L.state console.old) aside) (world dialer (L.state console.new) aside) result }
{
    match fault {
        BatchFault::Memory => 5,
        BatchFault::Broken { line, rule } => print_broken(alloc, console, line, rule),
    }
}

/// Loads the file of a batch.
fn load_file<L: Link, F: Files>(
    alloc: Global,
    console: &mut L,
    files: &mut F,
    path: &str,
) -> Result<Vec<u8>, u8>
    ensures { (server : SpecServer) (next : List ℕ → Plan) (dialer : DialerState) (waited : Option ℕ) →
        Carries server (loading path.now next) (world dialer (L.state console.old) (aside_of waited (F.state files.old))) (λ text. next (vec_items text))
        (world dialer (L.state console.new) (aside_of waited (F.state files.new))) result }
{
    match files.load(alloc, path, FILE_LIMIT) {
        Ok(Some(text)) => Ok(text),
        Ok(None) => Err(print_refusal(alloc, console, path, "absent")),
        Err(FileFault::TooLong) => Err(print_broken(alloc, console, 0, BatchRule::Count)),
        Err(FileFault::Failed) => Err(4),
        Err(FileFault::Memory) => Err(5),
    }
}

/// Loads the progress at a path, where there is one.
fn load_progress<L: Link, F: Files>(
    alloc: Global,
    console: &mut L,
    files: &mut F,
    done: &str,
) -> Result<Option<Vec<u8>>, u8>
    ensures { (server : SpecServer) (next : Option (List ℕ) → Plan) (dialer : DialerState) (waited : Option ℕ) →
        Carries server (loading_done done.now next) (world dialer (L.state console.old) (aside_of waited (F.state files.old))) (λ found. next (option_map vec_items found))
        (world dialer (L.state console.new) (aside_of waited (F.state files.new))) result }
{
    match files.load(alloc, done, FILE_LIMIT) {
        Ok(found) => Ok(found),
        Err(FileFault::TooLong) => Err(print_refusal(alloc, console, done, "count")),
        Err(FileFault::Failed) => Err(4),
        Err(FileFault::Memory) => Err(5),
    }
}

/// Reads the batch of a file under a name; no line of it is done.
fn read_file<L: Link>(alloc: Global, console: &mut L, text: &[u8], name: &str) -> Result<Batch, u8>
    requires { is_batch_name name.now ≡ true }
    ensures { (server : SpecServer) (next : BatchValue → Plan) (dialer : DialerState) (aside : Aside) →
        Carries server (read_batch text.now name.now (once_read next)) (world dialer (L.state console.old) aside) next (world dialer (L.state console.new) aside) result }
{
    match Batch::read(alloc, text, name, None) {
        Ok(batch) => Ok(batch),
        Err(fault) => Err(print_fault(alloc, console, fault)),
    }
}

/// The batch with what its progress tells.
fn recall<L: Link>(
    alloc: Global,
    console: &mut L,
    batch: Batch,
    progress: Option<&[u8]>,
) -> Result<Batch, u8>
    ensures { (server : SpecServer) (next : BatchValue → Plan) (dialer : DialerState) (aside : Aside) →
        Carries server (recalling batch (option_map (λ text. text.now) progress.entry) next) (world dialer (L.state console.old) aside) next (world dialer (L.state console.new) aside) result }
{
    let mut batch = batch;
    match batch.read_again(alloc, progress) {
        Ok(()) => Ok(batch),
        Err(fault) => Err(print_fault(alloc, console, fault)),
    }
}

/// The bytes of a progress, where there is one.
fn bytes_of(progress: &Option<Vec<u8>>) -> Option<&[u8]>
    ensures { option_map (λ text. text.now) result ≡ option_map vec_items progress.now }
{
    match progress {
        Some(text) => Some(text.as_slice()),
        None => None,
    }
}

/// Takes what the progress at a path tells of a batch.
fn open_progress<L: Link, F: Files>(
    alloc: Global,
    console: &mut L,
    files: &mut F,
    done: &str,
    batch: Batch,
) -> Result<Batch, u8>
    ensures { (server : SpecServer) (next : BatchValue → Plan) (dialer : DialerState) (waited : Option ℕ) →
        Carries server (opening_progress done.now batch next) (world dialer (L.state console.old) (aside_of waited (F.state files.old))) next
        (world dialer (L.state console.new) (aside_of waited (F.state files.new))) result }
{
    match load_progress(alloc, console, files, done) {
        Ok(progress) => recall(alloc, console, batch, bytes_of(&progress)),
        Err(status) => Err(status),
    }
}

/// Reads the batch of a file under a name, and its progress at another path, or tells why one of them
/// is refused and answers the status.
pub(crate) fn open_batch<L: Link, F: Files>(
    alloc: Global,
    console: &mut L,
    files: &mut F,
    path: &str,
    done: &str,
    name: &str,
) -> Result<Batch, u8>
    requires { is_batch_name name.now ≡ true }
    ensures { (server : SpecServer) (next : BatchValue → Plan) (dialer : DialerState) (waited : Option ℕ) →
        Carries server (opening path.now done.now name.now next) (world dialer (L.state console.old) (aside_of waited (F.state files.old))) next
        (world dialer (L.state console.new) (aside_of waited (F.state files.new))) result }
{
    let text = match load_file(alloc, console, files, path) {
        Ok(text) => text,
        Err(status) => return Err(status),
    };
    match read_file(alloc, console, &text, name) {
        Ok(batch) => open_progress(alloc, console, files, done, batch),
        Err(status) => Err(status),
    }
}

/// The name in the first line of a progress.
fn name_in(progress: &[u8]) -> Option<&str>
    ensures { IsNameIn progress.now (option_map (λ name. name.now) result) }
{
    let Some(name) = progress_name(progress) else {
        return None;
    };
    match str::from_utf8(name) {
        Ok(name) => Some(name),
        Err(_) => None,
    }
}

/// Reads the batch of a file under a name, and what its progress tells.
fn read_both<L: Link>(
    alloc: Global,
    console: &mut L,
    text: &[u8],
    name: &str,
    progress: &[u8],
) -> Result<Batch, u8>
    requires { is_batch_name name.now ≡ true }
    ensures { (server : SpecServer) (next : BatchValue → Plan) (dialer : DialerState) (aside : Aside) →
        Carries server (reading_both text.now name.now (Some progress.now) next) (world dialer (L.state console.old) aside) next
        (world dialer (L.state console.new) aside) result }
{
    match read_file(alloc, console, text, name) {
        Ok(batch) => recall(alloc, console, batch, Some(progress)),
        Err(status) => Err(status),
    }
}

/// Reads the batch of a file under the name that its progress has.
fn read_named<L: Link>(
    alloc: Global,
    console: &mut L,
    text: &[u8],
    progress: &[u8],
) -> Result<Batch, u8>
    ensures { (server : SpecServer) (next : BatchValue → Plan) (dialer : DialerState) (aside : Aside) →
        Carries server (reading_named text.now (Some progress.now) next) (world dialer (L.state console.old) aside) next
        (world dialer (L.state console.new) aside) result }
{
    match name_in(progress) {
        Some(name) => read_both(alloc, console, text, name, progress),
        None => Err(print_broken(alloc, console, 0, BatchRule::Progress)),
    }
}

/// The same; a file without a progress has no name.
fn read_noted<L: Link>(
    alloc: Global,
    console: &mut L,
    text: &[u8],
    progress: &Option<Vec<u8>>,
) -> Result<Batch, u8>
    ensures { (server : SpecServer) (next : BatchValue → Plan) (dialer : DialerState) (aside : Aside) →
        Carries server (reading_named text.now (option_map vec_items progress.now) next) (world dialer (L.state console.old) aside) next
        (world dialer (L.state console.new) aside) result }
{
    match progress {
        Some(progress) => read_named(alloc, console, text, progress.as_slice()),
        None => Err(print_broken(alloc, console, 0, BatchRule::Progress)),
    }
}

/// Reads the batch of a file under the name that its progress at another path has, or tells why one
/// of them is refused and answers the status.
pub(crate) fn open_named<L: Link, F: Files>(
    alloc: Global,
    console: &mut L,
    files: &mut F,
    path: &str,
    done: &str,
) -> Result<Batch, u8>
    ensures { (server : SpecServer) (next : BatchValue → Plan) (dialer : DialerState) (waited : Option ℕ) →
        Carries server (opening_named path.now done.now next) (world dialer (L.state console.old) (aside_of waited (F.state files.old))) next
        (world dialer (L.state console.new) (aside_of waited (F.state files.new))) result }
{
    let text = match load_file(alloc, console, files, path) {
        Ok(text) => text,
        Err(status) => return Err(status),
    };
    match load_progress(alloc, console, files, done) {
        Ok(progress) => read_noted(alloc, console, &text, &progress),
        Err(status) => Err(status),
    }
}
