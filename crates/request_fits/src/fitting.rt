ghost use Rattle.std.specs.Prelude.{◌≡◌, ◌&&◌, ◌==◌, nat_le, true};
ghost use Rattle.std.specs.List.{list_all};
ghost use Rattle.std.specs.Option.{option_map_or};
ghost use Rattle.swarm_model.specs.Words.{is_between};
ghost use Rattle.swarm_model.specs.Fits.{fits_bot, is_task_number, fits_task, is_limit, fits_chunk, fits_last, is_blob_size, fits};

use crate::checking::are_files;
use crate::is_checked;
use dimensions::{BotDims, Text};
use swarm_model::{Chunk, Last, PoolSettings, Request, fits_message, is_name};
use task_checks::LARGEST_CONTENT;
use task_props::{Digest, NewTask};

/// The bytes of the longest output.
const LONGEST_OUTPUT: u64 = 67_108_864;

/// Whether the pool may be asked for the task.
pub fn fits_pool(settings: &PoolSettings, request: &NewTask) -> bool
    ensures { result ≡ fits settings.now (Request.New request.now) }
{
    is_checked(request) && request.pool() == settings.name.as_str()
}

fn fits_bot(settings: &PoolSettings, bot: &Text, dims: &BotDims) -> bool
    ensures { result ≡ fits_bot settings.now bot.now dims.now }
{
    is_name(bot.as_str()) && dims.is_checked(bot.as_str()) && dims.pool() == settings.name.as_str()
}

/// Whether a bot may come to the pool so.
pub fn fits_session(
    settings: &PoolSettings,
    bot: &Text,
    session: &Text,
    dims: &BotDims,
    quarantined: &Text,
) -> bool
    ensures { result ≡ fits settings.now (Request.Handshake bot.now session.now dims.now quarantined.now) }
{
    fits_bot(settings, bot, dims) && is_name(session.as_str()) && quarantined.as_str().len() <= 256
}

fn is_task_number(number: u32) -> bool
    ensures { result ≡ is_task_number number }
{
    1 <= number && number <= 262_144
}

fn fits_task(task: u32, try_no: u32) -> bool
    ensures { result ≡ fits_task task try_no }
{
    is_task_number(task) && try_no <= 2
}

/// Whether a run may have this number.
fn is_try(try_no: u32) -> bool
    ensures { result ≡ is_between 1 2 try_no }
{
    1 <= try_no && try_no <= 2
}

fn is_limit(limit: u32) -> bool
    ensures { result ≡ is_limit limit }
{
    1 <= limit && limit <= 200
}

fn is_task_number_or_none(number: Option<u32>) -> bool
    ensures { result ≡ option_map_or is_task_number number true }
{
    match number {
        None => true,
        Some(number) => is_task_number(number),
    }
}

/// Whether a report may bring the piece of output.
pub fn fits_chunk(chunk: &Chunk) -> bool
    ensures { result ≡ fits_chunk chunk.now }
{
    1 <= chunk.size
        && chunk.size <= 32_768
        && u64::from(chunk.start) + u64::from(chunk.size) <= LONGEST_OUTPUT
}

/// Whether it may bring what there is.
pub fn fits_chunk_or_none(chunk: &Option<Chunk>) -> bool
    ensures { result ≡ option_map_or fits_chunk chunk.now true }
{
    match chunk {
        None => true,
        Some(chunk) => fits_chunk(chunk),
    }
}

fn fits_last(last: &Last) -> bool
    ensures { result ≡ fits_last last.now }
{
    last.duration_ms <= 1 << 40
        && last.dropped <= 1 << 53
        && last.files.as_slice().len() <= 64
        && are_files(last.files.as_slice())
}

/// Whether a report may say this of the end of a run, where it says anything.
pub fn fits_last_or_none(last: &Option<Last>) -> bool
    ensures { result ≡ option_map_or fits_last last.now true }
{
    match last {
        None => true,
        Some(last) => fits_last(last),
    }
}

/// Whether a window of output begins within the longest one and has 1 to 65536 bytes.
fn is_window(offset: u32, length: u32) -> bool
    ensures { result ≡ (nat_le offset 67108864 && is_between 1 65536 length) }
{
    u64::from(offset) <= LONGEST_OUTPUT && 1 <= length && length <= 65_536
}

/// Whether a blob may have so many bytes.
pub fn is_blob_size(size: u32) -> bool
    ensures { result ≡ is_blob_size size }
{
    size <= LARGEST_CONTENT
}

fn have_blob_sizes(blobs: &[(Digest, u32)]) -> bool
    ensures { result ≡ list_all (λ blob. is_blob_size blob.1) blobs.now }
{
    blobs.iter().all(|blob| is_blob_size(blob.1))
}

/// Whether the pool of these settings may be asked this. It takes no memory.
pub fn fits(settings: &PoolSettings, request: &Request) -> bool
    ensures { result ≡ fits settings.now request.now }
{
    match request {
        Request::New(task) => fits_pool(settings, task),
        Request::Cancel {
            task,
            try_no,
            kill: _,
        } => fits_task(*task, *try_no),
        Request::Result { task, try_no } => fits_task(*task, *try_no),
        Request::Stdout {
            task,
            try_no,
            offset,
            length,
        } => fits_task(*task, *try_no) && is_window(*offset, *length),
        Request::List {
            state: _,
            limit,
            below,
        } => is_limit(*limit) && is_task_number_or_none(*below),
        Request::Count { state: _ } => true,
        Request::Handshake {
            bot,
            session,
            dims,
            quarantined,
        } => fits_session(settings, bot, session, dims, quarantined),
        Request::Poll {
            bot,
            dims,
            quarantined,
        } => fits_bot(settings, bot, dims) && quarantined.as_str().len() <= 256,
        Request::Claim { bot, claim } => is_name(bot.as_str()) && is_name(claim.as_str()),
        Request::Event { bot, kind, message } => {
            is_name(bot.as_str()) && fits_message(*kind, message.as_str())
        }
        Request::Update {
            bot,
            task,
            try_no,
            chunk,
            last,
        } => {
            is_name(bot.as_str())
                && is_task_number(*task)
                && is_try(*try_no)
                && fits_chunk_or_none(chunk)
                && fits_last_or_none(last)
        }
        Request::Terminate { bot } => is_name(bot.as_str()),
        Request::Bots { limit, after } => {
            is_limit(*limit) && (after.as_str().is_empty() || is_name(after.as_str()))
        }
        Request::Bot { bot } => is_name(bot.as_str()),
        Request::PutBlob {
            named: _,
            actual: _,
            size,
        } => is_blob_size(*size),
        Request::GetBlob { digest: _ } => true,
        Request::FindMissing { blobs } => {
            blobs.as_slice().len() <= 512 && have_blob_sizes(blobs.as_slice())
        }
    }
}
