ghost use Rattle.std.specs.Prelude.{◌≡◌, IfOk};

use dimensions::{Seq, TryCopy};
use std::alloc::{AllocError, Global};

/// What a look at a child shows.
#[derive(Clone, Copy, Debug, PartialEq, Eq)]
pub enum Look {
    /// So many bytes of its output are at the front of the buffer: 1 to the length of the buffer.
    Output(usize),
    /// The child runs, and there is nothing new of its output, or no room for it.
    Quiet,
    /// The child has ended with this exit code, and all of its output was shown.
    Ended(i32),
}

/// What a runner in memory answers to one call, to several looks in the case of an output.
#[derive(Drop)]
pub enum RunnerAnswer {
    /// To `open`, `prepare`, `start`, `signal` and `keep`.
    Done,
    /// To as many looks as it takes to show these bytes. None at all are as `Quiet`.
    Output { bytes: Seq<u8> },
    /// To `look`.
    Quiet,
    /// To `look`.
    Ended { code: i32 },
    /// To `collect`.
    File { bytes: Seq<u8> },
    /// To `collect`, where there is no file.
    NoFile,
    /// To `clean`, with one size for each cache.
    Cleaned { sizes: Seq<u64> },
    /// The call fails, as it does at an answer to another call, and where none is left.
    Failure,
}

fn copy_bytes(alloc: Global, bytes: &Seq<u8>) -> Result<Seq<u8>, AllocError>
    ensures { IfOk result (λ copy. copy ≡ bytes.now) }
{
    let copy = Vec::from_slice(alloc, bytes.as_slice())?;
    Ok(Seq::from_vec(copy))
}

fn copy_sizes(alloc: Global, sizes: &Seq<u64>) -> Result<Seq<u64>, AllocError>
    ensures { IfOk result (λ copy. copy ≡ sizes.now) }
{
    let copy = Vec::from_slice(alloc, sizes.as_slice())?;
    Ok(Seq::from_vec(copy))
}

impl TryCopy for RunnerAnswer {
    fn try_copy(&self, alloc: Global) -> Result<RunnerAnswer, AllocError> {
        Ok(match self {
            RunnerAnswer::Done => RunnerAnswer::Done,
            RunnerAnswer::Output { bytes } => RunnerAnswer::Output {
                bytes: copy_bytes(alloc, bytes)?,
            },
            RunnerAnswer::Quiet => RunnerAnswer::Quiet,
            RunnerAnswer::Ended { code } => RunnerAnswer::Ended { code: *code },
            RunnerAnswer::File { bytes } => RunnerAnswer::File {
                bytes: copy_bytes(alloc, bytes)?,
            },
            RunnerAnswer::NoFile => RunnerAnswer::NoFile,
            RunnerAnswer::Cleaned { sizes } => RunnerAnswer::Cleaned {
                sizes: copy_sizes(alloc, sizes)?,
            },
            RunnerAnswer::Failure => RunnerAnswer::Failure,
        })
    }
}
