//! Which files no blob is.
ghost use Rattle.std.specs.Prelude.{◌≡◌};
ghost use Rattle.std.specs.Option.{option_copied};
ghost use Rattle.swarm_model.specs.Blobs.{lacks, missing_file, inputs_of};
ghost use Rattle.swarm_model.specs.Answers.{file_missing};

use pool_queries::{PoolQueries, has_blob, refusal};
use swarm_model::{Decision, Rule};
use task_props::{File, Slice};

fn lacks<P: PoolQueries>(pool: &P, file: &File) -> bool
    ensures { result ≡ lacks (P.state pool.now) file.now }
{
    !has_blob(pool, &file.digest, file.size)
}

/// The first file that no blob is, by digest and size.
pub(crate) fn missing_file<'a, P: PoolQueries>(pool: &P, files: &'a [File]) -> Option<&'a File>
    ensures { option_copied result ≡ missing_file (P.state pool.now) files.now }
{
    files.iter().find(|file| lacks(pool, file))
}

/// The first input of the slices that no blob is.
pub(crate) fn missing_input<'a, P: PoolQueries>(pool: &P, slices: &'a [Slice]) -> Option<&'a File>
    ensures { option_copied result ≡ missing_file (P.state pool.now) (inputs_of slices.now) }
{
    for place in 0..slices.len() {
        let inputs = slices[place].properties.inputs.as_slice();
        if let Some(file) = missing_file(pool, inputs) {
            return Some(file);
        }
    }
    None
}

/// The refusal of a file that no blob is.
pub(crate) fn file_missing(file: &File) -> Decision
    ensures { result ≡ file_missing file.now }
{
    refusal(Rule::BlobMissing {
        digest: file.digest,
    })
}
