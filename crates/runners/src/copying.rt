ghost use Rattle.std.specs.Prelude.{◌≡◌, IfOk};

use dimensions::{Seq, Text, TryCopy};
use std::alloc::{AllocError, Global};

/// A copy of a list of values that can be copied exactly.
pub(crate) fn copy_list<T: TryCopy + Drop>(alloc: Global, items: &[T]) -> Result<Seq<T>, AllocError>
    ensures { IfOk result (λ copies. copies ≡ items.now) }
{
    let mut copies = Vec::new(alloc);
    for item in items {
        copies.push(item.try_copy(alloc)?)?;
    }
    Ok(Seq::from_vec(copies))
}

fn copy_input(alloc: Global, input: &(Text, Seq<u8>)) -> Result<(Text, Seq<u8>), AllocError>
    ensures { IfOk result (λ copy. copy ≡ input.now) }
{
    let path = input.0.try_copy(alloc)?;
    let bytes = Vec::from_slice(alloc, input.1.as_slice())?;
    Ok((path, Seq::from_vec(bytes)))
}

/// A copy of a list of paths with their bytes.
pub(crate) fn copy_inputs(
    alloc: Global,
    inputs: &[(Text, Seq<u8>)],
) -> Result<Seq<(Text, Seq<u8>)>, AllocError>
    ensures { IfOk result (λ copies. copies ≡ inputs.now) }
{
    let mut copies = Vec::new(alloc);
    for input in inputs {
        copies.push(copy_input(alloc, input)?)?;
    }
    Ok(Seq::from_vec(copies))
}
