ghost use Rattle.std.specs.Prelude.{true, false, None, refl};

use crate::keeper::{Digest, Keeper, KeeperFault};
use dimensions::{Seq, Text};

/// Keeps nothing, and never fails.
#[derive(Clone, Copy, Debug, PartialEq, Eq, Drop)]
pub struct NoKeeper;

impl Keeper for NoKeeper {
    ghost tables = { λ k. None };

    ghost faults = { λ k. 0 };

    ghost TELLS = { false };

    ghost tells = { λ keeper. refl };

    ghost SURE = { true };

    const SURE: bool = true;

    ghost sure_untold = { refl };

    fn append(
        &mut self,
        _line: &str,
        _add: Option<Digest>,
        _bytes: &[u8],
        _remove: Option<Digest>,
    ) -> Result<(), KeeperFault> {
        Ok(())
    }

    fn replace(&mut self, _base: &[Text], _count: u64) -> Result<(), KeeperFault> {
        Ok(())
    }

    fn count(&mut self) -> Result<u64, KeeperFault> {
        Ok(0)
    }

    fn base_line(&mut self, _at: u64) -> Result<Option<Text>, KeeperFault> {
        Ok(None)
    }

    fn line(&mut self, _at: u64) -> Result<Option<Text>, KeeperFault> {
        Ok(None)
    }

    fn blob(&mut self, _digest: &Digest) -> Result<Option<Seq<u8>>, KeeperFault> {
        Ok(None)
    }
}
