//! A text cut into its lines.
ghost use Rattle.std.specs.Prelude.{◌≡◌, ◌≢◌, ◌++◌, ◌∷◌, [], ℕ, List, IfOk, take};
ghost use Rattle.swarm_batch.specs.Lines.{IsCut};

use dimensions::Seq;
use std::alloc::{AllocError, Global};

/// The lines of a text without their ends, and what follows the last end of a line.
#[derive(Drop)]
pub(crate) struct Cut {
    pub lines: Seq<Seq<u8>>,
    pub rest: Seq<u8>,
}

impl Cut {
    // A line ends.
    fn end_line(&mut self, alloc: Global) -> Result<(), AllocError>
        ensures { IfOk result (λ u. (text : List ℕ) → IsCut text self.old → IsCut (text ++ 10 ∷ []) self.new) }
    {
        let line = std::mem::replace(&mut self.rest, Seq::new(alloc));
        self.lines.try_push(line)?;
        Ok(())
    }

    // A line goes on.
    fn go_on(&mut self, byte: u8) -> Result<(), AllocError>
        requires { byte ≢ 10 }
        ensures { IfOk result (λ u. (text : List ℕ) → IsCut text self.old → IsCut (text ++ byte ∷ []) self.new) }
    {
        self.rest.try_push(byte)?;
        Ok(())
    }
}

/// Cuts a text at each line feed.
pub(crate) fn cut_lines(alloc: Global, text: &[u8]) -> Result<Cut, AllocError>
    ensures { IfOk result (λ cut. IsCut text.now cut) }
{
    let mut cut = Cut {
        lines: Seq::new(alloc),
        rest: Seq::new(alloc),
    };
    for byte in text {
        if *byte == b'\n' {
            cut.end_line(alloc)?;
        } else {
            cut.go_on(*byte)?;
        }
    }
    Ok(cut)
}
