//! Columns of a fixed width.
ghost use Rattle.std.specs.Prelude.{◌≡◌, ◌++◌, ◌≤◌, OnOk};
ghost use Rattle.client_commands.specs.Commands.{left_in, right_in};

use std::alloc::AllocError;

const SPACES: &[u8] = b"                        ";

/// Appends a text and the spaces that it lacks of a width of at most 24 bytes.
pub(crate) fn push_left(line: &mut Vec<u8>, text: &[u8], width: usize) -> Result<(), AllocError>
    requires { width ≤ 24 }
    ensures { OnOk result (line.new.items ≡ line.old.items ++ left_in width text.now) }
{
    line.extend_from_slice(text)?;
    line.extend_from_slice(&SPACES[..width.saturating_sub(text.len())])
}

/// The same, with the spaces in front.
pub(crate) fn push_right(line: &mut Vec<u8>, text: &[u8], width: usize) -> Result<(), AllocError>
    requires { width ≤ 24 }
    ensures { OnOk result (line.new.items ≡ line.old.items ++ right_in width text.now) }
{
    line.extend_from_slice(&SPACES[..width.saturating_sub(text.len())])?;
    line.extend_from_slice(text)
}
