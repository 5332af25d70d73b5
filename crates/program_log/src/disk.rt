//! Reads and writes whole files.
ghost use Rattle.std.specs.Prelude.{◌≡◌, ◌≤◌, IfOk, OnOk, IfSome, length};
ghost use Rattle.std.specs.Io.KnownBytes.{Appends};

use std::alloc::Global;
use std::fs::OpenFile;
use std::io::{ErrorKind, Read, Write};
use std::{fs, io};

/// All that is left of a file, where that is at most so many bytes. It keeps no more of a longer one,
/// whose error is `FileTooLarge`.
#[tactic(auto, using(sw_base::proofs::Whole::none_yet, sw_base::proofs::Whole::one_more, sw_base::proofs::Whole::none_more, sw_base::proofs::Whole::all_of_it))]
pub(crate) fn read_up_to<F: Read>(alloc: Global, file: &mut F, most: u64) -> io::Result<Vec<u8>>
    ensures bound { IfOk result (λ bytes. length bytes.items ≤ most) }
    ensures whole { IfOk result (λ bytes. IfSome (F.remaining file.old) (λ left. bytes.items ≡ left)) }
{
    let mut bytes = Vec::new(alloc);
    let mut piece = [0; 4096];
    for _ in 0..u64::MAX {
        match file.read(&mut piece) {
            Ok(0) => return Ok(bytes),
            Ok(n) => {
                if bytes.len() as u64 + n as u64 > most {
                    return Err(io::Error::from(ErrorKind::FileTooLarge));
                }
                bytes.extend_from_slice(&piece[..n])?;
            }
            Err(error) => {
                if error.kind() != ErrorKind::Interrupted {
                    return Err(error);
                }
            }
        }
    }
    Err(io::Error::from(ErrorKind::Interrupted))
}

/// Writes all the bytes to a file, and syncs it.
fn write_synced<F: Write + OpenFile>(file: &mut F, bytes: &[u8]) -> io::Result<()>
    ensures whole { OnOk result (Appends (F.contents file.old) (F.contents file.new) bytes.now) }
{
    file.write_all(bytes)?;
    file.sync_all()
}

/// Makes a file of these bytes at a path, or makes an old one anew.
pub(crate) fn write_file<R: fs::Files>(disk: &R, path: &str, bytes: &[u8]) -> io::Result<()> {
    let mut file = fs::create(disk, path)?;
    write_synced(&mut file, bytes)
}
