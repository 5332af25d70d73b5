ghost use Rattle.run_folders.specs.Finds.{Finds};

use std::io;
use std::io::ErrorKind;

/// What was found, where an answer says that nothing is there or what is.
pub(crate) fn found<T>(answer: io::Result<T>) -> io::Result<Option<T>>
    ensures { Finds answer result }
{
    match answer {
        Ok(there) => Ok(Some(there)),
        Err(error) if error.kind() == ErrorKind::NotFound => Ok(None),
        Err(error) => Err(error),
    }
}
