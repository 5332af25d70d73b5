use crate::TranscriptError;
use crate::parts::{form_error, read_number};
use std::alloc::Global;

/// Which calls a run is repeated for: each of them fails in a run of its own, until a run meets none
/// that fails.
#[derive(Clone, Copy, Debug, PartialEq, Eq)]
pub enum Each {
    /// The calls on the console.
    LinkCall,
    /// The calls on the link of this number that comes.
    ConnectionCall { at: usize },
    /// The calls on the link of this number that is dialed.
    DialedCall { at: usize },
    /// The dials.
    Dial,
    /// Those of the keeper of this number, which is the run's own. So many of them append an entry.
    KeeperCall { keeper: usize, appends: usize },
    /// No call, but each line of the first records that the run puts into its store is cut by its last
    /// byte.
    CutLine,
}

/// What a run is repeated for, as a line tells it.
pub(crate) fn read_each(alloc: Global, line: usize, entry: &str) -> Result<Each, TranscriptError> {
    let (kind, rest) = entry.split_once(' ').unwrap_or((entry, ""));
    match (kind, rest) {
        ("link", "") => Ok(Each::LinkCall),
        ("connection", _) => Ok(Each::ConnectionCall {
            at: read_number(alloc, line, rest)?,
        }),
        ("dialed", _) => Ok(Each::DialedCall {
            at: read_number(alloc, line, rest)?,
        }),
        ("dial", "") => Ok(Each::Dial),
        ("cut_line", "") => Ok(Each::CutLine),
        ("keeper", _) => {
            let Some((keeper, appends)) = rest.split_once(' ') else {
                return Err(form_error(alloc, line, "KEEPER APPENDS", rest));
            };
            Ok(Each::KeeperCall {
                keeper: read_number(alloc, line, keeper)?,
                appends: read_number(alloc, line, appends)?,
            })
        }
        _ => Err(form_error(alloc, line, "a kind of call", entry)),
    }
}
