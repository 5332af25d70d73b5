//! Names of bots, of their sessions and of their claims, and the messages of events.
ghost use Rattle.std.specs.Prelude.{◌≡◌};
ghost use Rattle.std.specs.List.{list_all};
ghost use Rattle.dimensions.specs.Rules.{is_key_byte};
ghost use Rattle.swarm_model.specs.Fits.{is_name as spec_is_name, fits_message as spec_fits_message};

use crate::EventKind;

fn is_name_byte(byte: u8) -> bool
    ensures { result ≡ is_key_byte byte }
{
    byte.is_ascii_alphanumeric() || byte == b'-' || byte == b'_' || byte == b'.'
}

fn has_name_bytes(name: &str) -> bool
    ensures { result ≡ list_all is_key_byte name.now }
{
    name.as_bytes().iter().all(|byte| is_name_byte(*byte))
}

/// Whether the text may name a bot, a session or a claim: 1 to 64 ASCII letters, digits, `-`, `_`
/// and `.`.
pub fn is_name(name: &str) -> bool
    ensures { result ≡ spec_is_name name.now }
{
    1 <= name.len() && name.len() <= 64 && has_name_bytes(name)
}

/// Whether an event of the kind may have the message: at most 256 bytes, of a quarantine at least one.
pub fn fits_message(kind: EventKind, message: &str) -> bool
    ensures { result ≡ spec_fits_message kind message.now }
{
    match kind {
        EventKind::Quarantine => 1 <= message.len() && message.len() <= 256,
        EventKind::Ping | EventKind::Unquarantine => message.len() <= 256,
    }
}
