use crate::Told;

/// What an exchange comes to.
#[derive(Drop)]
pub enum Exchanged {
    /// What the reply tells of the call.
    Told(Told),
    /// No call failed, and the bytes that came are no reply to the call.
    NoReply,
    /// The dial failed, or a call on the link.
    Lost,
    Memory,
}
