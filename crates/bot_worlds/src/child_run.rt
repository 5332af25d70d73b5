use dimensions::{Seq, Text};

/// A run that the bot was told of, with what its command did.
#[derive(Drop)]
pub struct ChildRun {
    /// The id of the claim that was answered with it.
    pub claim: Text,
    pub task: u32,
    pub try_no: u32,
    /// How often the command was started.
    pub started: u32,
    /// All output of the command, in bytes.
    pub wrote: Seq<u8>,
}
