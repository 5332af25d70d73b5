use crate::Reply;
use std::alloc::{AllocError, Global};

/// What goes over one link of a run: the bytes that come from it, and those that the program is to
/// write to it.
#[derive(Drop)]
pub struct Conversation {
    /// The line at which it begins.
    pub line: usize,
    /// The bytes that come.
    pub input: Vec<u8>,
    pub replies: Vec<Reply>,
    /// The bytes of the replies, one after the other.
    pub output: Vec<u8>,
    /// The numbers of the calls on the link that fail.
    pub fails: Vec<u64>,
}

impl Conversation {
    /// One over which nothing goes.
    pub(crate) fn new(alloc: Global, line: usize) -> Conversation {
        Conversation {
            line,
            input: Vec::new(alloc),
            replies: Vec::new(alloc),
            output: Vec::new(alloc),
            fails: Vec::new(alloc),
        }
    }

    /// Adds a reply that stands at a line.
    pub(crate) fn add_reply(&mut self, line: usize, bytes: Vec<u8>) -> Result<(), AllocError> {
        self.output.extend_from_slice(bytes.as_slice())?;
        self.replies.push(Reply { line, bytes })?;
        Ok(())
    }

    /// Adds the rows of another one.
    pub(crate) fn add_rows(
        &mut self,
        alloc: Global,
        other: &Conversation,
    ) -> Result<(), AllocError> {
        self.input.extend_from_slice(other.input.as_slice())?;
        for reply in other.replies.iter() {
            let bytes = Vec::from_slice(alloc, reply.bytes.as_slice())?;
            self.add_reply(reply.line, bytes)?;
        }
        Ok(())
    }
}
