/// Why the command of a client or of a bot is not carried out.
#[derive(Clone, Copy, Debug, PartialEq, Eq)]
pub(crate) enum OptionFault {
    Memory,
    /// The server is no `http` URL with a host.
    Server,
    /// The caller is not 1 to 128 visible bytes.
    Caller,
    /// The id is none of a task, or no bot may have that name.
    Id,
    /// The state is neither `ALL` nor a state's name.
    State,
    /// The name is none of a batch.
    Name,
    /// The dimensions are none that the bot may have.
    Dimensions,
}
