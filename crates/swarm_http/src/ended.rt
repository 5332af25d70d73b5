/// How a connection ended.
#[derive(Clone, Copy, Debug, PartialEq, Eq)]
pub enum Ended {
    /// The input ended between requests.
    Closed,
    /// The last request was of version 1.0, or asked to close the connection.
    LastAsked,
    /// The input ended inside a request.
    CutShort,
    /// The refusal of a head was written.
    BadHead,
    /// As many requests were answered as one connection may ask.
    Retired,
    ReadFault,
    WriteFault,
}
