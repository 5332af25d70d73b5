use crate::{After, Method};

/// What the head of a request says that may be served.
#[derive(Clone, Copy, Debug, PartialEq, Eq)]
pub struct Head<'a> {
    pub method: Method,
    /// The target as it stands, with nothing decoded.
    pub target: &'a str,
    /// The bytes of the body.
    pub size: u32,
    /// The connection ends with the reply.
    pub closes: bool,
    /// The caller: 1 to 128 bytes from 0x21 to 0x7E.
    pub caller: Option<&'a str>,
    pub after: After,
}
