/// A server as its clients call it.
#[derive(Clone, Copy, Debug)]
pub struct Server<'a> {
    /// What is dialed: a host, `:` and a port.
    pub address: &'a str,
    /// The field `Host` of each request.
    pub host: &'a str,
    /// The caller that each request names.
    pub caller: &'a str,
}
