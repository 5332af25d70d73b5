//! Reading the address.

ghost use Rattle.std.specs.Prelude.{◌≡◌, Err, IfOk, None, Some, codes, option_map, string_bytes};
ghost use Rattle.url.specs.Host.{host_text};
ghost use Rattle.url.specs.Parts.{nonempty_host};
ghost use Rattle.client_requests.specs.Addresses.{address_of, texts_of, url_texts};

use crate::texts::{host_value, with_port};
use std::alloc::{AllocError, Global};
use std::error::Error;
use std::fmt;
use url::{ParseError, Url};

/// Where a server is.
#[derive(Debug, Drop)]
pub struct ServerAddress {
    /// What is dialed: the host, `:` and the port. The port is 80 where the URL has none.
    pub dial: String,
    /// The value of the field `Host`: the host, with `:` and the port where the URL has one. The
    /// standard drops a written `:80`, so such a URL has none.
    pub host: String,
}

/// Why a text gives no address.
#[derive(Clone, Copy, Debug, PartialEq, Eq)]
pub enum AddressFault {
    /// There was no memory for it.
    Memory,
    /// It is no `http` URL with a host.
    Grammar,
}

impl fmt::Display for AddressFault {
    ghost use Rattle.std.specs.Prelude.{Some};
    ghost use Rattle.client_requests.specs.Faults.{fault_text};

    ghost output = { λ fault. Some (fault_text fault) };

    fn fmt<W: fmt::Write>(&self, f: &mut fmt::Formatter<W>) -> fmt::Result {
        match self {
            AddressFault::Memory => f.write_str("want of memory"),
            AddressFault::Grammar => f.write_str("not an http URL with a host"),
        }
    }
}

impl Error for AddressFault {}

fn texts(alloc: Global, host: &str, port: Option<u16>) -> Result<ServerAddress, AllocError>
    ensures { IfOk result (λ a. (string_bytes a.dial, string_bytes a.host) ≡ texts_of host.now port) }
{
    let dial = with_port(alloc, host, port.unwrap_or(80))?;
    let host = host_value(alloc, host, port)?;
    Ok(ServerAddress { dial, host })
}

fn url_address(alloc: Global, url: &Url) -> Result<ServerAddress, AddressFault>
    ensures ok { IfOk result (λ a. url_texts url.now ≡ Some (string_bytes a.dial, string_bytes a.host)) }
    ensures grammar { result ≡ Err AddressFault.Grammar → url_texts url.now ≡ None }
{
    if url.scheme() != "http" {
        return Err(AddressFault::Grammar);
    }
    let Some(host) = url.host_str() else {
        return Err(AddressFault::Grammar);
    };
    match texts(alloc, host, url.port()) {
        Ok(address) => Ok(address),
        Err(_) => Err(AddressFault::Memory),
    }
}

/// Reads the address of a server, an `http` URL with a host by the URL standard. Whatever else the
/// URL has, as a path or a user's name, is allowed, and is dropped.
///
/// # Errors
///
/// [`AddressFault::Grammar`] where the text is no such URL, and else want of memory.
pub fn read_address(alloc: Global, text: &str) -> Result<ServerAddress, AddressFault>
    ensures ok { IfOk result (λ a. address_of text.now ≡ Some (string_bytes a.dial, string_bytes a.host)) }
    ensures grammar { result ≡ Err AddressFault.Grammar → address_of text.now ≡ None }
{
    match Url::parse(alloc, text) {
        Ok(url) => url_address(alloc, &url),
        Err(ParseError::OutOfMemory | ParseError::Overflow) => Err(AddressFault::Memory),
        Err(_) => Err(AddressFault::Grammar),
    }
}
