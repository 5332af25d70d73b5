//! The texts of a host and a port.

ghost use Rattle.std.specs.Prelude.{◌≡◌, IfOk, string_bytes};
ghost use Rattle.client_requests.specs.Addresses.{host_field, with_port as spec_with_port};

use std::alloc::{AllocError, Global};

/// A host with a port behind it.
pub(crate) fn with_port(alloc: Global, host: &str, port: u16) -> Result<String, AllocError>
    ensures { IfOk result (λ text. string_bytes text ≡ spec_with_port host.now port) }
{
    format!(in alloc; "{host}:{port}")
}

/// The value of the field `Host`, with the port where the URL has one.
pub(crate) fn host_value(alloc: Global, host: &str, port: Option<u16>) -> Result<String, AllocError>
    ensures { IfOk result (λ text. string_bytes text ≡ host_field host.now port) }
{
    match port {
        Some(port) => with_port(alloc, host, port),
        None => String::from_str(alloc, host),
    }
}
