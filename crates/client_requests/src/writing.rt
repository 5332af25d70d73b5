ghost use Rattle.std.specs.Prelude.{◌≡◌, IfOk, string_bytes};
ghost use Rattle.client_requests.specs.Requests.{head_text as spec_head_text, request_text as spec_request_text};

use std::alloc::{AllocError, Global};

#[tactic(auto, unfolding(crate::specs::Requests::head_text))]
fn head_text(
    alloc: Global,
    method: &str,
    path: &str,
    host: &str,
    caller: &str,
    size: usize,
) -> Result<String, AllocError>
    ensures { IfOk result (λ text. string_bytes text ≡ spec_head_text method.now path.now host.now caller.now size) }
{
    format!(in alloc;
        "{method} {path} HTTP/1.1\r\nHost: {host}\r\nX-Swarming-Caller: {caller}\r\nContent-Length: {size}\r\n\r\n"
    )
}

/// The bytes of a request: its head, and then its body, which may be empty. The method, the path, the
/// host and the caller stand in the head as they are given.
///
/// # Errors
///
/// Only want of memory.
pub fn request_text(
    alloc: Global,
    method: &str,
    path: &str,
    host: &str,
    caller: &str,
    body: &[u8],
) -> Result<Vec<u8>, AllocError>
    ensures { IfOk result (λ text. text.items ≡ spec_request_text method.now path.now host.now caller.now body.now) }
{
    let mut text = head_text(alloc, method, path, host, caller, body.len())?.into_bytes();
    text.extend_from_slice(body)?;
    Ok(text)
}
