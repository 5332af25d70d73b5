use std::alloc::{AllocError, Global};

/// The bytes of a request, with these further fields in its head.
pub(crate) fn request_bytes(
    alloc: Global,
    method: &str,
    path: &[u8],
    caller: &str,
    fields: &[u8],
    body: &[u8],
) -> Result<Vec<u8>, AllocError> {
    let size = body.len();
    let head = format!(in alloc;
        " HTTP/1.1\r\nX-Swarming-Caller: {caller}\r\nContent-Length: {size}\r\n"
    )?;
    let mut bytes = Vec::from_slice(alloc, method.as_bytes())?;
    bytes.extend_from_slice(b" ")?;
    bytes.extend_from_slice(path)?;
    bytes.extend_from_slice(head.as_bytes())?;
    bytes.extend_from_slice(fields)?;
    bytes.extend_from_slice(b"\r\n")?;
    bytes.extend_from_slice(body)?;
    Ok(bytes)
}

/// The bytes of a request that the program writes to the server `lab`.
pub(crate) fn dialed_bytes(
    alloc: Global,
    method: &str,
    path: &[u8],
    caller: &str,
    body: &[u8],
) -> Result<Vec<u8>, AllocError> {
    let size = body.len();
    let head = format!(in alloc;
        " HTTP/1.1\r\nHost: lab\r\nX-Swarming-Caller: {caller}\r\nContent-Length: {size}\r\n\r\n"
    )?;
    let mut bytes = Vec::from_slice(alloc, method.as_bytes())?;
    bytes.extend_from_slice(b" ")?;
    bytes.extend_from_slice(path)?;
    bytes.extend_from_slice(head.as_bytes())?;
    bytes.extend_from_slice(body)?;
    Ok(bytes)
}

/// The bytes of a reply. The front `-` stands for none.
pub(crate) fn reply_bytes(
    alloc: Global,
    status: &str,
    content_type: &str,
    front: &str,
    body: &[u8],
) -> Result<Vec<u8>, AllocError> {
    let size = body.len();
    let mut head = format!(in alloc;
        "HTTP/1.1 {status}\r\nContent-Length: {size}\r\nContent-Type: {content_type}\r\n"
    )?;
    if front != "-" {
        write!(head, "X-Swarming-Front: {front}\r\n")?;
    }
    head.push_str("\r\n")?;
    let mut bytes = Vec::from_slice(alloc, head.as_bytes())?;
    bytes.extend_from_slice(body)?;
    Ok(bytes)
}
