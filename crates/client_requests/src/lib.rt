//! What a client or a bot needs to ask a server: where the server is, and the bytes of a request.
//!
//! [`read_address`] reads the address of a server with `url`: an `http` URL with a host, by the URL
//! standard. `address_of` of `specs/Addresses` gives both texts that a client needs, the one that it
//! dials and the value of the field `Host`.
//!
//! [`request_text`] writes the head and the body of one request of HTTP/1.1: the request line, and
//! the fields `Host`, `X-Swarming-Caller` and `Content-Length`, in this order (RFC 9112). What it
//! writes is exactly `request_text` of `specs/Requests.antt`.
#![tactic(auto)]

mod address;
mod texts;
mod writing;

pub use address::{AddressFault, ServerAddress, read_address};
pub use writing::request_text;
