//! The requests and the bytes of a whole drill.
ghost use Rattle.std.specs.Prelude.{◌≡◌, IfOk, length};
ghost use Rattle.drill_requests.specs.Requests.{handshakes, requests};
ghost use Rattle.drill_requests.specs.Texts.{drill_bytes};

use crate::cycle::{cycle_length, push_cycle};
use crate::text::append_request;
use crate::{Draws, DrillRequest};
use std::alloc::{AllocError, Global};

fn handshakes(alloc: Global) -> Result<Vec<DrillRequest>, AllocError>
    ensures { IfOk result (λ all. all.items ≡ handshakes) }
{
    (1..9)
        .map(|bot| DrillRequest::Handshake { bot })
        .collect(alloc)
}

/// The requests of a drill, from a start and with so many cycles: those of `requests` of
/// `specs/Requests.antt`.
pub fn drill_requests(
    alloc: Global,
    start: u32,
    cycles: u32,
) -> Result<Vec<DrillRequest>, AllocError>
    ensures { IfOk result (λ all. all.items ≡ requests start cycles) }
{
    let mut requests = handshakes(alloc)?;
    let mut draws = Draws::new(start);
    for done in 0..cycles {
        push_cycle(&mut requests, &mut draws, done + 1)?;
    }
    Ok(requests)
}

/// How many requests a drill has, from a start and with so many cycles.
pub fn request_count(start: u32, cycles: u32) -> u64
    ensures { result ≡ length (requests start cycles) }
{
    let mut count = 8;
    let mut draws = Draws::new(start);
    for done in 0..cycles {
        count += cycle_length(&mut draws);
    }
    count
}

/// The bytes of a drill, from a start and with so many cycles: each request with its head, one behind
/// the other, as one connection takes them.
///
/// A connection answers 65536 requests at most, and a cycle has up to four: with more than 16382
/// cycles it may end before the last one.
pub fn drill_input(alloc: Global, start: u32, cycles: u32) -> Result<Vec<u8>, AllocError>
    ensures { IfOk result (λ bytes. bytes.items ≡ drill_bytes start cycles) }
{
    let requests = drill_requests(alloc, start, cycles)?;
    let mut bytes = Vec::new(alloc);
    for request in &requests {
        append_request(alloc, &mut bytes, *request)?;
    }
    Ok(bytes)
}
