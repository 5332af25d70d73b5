//! A request as it stands on the connection.
ghost use Rattle.std.specs.Prelude.{◌≡◌, ◌++◌, IfOk, OnOk, string_bytes};
ghost use Rattle.drill_requests.specs.Texts.{target, head, request_bytes};

use crate::DrillRequest;
use crate::body::body_of;
use std::alloc::{AllocError, Global};

fn target_of(request: DrillRequest) -> &'static str
    ensures { result.now ≡ target request }
{
    match request {
        DrillRequest::Handshake { .. } => "/bot/handshake",
        DrillRequest::NewTask { .. } => "/prpc/swarming.v2.Tasks/NewTask",
        DrillRequest::CancelTask { .. } => "/prpc/swarming.v2.Tasks/CancelTask",
        DrillRequest::Claim { .. } => "/bot/claim",
        DrillRequest::FinalUpdate { .. } => "/bot/task_update",
    }
}

#[tactic(auto, using(crate::proofs::Pieces::pieces), unfolding(crate::specs::Texts::head))]
fn head_of(alloc: Global, request: DrillRequest, size: usize) -> Result<String, AllocError>
    ensures { IfOk result (λ text. string_bytes text ≡ head request size) }
{
    let target = target_of(request);
    format!(in alloc;
        "POST {target} HTTP/1.1\r\nHost: drill\r\nX-Swarming-Caller: drill\r\nContent-Length: {size}\r\n\r\n"
    )
}

/// Writes a request behind what is there: its head, with the fields that a client of the program
/// writes, and its body.
#[tactic(auto, using(crate::proofs::Pieces::pieces), unfolding(crate::specs::Texts::request_bytes))]
pub fn append_request(
    alloc: Global,
    bytes: &mut Vec<u8>,
    request: DrillRequest,
) -> Result<(), AllocError>
    ensures { OnOk result (bytes.new.items ≡ bytes.old.items ++ request_bytes request) }
{
    let body = body_of(alloc, request)?;
    let head = head_of(alloc, request, body.len())?;
    bytes.extend_from_slice(head.as_bytes())?;
    bytes.extend_from_slice(body.as_bytes())
}
