//! The names of sessions and of claims.
ghost use Rattle.std.specs.Prelude.{◌≡◌, IfOk, string_bytes};
ghost use Rattle.bot_requests.specs.Bodies.{session_name as spec_session_name, claim_name as spec_claim_name};

use std::alloc::{AllocError, Global};

#[tactic(auto, unfolding(crate::specs::Bodies::session_name))]
pub(crate) fn session_name(alloc: Global, first: u64, session: u64) -> Result<String, AllocError>
    ensures { IfOk result (λ name. string_bytes name ≡ spec_session_name first session) }
{
    format!(in alloc; "{first}-{session}")
}

#[tactic(auto, unfolding(crate::specs::Bodies::claim_name))]
pub(crate) fn claim_name(
    alloc: Global,
    first: u64,
    session: u64,
    claim: u64,
) -> Result<String, AllocError>
    ensures { IfOk result (λ name. string_bytes name ≡ spec_claim_name first session claim) }
{
    format!(in alloc; "{first}-{session}-{claim}")
}
