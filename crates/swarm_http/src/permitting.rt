//! The permission that a request needs before its pool is asked.
ghost use Rattle.std.specs.Prelude.{◌≡◌, ◌<◌, Err, IfErr, Ok, OnOk, length};
ghost use Rattle.swarm_wire.specs.declared.asked.Asked.{Asked};
ghost use Rattle.swarm_http.specs.Permissions.{permission_of as spec_permission_of, permitted};
ghost use Rattle.swarm_http.specs.Steps.{IsRejection};

use crate::reply::{Refusal, ReplyBytes, refusal_reply};
use dimensions::{Text, TryCopy};
use std::alloc::Global;
use swarm_model::{Permission, Request, Rule, Settings, allowed};
use swarm_wire::Asked;

/// The permission without which the pool of a request is not asked. Whether a caller may cancel a
/// task, or see its result or its output, the pool itself decides: the task's creator needs no
/// permission.
pub fn permission_of(request: &Request) -> Option<Permission>
    ensures { result ≡ spec_permission_of request.now }
{
    match request {
        Request::New(_) => Some(Permission::CreateTask),
        Request::List { .. } | Request::Count { .. } => Some(Permission::ListTasks),
        Request::Bots { .. } | Request::Bot { .. } => Some(Permission::ListBots),
        Request::Handshake { .. }
        | Request::Poll { .. }
        | Request::Claim { .. }
        | Request::Event { .. }
        | Request::Update { .. } => Some(Permission::RunBot),
        Request::Terminate { .. } => Some(Permission::TerminateBot),
        Request::PutBlob { .. } | Request::GetBlob { .. } | Request::FindMissing { .. } => {
            Some(Permission::UseBlobs)
        }
        Request::Cancel { .. } | Request::Result { .. } | Request::Stdout { .. } => None,
    }
}

/// The refusal of a caller to whom the pool of this name doesn't give the permission.
fn denied(alloc: Global, permission: Permission, pool: &Text) -> ReplyBytes
    ensures { IsRejection {A = Asked} result (Err (Rule.Denied permission pool.now)) }
{
    match pool.try_copy(alloc) {
        Ok(pool) => refusal_reply(alloc, Rule::Denied { permission, pool }),
        Err(_) => ReplyBytes::Refused(Refusal::WantOfMemory),
    }
}

/// Checks that the pool of a request gives the caller the permission that the request needs.
///
/// # Errors
///
/// The reply of the refusal, or that for want of memory.
pub fn check_permission(
    alloc: Global,
    settings: &Settings,
    who: &Text,
    asked: &Asked,
) -> Result<(), ReplyBytes>
    requires place { asked.now.place < length settings.now.pools }
    ensures permitted { OnOk result (permitted settings.now who.now asked.now ≡ Ok asked.now) }
    ensures denied { IfErr result (λ shown. IsRejection shown (permitted settings.now who.now asked.now)) }
{
    let Some(permission) = permission_of(&asked.request) else {
        return Ok(());
    };
    let place = asked.place as usize;
    let pool = &settings.pools.as_slice()[place];
    if allowed(pool, who, permission) {
        Ok(())
    } else {
        Err(denied(alloc, permission, &pool.name))
    }
}
