ghost use Rattle.std.specs.Prelude.{◌≡◌, IfOk, IfSome, OnOk, List, ℕ, map};
ghost use Rattle.std.specs.List.{fold, list_any};
ghost use Rattle.std.specs.Option.{option_map};
ghost use Rattle.matchit.specs.Level.{IsText};
ghost use Rattle.routes.specs.Routes.{is_question_mark, resource_in, resource_of, pool_part, digest_part};
ghost use Rattle.routes.specs.Rows.{with_row, answer};

use crate::{Resource, Route, targets};
use matchit::{InsertError, Router};
use std::alloc::{AllocError, Global};

/// The targets, and what stands at each.
const ROUTES: &[(&str, Resource)] = &[
    ("/blobs/{pool}", Resource::Call(Route::FindMissing)),
    ("/blobs/{pool}/{digest}", Resource::Blob),
    (targets::CLAIM, Resource::Call(Route::Claim)),
    (targets::EVENT, Resource::Call(Route::Event)),
    (targets::HANDSHAKE, Resource::Call(Route::Handshake)),
    (targets::POLL, Resource::Call(Route::Poll)),
    (targets::TASK_UPDATE, Resource::Call(Route::TaskUpdate)),
    (targets::GET_BOT, Resource::Call(Route::GetBot)),
    (targets::LIST_BOTS, Resource::Call(Route::ListBots)),
    (targets::TERMINATE_BOT, Resource::Call(Route::TerminateBot)),
    (targets::CANCEL_TASK, Resource::Call(Route::CancelTask)),
    (targets::COUNT_TASKS, Resource::Call(Route::CountTasks)),
    (targets::GET_RESULT, Resource::Call(Route::GetResult)),
    (targets::GET_STDOUT, Resource::Call(Route::GetStdout)),
    (targets::LIST_TASKS, Resource::Call(Route::ListTasks)),
    (targets::NEW_TASK, Resource::Call(Route::NewTask)),
];

/// What stands at a target, and the parts of the target that the caller chose. A part that the
/// target doesn't have is empty.
#[derive(Clone, Copy)]
pub struct Found<'a> {
    pub resource: Resource,
    pub pool: &'a str,
    pub digest: &'a str,
}

/// The router of the table.
#[derive(Drop)]
pub struct Routes {
    router: Router<Resource>,
    ghost exact: { (target : List ℕ) → IsText target → answer router target ≡ resource_in target },
}

#[tactic(auto, unfolding(crate::specs::Rows::with_row))]
fn insert_all(router: &mut Router<Resource>, table: &[(&str, Resource)]) -> Result<(), InsertError>
    ensures { OnOk result (router.new ≡ fold with_row router.old (map (λ row. (row.0.now, row.1)) table.now)) }
{
    for (target, resource) in table {
        router.insert(target, *resource)?;
    }
    Ok(())
}

fn build(alloc: Global) -> Result<Router<Resource>, InsertError>
    ensures { IfOk result (λ router. (target : List ℕ) → IsText target → answer router target ≡ resource_in target) }
{
    let mut router = Router::new(alloc);
    insert_all(&mut router, ROUTES)?;
    Ok(router)
}

fn has_question_mark(target: &[u8]) -> bool
    ensures { result ≡ list_any is_question_mark target.now }
{
    target.iter().any(|byte| *byte == b'?')
}

/// The name of the pool and the digest of the blob in a target.
fn parts(target: &str) -> (&str, &str)
    ensures pool { result.0.now ≡ pool_part target.now }
    ensures digest { result.1.now ≡ digest_part target.now }
{
    let Some(path) = target.strip_prefix("/blobs/") else {
        return ("", "");
    };
    match path.split_once('/') {
        Some(parts) => parts,
        None => (path, ""),
    }
}

impl Routes {
    /// The router is never changed.
    ///
    /// # Errors
    ///
    /// There is no memory for it.
    pub fn new(alloc: Global) -> Result<Routes, AllocError> {
        match build(alloc) {
            Ok(router) => Ok(Routes { router }),
            // The paths of the table are well formed and apart, so only memory can be missing.
            Err(_) => Err(AllocError),
        }
    }

    /// What stands at a target, whatever follows a question mark.
    fn resource(&self, target: &str) -> Option<Resource>
        ensures { result ≡ resource_in target.now }
    {
        match self.router.at(target) {
            Ok(found) => Some(*found.value),
            Err(_) => None,
        }
    }

    /// What stands at a target, with no allocation.
    #[tactic(auto, unfolding(crate::specs::Routes::resource_of))]
    pub fn find<'a>(&self, target: &'a str) -> Option<Found<'a>>
        ensures resource { option_map (λ found. found.resource) result ≡ resource_of target.now }
        ensures pool { IfSome result (λ found. found.pool.now ≡ pool_part target.now) }
        ensures digest { IfSome result (λ found. found.digest.now ≡ digest_part target.now) }
    {
        if has_question_mark(target.as_bytes()) {
            return None;
        }
        let resource = self.resource(target)?;
        let (pool, digest) = parts(target);
        Some(Found {
            resource,
            pool,
            digest,
        })
    }
}
