//! The routes: the targets that are served, and what stands at each.
//!
//! The table is data, `ROUTES` of `src/routes.rt` and `routes` of `specs/Routes.antt`: a new route is
//! a variant of [`Route`], its target in `src/targets.rt` and one line in each of the two. A target
//! below `/blobs/` has parts that the caller chooses: the name of a pool, and the digest of a blob.
//! [`Routes`] is the router of `matchit` that holds the table. That it answers what the table says is an invariant of the type,
//! so `resource_of`, the meaning of [`Routes::find`], names no router.
//!
//! The crate stands on `dimensions`, for the comparison of texts, and on `matchit`.
#![tactic(auto)]

mod resource;
mod route;
mod routes;
pub mod targets;

pub use resource::Resource;
pub use route::Route;
pub use routes::{Found, Routes};
