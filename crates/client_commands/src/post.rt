//! What is posted to a server.
ghost use Rattle.std.specs.Prelude.{◌≡◌, ◌≤◌, Some, IfOk, string_bytes, vec_items};
ghost use Rattle.serde_json.specs.Data.{depth};
ghost use Rattle.serde_json.specs.Read.{max_depth};
ghost use Rattle.serde_json.specs.View.{view};
ghost use Rattle.json_fields.specs.Readings.{reading};

use routes::Route;
use serde_json::Value;
use std::alloc::{AllocError, Global};

/// A request of a call: its route, the path to which it is posted, and its body.
#[derive(Drop)]
pub(crate) struct Post {
    pub route: Route,
    pub path: &'static str,
    pub body: Vec<u8>,
}

/// The text of a value, which is read back as the value.
fn text_of(alloc: Global, value: &Value) -> Result<String, AllocError>
    requires { depth (view value.now) ≤ max_depth }
    ensures { IfOk result (λ text. reading (string_bytes text) ≡ Some (view value.now)) }
{
    value.to_string(alloc)
}

/// What is posted with a JSON value as its body.
pub(crate) fn post_of(
    alloc: Global,
    route: Route,
    path: &'static str,
    value: &Value,
) -> Result<Post, AllocError>
    requires { depth (view value.now) ≤ max_depth }
    ensures { IfOk result (λ post. (route ≡ post.route) × (path.now ≡ post.path.now) × (reading (vec_items post.body) ≡ Some (view value.now))) }
{
    let text = text_of(alloc, value)?;
    Ok(Post {
        route,
        path,
        body: text.into_bytes(),
    })
}
