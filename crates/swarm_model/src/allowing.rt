ghost use Rattle.std.specs.Prelude.{◌≡◌, codes, ◌||◌};
ghost use Rattle.std.specs.List.{list_any};
ghost use Rattle.dimensions.specs.Alike.{same};
ghost use Rattle.swarm_model.specs.Permissions.{is_permission};
ghost use Rattle.swarm_model.specs.Settings.{gives, permits};

use crate::{Grant, Permission, PoolSettings};
use dimensions::Text;

fn is_permission(wanted: Permission, permission: Permission) -> bool
    ensures { result ≡ is_permission wanted permission }
{
    permission == wanted
}

/// Whether the grant is for this caller, or for every one.
fn is_for(who: &Text, grant: &Grant) -> bool
    ensures { result ≡ (same grant.now.caller who.now || same grant.now.caller (codes "*")) }
{
    grant.caller == *who || grant.caller.as_str() == "*"
}

fn lists(wanted: Permission, grant: &Grant) -> bool
    ensures { result ≡ list_any (is_permission wanted) grant.now.permissions }
{
    grant
        .permissions
        .as_slice()
        .iter()
        .any(|permission| is_permission(wanted, *permission))
}

fn gives(who: &Text, wanted: Permission, grant: &Grant) -> bool
    ensures { result ≡ gives who.now wanted grant.now }
{
    is_for(who, grant) && lists(wanted, grant)
}

/// Whether the pool gives the caller the permission, by a grant of its own or by one for every
/// caller. It takes no memory.
pub fn allowed(settings: &PoolSettings, who: &Text, permission: Permission) -> bool
    ensures { result ≡ permits settings.now who.now permission }
{
    settings
        .grants
        .as_slice()
        .iter()
        .any(|grant| gives(who, permission, grant))
}
