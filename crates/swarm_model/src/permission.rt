use dimensions::TryCopy;
use std::alloc::{AllocError, Global};

/// What a caller may do in a pool.
#[derive(Clone, Copy, Debug, PartialEq, Eq)]
pub enum Permission {
    CreateTask,
    CancelTask,
    ListTasks,
    ListBots,
    TerminateBot,
    RunBot,
    UseBlobs,
}

/// All permissions, in their order.
const PERMISSIONS: [Permission; 7] = [
    Permission::CreateTask,
    Permission::CancelTask,
    Permission::ListTasks,
    Permission::ListBots,
    Permission::TerminateBot,
    Permission::RunBot,
    Permission::UseBlobs,
];

impl Permission {
    ghost use Rattle.std.specs.Prelude.{◌≡◌};
    ghost use Rattle.swarm_model.specs.Permissions.{permission_name, permission_named};

    /// The name of the permission, in settings and in a refusal: the one that LUCI has in its
    /// realms, or one of this server's own.
    pub fn name(self) -> &'static str
        ensures { result.now ≡ permission_name self }
    {
        match self {
            Permission::CreateTask => "swarming.pools.createTask",
            Permission::CancelTask => "swarming.pools.cancelTask",
            Permission::ListTasks => "swarming.pools.listTasks",
            Permission::ListBots => "swarming.pools.listBots",
            Permission::TerminateBot => "swarming.pools.terminateBot",
            Permission::RunBot => "profile.pools.runBot",
            Permission::UseBlobs => "profile.pools.useBlobs",
        }
    }

    /// The permission of a name.
    #[tactic(auto, unfolding(crate::specs::Permissions::permission_named))]
    pub fn from_name(name: &str) -> Option<Permission>
        ensures { result ≡ permission_named name.now }
    {
        PERMISSIONS
            .iter()
            .copied()
            .find(|permission| permission.name() == name)
    }
}

impl TryCopy for Permission {
    fn try_copy(&self, _alloc: Global) -> Result<Permission, AllocError> {
        Ok(*self)
    }
}
