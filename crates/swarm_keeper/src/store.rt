ghost use Rattle.std.specs.Prelude.{◌≡◌, ◌==◌, IfOk, IfErr, MatchBool};
ghost use Rattle.sw_base.specs.Faults.{Rose};
ghost use Rattle.swarm_keeper.specs.Stores.{StoreState, HasPlace, PlacesStay, IsAttached, NotAttached, Detaches};

use crate::Keeper;
use std::alloc::Global;
use sw_base::StartFault;

/// Where the records of pools are kept, by folder and pool.
pub trait Store {
    type Keeper: Keeper + Drop;

    /// What the store tells.
    ghost state: { Self → StoreState };

    /// Hands out the keeper of a pool's records in a folder. They are made where there are none.
    fn attach(
        &mut self,
        alloc: Global,
        folder: &str,
        pool: &str,
    ) -> Result<Self::Keeper, StartFault>
        ensures attached { IfOk result (λ keeper. IsAttached (state self.old) (state self.new) folder.now pool.now (Self.Keeper.tables keeper) (Self.Keeper.faults keeper)) }
        ensures not_attached { IfErr result (NotAttached (state self.old) (state self.new)) }
        ensures places { PlacesStay (state self.old) (state self.new) };

    /// Takes back the keeper that it handed out for the folder and pool. It takes no memory.
    fn detach(&mut self, folder: &str, pool: &str, keeper: Self::Keeper)
        requires { HasPlace (state self.old) folder.now pool.now }
        ensures detaches { Detaches (state self.old) (state self.new) folder.now pool.now (Self.Keeper.tables keeper) (Self.Keeper.faults keeper) }
        ensures places { PlacesStay (state self.old) (state self.new) };
}

/// A store's count of faults once it took back a keeper that has counted so many: a keeper that
/// failed counts as one.
pub fn faults_after(faults: u64, keeper_faults: u64) -> u64
    ensures { MatchBool (keeper_faults == 0) (faults ≡ result) (Rose faults result) }
{
    if keeper_faults == 0 {
        faults
    } else {
        faults.saturating_add(1)
    }
}
