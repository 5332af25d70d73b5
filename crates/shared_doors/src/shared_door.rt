ghost use Rattle.std.specs.Prelude.{◌≡◌};
ghost use Rattle.shared_doors.specs.Machines.{lasting_in};
ghost use Rattle.shared_doors.specs.OneProof.{are_of_one};
ghost use Rattle.shared_doors.specs.SharedDoors.{identities_of, pools_of, shared_door};
ghost use Rattle.shared_doors.specs.Views.{AreOf, views};

use crate::kept::Kept;
use crate::places::take_at;
use crate::server::{Passes, Server};
use crate::shared_desk::take_turn;
use crate::view::Lasting;
use pool_doors::{Answered, CallFault, Door, PoolCall};
use std::sync::Wait;
use swarm_keeper::Keeper;
use swarm_model::{Entry, Machine};
use turnstile::{Counted, Pass};

/// A door to the pools of a server, to which others write as well. A call waits for the turn of its
/// pool, and takes one turn. It counts as many calls as the pass with the most turns took turns.
#[derive(Drop)]
pub struct SharedDoor<'a, M: Machine + Drop, K: Keeper + Drop, R: Wait>
where
    Kept<M, K>: Counted<Item = Entry, Fixed = Lasting>,
{
    rt: &'a R,
    pub server: &'a Server<M, K>,
    /// One for each pool, in the order of the pools.
    passes: Vec<Option<Pass<Kept<M, K>>>>,
    ghost own: { AreOf (lasting_in M.kept) server.now.turnstiles.items passes.items } by { are_of_one _ _ _ },
}

impl<'a, M: Machine + Drop, K: Keeper + Drop, R: Wait> SharedDoor<'a, M, K, R> {
    /// A door of the server, with these passes.
    pub fn new(rt: &'a R, server: &'a Server<M, K>, passes: Passes<M, K>) -> SharedDoor<'a, M, K, R>
        requires own { AreOf (lasting_in M.kept) server.now.turnstiles.items passes.passes.items }
        ensures server { result.server.now ≡ server.now }
        ensures state { ⟦<SharedDoor<'a, M, K, R> as Door>⟧.state result ≡ shared_door server.now.store (pools_of (lasting_in M.kept) server.now.turnstiles.items) (identities_of server.now.turnstiles.items) (views passes.passes.items) }
    {
        let Passes { passes } = passes;
        SharedDoor { rt, server, passes }
    }

    /// The passes, which know what the door had seen. The server is the one with which the door was
    /// made: what the door tells of its logs and settings is what the server has.
    pub fn end(self, server: &Server<M, K>) -> Passes<M, K>
        requires logs { (⟦<SharedDoor<'a, M, K, R> as Door>⟧.state self).writer.logs ≡ identities_of server.now.turnstiles.items }
        requires settings { (⟦<SharedDoor<'a, M, K, R> as Door>⟧.state self).settings ≡ record { store = server.now.store; pools = pools_of (lasting_in M.kept) server.now.turnstiles.items } }
        ensures own { AreOf (lasting_in M.kept) server.now.turnstiles.items result.passes.items }
        ensures state { ⟦<SharedDoor<'a, M, K, R> as Door>⟧.state self.entry ≡ shared_door server.now.store (pools_of (lasting_in M.kept) server.now.turnstiles.items) (identities_of server.now.turnstiles.items) (views result.passes.items) }
    {
        let SharedDoor {
            rt: _,
            server: _,
            passes,
        } = self;
        Passes { passes }
    }
}

impl<'a, M: Machine + Drop, K: Keeper + Drop, R: Wait> Door for SharedDoor<'a, M, K, R> {
    ghost state = { λ d. shared_door d.server.now.store (pools_of (lasting_in M.kept) d.server.now.turnstiles.items) (identities_of d.server.now.turnstiles.items) (views d.passes.items) };

    fn call(&mut self, place: u32, call: &PoolCall) -> Result<Answered, CallFault> {
        let at = place as usize;
        let pass = take_at(&mut self.passes, at);
        let turnstile = &self.server.turnstiles[at];
        let (result, pass) = take_turn(self.rt, self.server.alloc, turnstile, pass, call);
        self.passes[at] = Some(pass);
        result
    }
}
