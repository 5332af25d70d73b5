//! The pools of a server, once all passes are joined.
ghost use Rattle.std.specs.Prelude.{◌≡◌, ◌≤◌, ◌<◌, ◌++◌, ◌∷◌, [], ℕ, Some, length, map, vec_len, vec_capacity, IsTrue, is_some};
ghost use Rattle.std.specs.List.{All};
ghost use Rattle.turnstile.specs.Passes.{IsPassOf, fixed_of, opening};
ghost use Rattle.shared_doors.specs.Joined.{AreClosed, IsAloneView, IsClosed};
ghost use Rattle.shared_doors.specs.Lasting.{IsStanding};
ghost use Rattle.shared_doors.specs.Machines.{lasting_in, log_in};
ghost use Rattle.shared_doors.specs.Views.{AreOf, look, view_at, views};

use crate::kept::Kept;
use swarm_keeper::Keeper;
use swarm_model::Machine;
use turnstile::{Pass, Turnstile};

/// The machine of one pool, whose passes are all joined.
fn close_one<M: Machine + Drop, K: Keeper + Drop>(
    turnstile: Turnstile<Kept<M, K>>,
    pass: Pass<Kept<M, K>>,
) -> M
    requires own { IsPassOf (lasting_in M.kept) turnstile pass }
    requires standing { IsStanding (fixed_of (lasting_in M.kept) turnstile) }
    requires alone { IsAloneView (look pass) }
    ensures { IsClosed (fixed_of (lasting_in M.kept) turnstile).settings (opening (log_in M.kept) turnstile) (look pass) (M.kept result) }
{
    match turnstile.close(pass) {
        Ok(kept) => {
            let Kept { machine, keeper: _ } = kept;
            // For the proof: the log that the machine keeps is legal.
            let _length = machine.length();
            machine
        }
        Err(_) => unreachable!(),
    }
}

/// Takes the last pass.
fn take_last<M: Machine + Drop, K: Keeper + Drop>(
    passes: &mut Vec<Option<Pass<Kept<M, K>>>>,
) -> Pass<Kept<M, K>>
    requires some { 0 < length passes.old.items }
    requires whole { All (λ o. IsTrue (is_some o)) passes.old.items }
    ensures { passes.old.items ≡ passes.new.items ++ Some result ∷ [] }
{
    let Some(popped) = passes.pop() else {
        unreachable!();
    };
    popped.unwrap()
}

/// The machines of the pools, in the order of the pools. There is room for them.
pub(crate) fn close_all<M: Machine + Drop, K: Keeper + Drop>(
    turnstiles: Vec<Turnstile<Kept<M, K>>>,
    passes: Vec<Option<Pass<Kept<M, K>>>>,
    room: Vec<M>,
) -> Vec<M>
    requires own { AreOf (lasting_in M.kept) turnstiles.items passes.items }
    requires standing { All (λ t. IsStanding (fixed_of (lasting_in M.kept) t)) turnstiles.items }
    requires alone { (p : ℕ) → p < length turnstiles.items → IsAloneView (view_at (views passes.items) p) }
    requires empty { vec_len room ≡ 0 }
    requires room { length turnstiles.items ≤ vec_capacity room }
    ensures { AreClosed (lasting_in M.kept) (log_in M.kept) turnstiles.items (views passes.items) (map M.kept result.items) }
{
    let mut turnstiles = turnstiles;
    let mut passes = passes;
    let mut machines = room;
    while let Some(turnstile) = turnstiles.pop() {
        let pass = take_last(&mut passes);
        let machine = close_one(turnstile, pass);
        machines.push_reserved(machine);
    }
    machines.as_mut_slice().reverse();
    machines
}
