ghost use Rattle.std.specs.Prelude.{◌≡◌, ◌<◌, ◌+◌, ◌^◌, None, [], take, drop, IsTrue, IsErrOf, IfOk};
ghost use Rattle.swarm_model.specs.Bases.{empty_base};
ghost use Rattle.swarm_model.specs.Bytes.{Carries};
ghost use Rattle.swarm_model.specs.Fits.{fits};
ghost use Rattle.swarm_model.specs.History.{IsLegal};
ghost use Rattle.pool_doors.specs.Calls.{call_of};
ghost use Rattle.turnstile.specs.Passes.{IsPassOf, IsTurn, fixed_of, lock_of, of_value, pass_of, raised, seen, number, told, turns};
ghost use Rattle.shared_doors.specs.Desks.{IsDesk, no_state};
ghost use Rattle.shared_doors.specs.Lasting.{IsStanding};
ghost use Rattle.shared_doors.specs.Machines.{lasting_in};
ghost use Rattle.shared_doors.specs.SharedDoors.{IsTurnCall};
ghost use Rattle.shared_doors.specs.Turns.{TakesTurn};
ghost use Rattle.shared_doors.specs.Views.{look};

use crate::copying::copy_log;
use crate::kept::Kept;
use crate::view::{Lasting, PoolView};
use dimensions::{Seq, Text};
use pool_doors::{Answered, CallFault, PoolCall};
use std::alloc::{AllocError, Global};
use std::sync::Wait;
use swarm_history::{Desk, pieces_of, serve};
use swarm_keeper::Keeper;
use swarm_model::{Answer, Entry, Machine, Reply, Request, answer_uncounted, due_uncounted};
use turnstile::{Counted, Pass, Turn, Turnstile};

/// A turn in which each entry that is added is counted.
pub(crate) struct SharedDesk<'a, M: Machine + Drop, K: Keeper + Drop>
where
    Kept<M, K>: Counted<Item = Entry, Fixed = Lasting>,
{
    turn: Turn<'a, Kept<M, K>>,
}

impl<M: Machine + Drop, K: Keeper + Drop> SharedDesk<'_, M, K> {
    /// The number that its entries bear.
    fn pass(&self) -> u32
        requires { IsTurn (lasting_in M.kept) self.now.turn }
        ensures { result ≡ number (pass_of self.now.turn) }
    {
        self.turn.number() as u32
    }

    /// The next `most` entries of the log from the place `from`, or all where fewer are there.
    fn copied(&mut self, alloc: Global, from: u64, most: u32) -> Result<Vec<Entry>, AllocError>
        requires ready { IsDesk (λ k. M.kept k.machine) K.SURE self.old.turn }
        ensures same { self.new ≡ self.old }
        ensures copied { IfOk result (λ entries. entries.items ≡ take most (drop from (raised self.old.turn))) }
        ensures legal { IsLegal (empty_base (fixed_of (lasting_in M.kept) (lock_of self.old.turn)).settings).rows (raised self.old.turn) }
    {
        copy_log(alloc, &self.turn.value().machine, from, most)
    }
}

impl<'a, M: Machine + Drop, K: Keeper + Drop> Desk for SharedDesk<'a, M, K> {
    /// The turnstile, and what the pass knows but for the log.
    type Rest = (Turnstile<Kept<M, K>>, PoolView);

    ghost ready = { λ d. IsDesk (λ k. M.kept k.machine) K.SURE d.turn };

    ghost kept = { λ d. of_value (λ k. M.kept k.machine) no_state d.turn };

    ghost records = { λ d. None };

    ghost faults = { λ d. 0 };

    ghost number = { λ d. number (pass_of d.turn) };

    ghost rest = { λ d. (lock_of d.turn, record (look (pass_of d.turn)) { seen = [] }) };

    fn length(&mut self) -> u64 {
        self.turn.value().machine.length()
    }

    fn last(&mut self) -> u64 {
        self.turn.value().machine.last()
    }

    fn due(&mut self, moment: u64) -> Option<Entry> {
        let number = self.pass();
        due_uncounted(&self.turn.value().machine, moment, number)
    }

    fn answer(&mut self, who: &Text, moment: u64, request: &Request) -> Result<Answer, AllocError> {
        let number = self.pass();
        answer_uncounted(&self.turn.value().machine, who, moment, number, request)
    }

    fn pieces(&mut self, alloc: Global, reply: &Reply) -> Result<Seq<Seq<u8>>, AllocError> {
        pieces_of(alloc, &self.turn.value().machine, reply)
    }

    fn add(&mut self, alloc: Global, entry: Entry, bytes: Option<&[u8]>) -> Result<(), CallFault> {
        self.turn.value().add(alloc, entry, bytes)?;
        self.turn.raise();
        Ok(())
    }
}

/// One turn of a pass, in which a request is answered.
pub(crate) fn take_turn<M: Machine + Drop, K: Keeper + Drop, R: Wait>(
    rt: &R,
    alloc: Global,
    turnstile: &Turnstile<Kept<M, K>>,
    pass: Pass<Kept<M, K>>,
    call: &PoolCall,
) -> (Result<Answered, CallFault>, Pass<Kept<M, K>>)
    requires own { IsPassOf (lasting_in M.kept) turnstile.now pass }
    requires turns { turns pass < 2 ^ 40 }
    requires standing { IsStanding (fixed_of (lasting_in M.kept) turnstile.now) }
    requires sure { IsTrue K.SURE }
    requires fits { IsTrue (fits (fixed_of (lasting_in M.kept) turnstile.now).settings call.now.request.now) }
    requires carries { Carries call.now.request.now call.now.bytes.now }

    ensures own { IsPassOf (lasting_in M.kept) turnstile.now result.1 }
    ensures done { IsTurnCall (empty_base (fixed_of (lasting_in M.kept) turnstile.now).settings) (call_of (number pass) call.now)
        (seen pass) (seen result.1) (told pass) result.0 }

    // Sure keepers never fail.
    ensures no_fault { ¬ IsErrOf result.0 CallFault.Keeper }

    // But for the log, the pass knows what it knew.
    ensures rest { look result.1 ≡ record (look pass) { turns = turns pass + 1; seen = seen result.1 } }
{
    let turn = turnstile.enter(rt, pass);
    let mut desk = SharedDesk { turn };
    let result = serve(alloc, &mut desk, call);
    let SharedDesk { turn } = desk;
    (result, turn.leave())
}

/// One turn of a pass, in which the next `most` entries of the log from the place `from` are copied,
/// or all where fewer are there.
pub(crate) fn copy_turn<M: Machine + Drop, K: Keeper + Drop, R: Wait>(
    rt: &R,
    alloc: Global,
    turnstile: &Turnstile<Kept<M, K>>,
    pass: Pass<Kept<M, K>>,
    from: u64,
    most: u32,
) -> (Pass<Kept<M, K>>, Result<Vec<Entry>, AllocError>)
    requires own { IsPassOf (lasting_in M.kept) turnstile.now pass }
    requires turns { turns pass < 2 ^ 40 }
    requires standing { IsStanding (fixed_of (lasting_in M.kept) turnstile.now) }
    requires sure { IsTrue K.SURE }

    ensures own { IsPassOf (lasting_in M.kept) turnstile.now result.0 }
    ensures copied { IfOk result.1 (λ entries. entries.items ≡ take most (drop from (seen result.0))) }
    ensures turn { TakesTurn (empty_base (fixed_of (lasting_in M.kept) turnstile.now).settings).rows (look pass) (look result.0) }
{
    let turn = turnstile.enter(rt, pass);
    let mut desk = SharedDesk { turn };
    let copied = desk.copied(alloc, from, most);
    let SharedDesk { turn } = desk;
    (turn.leave(), copied)
}
