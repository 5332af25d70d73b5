ghost use Rattle.std.specs.Prelude.{◌≡◌, ◌+◌, ◌<◌, ◌^◌, [], ◌∷◌, ◌++◌, length};
ghost use Rattle.turnstile.specs.Passes.{IsTurn, IsRaised, IsPassOf, HasNumbersOf, Holds, lock_of, pass_of, raised, seen, number, told, turns};

use crate::counted::Counted;
use crate::pass::Pass;
use crate::steps::{RaiseCount, ServeNext};
use crate::turnstile::Turnstile;
use std::marker::PhantomData;

/// A pass that has its turn: the value is with it alone. A turn can't be dropped, since all others
/// would wait for ever: it has to be left.
pub struct Turn<'a, V: Counted> {
    pub(crate) lock: &'a Turnstile<V>,
    pub(crate) pass: Pass<V>,
    pub(crate) ticket: u64,
    pub(crate) lends: PhantomData<&'a mut V>,
}

impl<V: Counted> Turn<'_, V> {
    ghost use denote.Follow.{follows};
    ghost use mir.Syntax.{named};
    ghost use Rattle.std.specs.Borrow.{sem};
    ghost use Rattle.turnstile.specs.contracts.turn.Turn.{the_row};
    ghost use Rattle.turnstile.specs.Lending.{turn_with};

    /// The number of its pass, which the entries of this turn bear.
    pub fn number(&self) -> u64
        ensures { result ≡ number (pass_of self.now) }
    {
        self.pass.number()
    }

    /// The value. An entry that is written to its log isn't counted before `raise`.
    pub fn value(&mut self) -> &mut V
        requires turn { IsTurn V.fixed self.old }
        requires value { (x : V) × Holds self.old x }
        ensures* writes_back { sem 𝓛 (follows (the_row (record { mir = named 1; lft = [] }) V.row V.Item.row V.Fixed.row V.Counted) V.row self.entry.ghost_name result.ghost_name (turn_with self.old)) }
        ensures value { Holds self.old result.now }
    {
        let lock = self.lock;
        let pass = &mut self.pass;
        pass.value(lock)
    }

    /// Counts the entry by which the value's log has grown since the last raise, or since the turn
    /// began.
    pub fn raise(&mut self)
        requires turn { IsTurn V.fixed self.old }
        requires grown { (x : V) × (e : V.Item) × Holds self.old x × (V.log x ≡ raised self.old ++ e ∷ []) × (V.by e ≡ number (pass_of self.old)) }
        requires short { length (raised self.old) < 2 ^ 32 }
        ensures turn { IsTurn V.fixed self.new }
        ensures lock { lock_of self.new ≡ lock_of self.old }
        ensures raised { (x : V) → Holds self.old x → Holds self.new x × (raised self.new ≡ V.log x) }
        ensures same { HasNumbersOf (pass_of self.old) (pass_of self.new) × (told (pass_of self.new) ≡ told (pass_of self.old)) × (turns (pass_of self.new) ≡ turns (pass_of self.old)) }
    {
        let lock = self.lock;
        lock.table
            .shared
            .fetch_add::<RaiseCount>(&mut self.pass.seat, 2, 1);
    }

    /// Gives the value back, and the turn to the next ticket. Nothing may be left to raise.
    pub fn leave(self) -> Pass<V>
        requires turn { IsTurn V.fixed self }
        requires raised { IsRaised V.log V.fixed self }
        ensures own { IsPassOf V.fixed (lock_of self.entry) result }
        ensures seen { seen result ≡ raised self.entry }
        ensures same { HasNumbersOf (pass_of self.entry) result × (told result ≡ told (pass_of self.entry)) × (turns result ≡ turns (pass_of self.entry)) }
    {
        let Turn {
            lock,
            mut pass,
            ticket,
            lends: _,
        } = self;
        lock.table
            .shared
            .store::<ServeNext>(&mut pass.seat, 1, ticket + 1);
        lock.wake(ticket + 1);
        pass
    }
}
