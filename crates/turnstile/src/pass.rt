ghost use Rattle.std.specs.Prelude.{◌≡◌, ◌==◌, if◌then◌else◌};
ghost use Rattle.turnstile.specs.Passes.{Carries, IsFrom, number, turns, made};

use crate::counted::Counted;
use crate::turnstile::Turnstile;
use crate::view::View;
use atomic_table::Seat;

/// A right to take turns at one turnstile, one after the other, with what its holder has seen of the
/// log. There is no copy of it: it is split and joined by its turnstile. One that is dropped can't be
/// joined any more, so the turnstile can't be closed.
#[derive(Drop)]
pub struct Pass<V: Counted> {
    pub(crate) seat: Seat<V, View<V, V::Item>>,
    pub(crate) number: u64,
    /// How many passes were made, where the number is 0, and else 0.
    pub(crate) made: u64,
    /// Of how many passes it is joined.
    pub(crate) parts: u64,
    pub(crate) turns: u64,
}

impl<V: Counted> Pass<V> {
    ghost use denote.Follow.{follows};
    ghost use Rattle.std.specs.Borrow.{sem};
    ghost use Rattle.turnstile.specs.contracts.pass.Pass.{the_row};
    ghost use Rattle.turnstile.specs.Lending.{pass_with};

    /// The value, while this pass has its turn.
    pub(crate) fn value<'b>(&'b mut self, lock: &'b Turnstile<V>) -> &'b mut V
        requires own { IsFrom lock.now self.old }
        requires value { (x : V) × Carries self.old x }
        ensures* writes_back { sem 𝓛 (follows (the_row V.row V.Item.row V.Fixed.row) V.row self.entry.ghost_name result.ghost_name (pass_with self.old)) }
        ensures value { Carries self.old result.now }
    {
        let seat = &mut self.seat;
        seat.slot_mut(&lock.table.shared, 0)
    }

    /// What distinguishes the passes of one turnstile: below 64, and of the first pass 0.
    pub fn number(&self) -> u64
        ensures { result ≡ number self.now }
    {
        self.number
    }

    /// How many passes the turnstile has made, where the number is 0, and else 0.
    pub fn made(&self) -> u64
        ensures { result ≡ made self.now }
    {
        self.made
    }

    /// The turns that this pass and those joined into it took.
    pub fn turns(&self) -> u64
        ensures { result ≡ turns self.now }
    {
        self.turns
    }

    /// How many passes were made, as the one of the two knows whose number is 0.
    pub(crate) fn made_with(&self, other: &Pass<V>) -> u64
        ensures { result ≡ (if number self.now == 0 then made self.now else made other.now) }
    {
        if self.number == 0 {
            self.made
        } else {
            other.made
        }
    }
}
