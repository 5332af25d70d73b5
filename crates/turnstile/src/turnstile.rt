ghost use Rattle.std.specs.Prelude.{map, ◌≡◌, ◌⊎◌, ℕ, ◌+◌, ◌<◌, ◌≤◌, ◌^◌, ◌==◌, false, true, min, max, List, [], ◌∷◌, ◌++◌, length, if◌then◌else◌, IfOk, IfErr, OnOk};

use crate::counted::Counted;
use crate::pass::Pass;
use crate::steps::{
    DrawTicket, JoinPasses, LoadCount, LookForTurn, SettleJoin, SplitPass, TurnstileRule,
};
use crate::turn::Turn;
use crate::view::View;
use atomic_table::{Refused, Seat, Table};
use std::alloc::{AllocError, Global};
use std::array;
use std::hint::spin_loop;
use std::marker::PhantomData;
use std::snapshot::Snapshot;
use std::sync::Wait;
use std::thread::Parker;

/// The most passes of one turnstile.
const MOST_PASSES: usize = 64;

/// How often a pass that is next looks for its turn before it sleeps.
const LOOKS_BEFORE_SLEEP: u32 = 100;

/// A value, and the words by which passes take turns at it. Where its value is `Send`, it can be
/// shared among threads.
#[derive(Drop)]
pub struct Turnstile<V: Counted> {
    pub(crate) table: Table<V, View<V, V::Item>, Snapshot<V>, TurnstileRule, Global>,
    /// A pass with a ticket sleeps at the parker of the ticket's remainder. There are no more passes
    /// than parkers, so no two sleep at one.
    parkers: [Parker; MOST_PASSES],
    ghost shape: { (table.shared.table_id.words ≡ 3) × (table.shared.table_id.slots ≡ 1) },
}

impl<V: Counted> Turnstile<V> {
    ghost use Rattle.std.specs.Bool.{Decides};
    ghost use mathlib.Core.List.{IsPrefix};
    ghost use Rattle.turnstile.specs.Numbers.{times, once_below, own, Continues, Adds};
    ghost use Rattle.turnstile.specs.Steps.{with_turn, Finds};
    ghost use Rattle.turnstile.specs.Passes.{IsPassOf, IsTurn, IsRaised, IsAlone, HasNumbersOf, opening, fixed_of, lock_of, pass_of, raised, seen, number, numbers, made, told, turns};

    /// A turnstile round the value, and its first pass.
    ///
    /// # Errors
    ///
    /// There is no memory for it. The value is dropped.
    pub fn new(alloc: Global, value: V) -> Result<(Turnstile<V>, Pass<V>), AllocError>
    where
        V: Drop,
        requires short { length (V.log value) < 2 ^ 32 }
        ensures own { IfOk result (λ r. IsPassOf V.fixed r.0 r.1) }
        ensures opening { IfOk result (λ r. opening V.log r.0 ≡ V.log value) }
        ensures fixed { IfOk result (λ r. fixed_of V.fixed r.0 ≡ V.fixed value) }
        ensures seen { IfOk result (λ r. seen r.1 ≡ V.log value) }
        ensures first { IfOk result (λ r. (number r.1 ≡ 0) × (numbers r.1 ≡ 0 ∷ []) × (made r.1 ≡ 1) × (told r.1 ≡ 0) × (turns r.1 ≡ 0)) }
    {
        let count = value.count();
        let about = Snapshot::of(&value);
        let mut slots = Vec::new(alloc);
        if slots.push(value).is_err() {
            return Err(AllocError);
        }
        match Table::new(alloc, &[0, 0, count], slots, &about) {
            Ok((table, seat)) => {
                let pass = Pass {
                    seat,
                    number: 0,
                    made: 1,
                    parts: 1,
                    turns: 0,
                };
                let parkers = array::from_fn(|_| Parker::new());
                Ok((Turnstile { table, parkers }, pass))
            }
            Err(Refused { slots: _ }) => Err(AllocError),
        }
    }

    /// Where a pass with this ticket sleeps.
    fn parker(&self, ticket: u64) -> &Parker {
        &self.parkers[(ticket % MOST_PASSES as u64) as usize]
    }

    /// Wakes the pass with this ticket, if it was drawn. Who draws it later finds that it is served.
    pub(crate) fn wake(&self, ticket: u64) {
        if self.table.shared.peek(0) > ticket {
            self.parker(ticket).unpark();
        }
    }

    /// Waits until the ticket is served. A pass that isn't the next one sleeps at once, so that no
    /// more than one looks at the served ticket again and again.
    fn await_turn<R: Wait>(&self, rt: &R, seat: &mut Seat<V, View<V, V::Item>>, ticket: u64)
        requires own { seat.old.table_id ≡ self.now.table.shared.table_id }
        requires first { map V.fixed seat.old.me.0.first ≡ V.fixed self.now.table.shared.key.value ∷ [] }
        requires waits { (length seat.old.me.1 ≡ 0) × (seat.old.me.0.has_ticket ≡ true) × (seat.old.me.0.has_turn ≡ false) × (seat.old.me.0.halves ≡ []) × (seat.old.me.0.ticket ≡ ticket) }
        ensures own { seat.new.table_id ≡ seat.old.table_id }
        ensures turn { (x : V) × (seat.new.me ≡ (with_turn (V.log x) seat.old.me.0, (0, x) ∷ [])) × Finds V.by seat.old.me.0 (V.log x) × ((b : V.Fixed) → map V.fixed seat.old.me.0.first ≡ b ∷ [] → V.fixed x ≡ b) }
    {
        let mut looks = 0;
        for _ in rt.forever() {
            let served = self.table.shared.load::<LookForTurn>(seat, 1);
            if served == ticket {
                return;
            }
            if looks < LOOKS_BEFORE_SLEEP && ticket.saturating_sub(served) == 1 {
                looks += 1;
                spin_loop();
            } else {
                self.parker(ticket).park(rt);
            }
        }
        unreachable!()
    }

    /// Waits for a turn of the pass. That it comes is not promised.
    pub fn enter<R: Wait>(&self, rt: &R, pass: Pass<V>) -> Turn<'_, V>
        requires own { IsPassOf V.fixed self.now pass }
        requires turns { turns pass < 2 ^ 40 }
        ensures turn { IsTurn V.fixed result }
        ensures lock { lock_of result ≡ self.now }
        ensures value { IsRaised V.log V.fixed result }

        // All that the pass had seen, and then no entry of its own.
        ensures found { Continues V.by (number pass) (seen pass) (raised result) }
        ensures joined { (k : ℕ) → 0 < times k (numbers pass) → own V.by k (raised result) ≡ own V.by k (seen pass) }
        ensures fresh { told pass ≤ length (raised result) }
        ensures short { length (raised result) ≤ 2 ^ 32 }
        ensures same { HasNumbersOf pass (pass_of result) × (told (pass_of result) ≡ told pass) × (turns (pass_of result) ≡ turns pass + 1) }
    {
        let Pass {
            mut seat,
            number,
            made,
            parts,
            turns,
        } = pass;
        let ticket = self.table.shared.fetch_add::<DrawTicket>(&mut seat, 0, 1);
        self.await_turn(rt, &mut seat, ticket);
        let pass = Pass {
            seat,
            number,
            made,
            parts,
            turns: turns + 1,
        };
        Turn {
            lock: self,
            pass,
            ticket,
            lends: PhantomData,
        }
    }

    /// The length of the log at one moment, read without a turn. It doesn't wait, whoever has one, and
    /// takes no memory.
    pub fn front(&self, pass: &mut Pass<V>) -> u64
        requires own { IsPassOf V.fixed self.now pass.old }
        ensures own { IsPassOf V.fixed self.now pass.new }
        ensures front { (length (seen pass.old) ≤ result) × (told pass.old ≤ result) × (result ≤ 2 ^ 32) }
        ensures told { told pass.new ≡ result }
        ensures same { HasNumbersOf pass.old pass.new × (seen pass.new ≡ seen pass.old) × (turns pass.new ≡ turns pass.old) }
    {
        self.table.shared.load::<LoadCount>(&mut pass.seat, 2)
    }

    /// The pass with number 0, and a new one, which has the next number and took no turn. It takes no
    /// memory.
    pub fn split(&self, pass: Pass<V>) -> (Pass<V>, Pass<V>)
        requires own { IsPassOf V.fixed self.now pass }
        requires first { number pass ≡ 0 }
        requires few { made pass < 64 }
        ensures own { IsPassOf V.fixed self.now result.0 × IsPassOf V.fixed self.now result.1 }
        ensures kept { (number result.0 ≡ 0) × (numbers result.0 ≡ numbers pass) × (made result.0 ≡ made pass + 1) × (turns result.0 ≡ turns pass) }
        ensures given { (number result.1 ≡ made pass) × (numbers result.1 ≡ made pass ∷ []) × (turns result.1 ≡ 0) }
        ensures seen { (seen result.0 ≡ seen pass) × (seen result.1 ≡ seen pass) }
        ensures told { (told result.0 ≡ told pass) × (told result.1 ≡ told pass) }
    {
        let Pass {
            mut seat,
            number,
            made,
            parts,
            turns,
        } = pass;
        let new_seat = self.table.shared.split_seat::<SplitPass>(&mut seat);
        let first = Pass {
            seat,
            number,
            made: made + 1,
            parts,
            turns,
        };
        let second = Pass {
            seat: new_seat,
            number: made,
            made: 0,
            parts: 1,
            turns: 0,
        };
        (first, second)
    }

    /// One pass of two. It has seen the longer of their logs, which the other begins.
    pub fn join(&self, one: Pass<V>, two: Pass<V>) -> Pass<V>
        requires own { IsPassOf V.fixed self.now one × IsPassOf V.fixed self.now two }
        ensures own { IsPassOf V.fixed self.now result }

        ensures numbers { (number result ≡ min (number one) (number two)) × (numbers result ≡ numbers one ++ numbers two) }
        ensures once { (k : ℕ) → times k (numbers result) ≤ 1 }
        ensures made { made result ≡ (if number one == 0 then made one else made two) }
        ensures turns { turns result ≡ turns one + turns two }
        ensures told { told result ≡ max (told one) (told two) }

        // The log that it has seen, and what that has of the numbers of each.
        ensures begins { IsPrefix (seen one) (seen result) × IsPrefix (seen two) (seen result) }
        ensures longer { (seen result ≡ seen one) ⊎ (seen result ≡ seen two) }
        ensures own_one { (k : ℕ) → 0 < times k (numbers one) → own V.by k (seen result) ≡ own V.by k (seen one) }
        ensures own_two { (k : ℕ) → 0 < times k (numbers two) → own V.by k (seen result) ≡ own V.by k (seen two) }
    {
        let made = one.made_with(&two);
        let Pass {
            mut seat,
            number: one_number,
            made: _,
            parts: one_parts,
            turns: one_turns,
        } = one;
        let Pass {
            seat: other,
            number: two_number,
            made: _,
            parts: two_parts,
            turns: two_turns,
        } = two;
        self.table.shared.join_seat::<JoinPasses>(&mut seat, other);
        self.table.shared.load::<SettleJoin>(&mut seat, 0);
        Pass {
            seat,
            number: one_number.min(two_number),
            made,
            parts: one_parts + two_parts,
            turns: one_turns + two_turns,
        }
    }

    /// Whether no other pass is out, which the pass with number 0 knows.
    pub fn alone(&self, pass: &Pass<V>) -> bool
        requires own { IsPassOf V.fixed self.now pass.now }
        ensures { Decides result (IsAlone pass.now) }
    {
        pass.number == 0 && pass.parts == pass.made
    }

    /// The value, whose log past the opening has the entries of the joined passes and no others.
    ///
    /// # Errors
    ///
    /// Another pass is out. The turnstile and the pass are given back.
    pub fn close(self, pass: Pass<V>) -> Result<V, (Turnstile<V>, Pass<V>)>
        requires own { IsPassOf V.fixed self pass }
        ensures alone { OnOk result (IsAlone pass) }
        ensures refused { IfErr result (λ r. (r.0 ≡ self) × (r.1 ≡ pass) × ¬ IsAlone pass) }
        ensures log { IfOk result (λ x. V.log x ≡ seen pass) }
        ensures fixed { IfOk result (λ x. V.fixed x ≡ fixed_of V.fixed self) }
        ensures joined { OnOk result ((k : ℕ) → times k (numbers pass) ≡ once_below k (made pass)) }
        ensures by_passes { IfOk result (λ x. Adds V.by (numbers pass) (opening V.log self) (V.log x)) }
    {
        if !self.alone(&pass) {
            return Err((self, pass));
        }
        Ok(self.into_value(pass))
    }

    fn into_value(self, pass: Pass<V>) -> V
        requires own { IsPassOf V.fixed self pass }
        requires alone { IsAlone pass }
        ensures log { V.log result ≡ seen pass }
        ensures fixed { V.fixed result ≡ fixed_of V.fixed self }
        ensures joined { (k : ℕ) → times k (numbers pass) ≡ once_below k (made pass) }
        ensures by_passes { Adds V.by (numbers pass) (opening V.log self) (V.log result) }
    {
        let Turnstile { table, parkers: _ } = self;
        let Pass {
            seat,
            number: _,
            made: _,
            parts: _,
            turns: _,
        } = pass;
        let mut closed = table.close_with(seat);
        let value = closed.take(0);
        closed.free();
        value
    }
}
