//! The rule of the table, and what each kind of step tells.
//!
//! Word 0 is the next ticket, word 1 the ticket that is served, and word 2 the length of the log. The
//! value lies in the one slot, or is with the pass whose turn it is.
ghost use Rattle.std.specs.Prelude.{◌≡◌};
ghost use Rattle.turnstile.specs.Rule.{IsConsistent, first_view};
ghost use Rattle.turnstile.specs.Steps.{DrawsTicket, LooksForTurn, RaisesCount, ServesNext, LoadsCount, SettlesJoin, with_one_more, new_pass, joined, spent};

use crate::counted::Counted;
use crate::view::View;
use atomic_table::{Join, Play, Split, TableRule};
use std::snapshot::Snapshot;

/// What holds between any two steps.
pub struct TurnstileRule;

impl<V: Counted> TableRule<V, View<V, V::Item>, Snapshot<V>> for TurnstileRule {
    ghost holds = { λ k. IsConsistent V.log V.by (λ x. V.fixed x ≡ V.fixed k.value) (V.log k.value) };

    ghost first = { λ k. first_view k.value (V.log k.value) };
}

pub struct DrawTicket;

impl<V: Counted> Play<V, View<V, V::Item>> for DrawTicket {
    ghost then = { DrawsTicket };
}

/// Loads the ticket that is served.
pub struct LookForTurn;

impl<V: Counted> Play<V, View<V, V::Item>> for LookForTurn {
    ghost then = { LooksForTurn V.log V.by V.fixed };
}

/// Raises the count of the log.
pub struct RaiseCount;

impl<V: Counted> Play<V, View<V, V::Item>> for RaiseCount {
    ghost then = { RaisesCount V.log };
}

pub struct ServeNext;

impl<V: Counted> Play<V, View<V, V::Item>> for ServeNext {
    ghost then = { ServesNext };
}

/// Loads the count of the log.
pub struct LoadCount;

impl<V: Counted> Play<V, View<V, V::Item>> for LoadCount {
    ghost then = { LoadsCount };
}

/// Tells of a joined pass what it has of each of the two.
pub struct SettleJoin;

impl<V: Counted> Play<V, View<V, V::Item>> for SettleJoin {
    ghost then = { SettlesJoin V.by };
}

pub struct SplitPass;

impl<V, I> Split<View<V, I>> for SplitPass {
    ghost left = { with_one_more };

    ghost right = { new_pass };
}

pub struct JoinPasses;

impl<V, I> Join<View<V, I>> for JoinPasses {
    ghost both = { joined };

    ghost spent = { spent };
}
