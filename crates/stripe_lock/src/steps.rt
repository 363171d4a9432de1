//! The rule of the table, and the steps of a pass.
ghost use Rattle.stripe_lock.specs.Steps.{drew, looked, took, gave_back, ended_turn, noted_turn, raised_floor, saw, lowered, settled, left_view, right_view, joined_view, spent};

use crate::kept::KeptState;
use crate::view::View;
use atomic_table::{Join, Play, Split, TableRule};
use std::snapshot::Snapshot;

/// What the table is told when it is made.
pub struct About<T> {
    pub seats: u32,
    pub first: Snapshot<T>,
}

impl<T> Drop for About<T> {
    fn drop(self) {
        let Self { seats: _, first: _ } = self;
    }
}

/// The rule of a lock's table.
pub struct Line;

impl<T: KeptState> TableRule<T, View<T::Record>, About<T>> for Line {
    ghost use Rattle.std.specs.Prelude.{[]};
    ghost use Rattle.stripe_lock.specs.Rule.{IsLocked};
    ghost use Rattle.stripe_lock.specs.Steps.{opener};

    ghost holds = { λ key s. IsLocked T.KeptState key.seats (T.chronicle key.first.value) s };

    ghost first = { λ key. let start = T.chronicle key.first.value in
        opener key.seats start (T.floor_of start []) };
}

/// Gives the first number to a new pass.
pub struct Cut;

impl<R> Split<View<R>> for Cut {
    ghost left = { left_view };

    ghost right = { right_view };
}

/// Adds one to `ticket`: draws a ticket.
pub struct Draw;

impl<T: KeptState> Play<T, View<T::Record>> for Draw {
    ghost then = { drew };
}

/// Loads `serving`, while it waits.
pub struct LookUp;

impl<T: KeptState> Play<T, View<T::Record>> for LookUp {
    ghost then = { looked };
}

/// Loads `serving`, and takes the state in hand.
pub struct Take;

impl<T: KeptState> Play<T, View<T::Record>> for Take {
    ghost then = { took T.KeptState };
}

/// Stores `count`: the turn stands in the history.
pub struct Note;

impl<T: KeptState> Play<T, View<T::Record>> for Note {
    ghost then = { noted_turn T.KeptState };
}

/// Raises `floor`.
pub struct Raise;

impl<T: KeptState> Play<T, View<T::Record>> for Raise {
    ghost then = { raised_floor };
}

/// Loads `serving`, and gives the state back.
pub struct Give;

impl<T: KeptState> Play<T, View<T::Record>> for Give {
    ghost then = { gave_back };
}

/// Adds one to `serving`: the next ticket is called.
pub struct End;

impl<T: KeptState> Play<T, View<T::Record>> for End {
    ghost then = { ended_turn };
}

/// Loads `count`.
pub struct See;

impl<T: KeptState> Play<T, View<T::Record>> for See {
    ghost then = { saw };
}

/// Loads `floor`.
pub struct Low;

impl<T: KeptState> Play<T, View<T::Record>> for Low {
    ghost then = { lowered T.KeptState };
}

/// Takes in another pass.
pub struct Both;

impl<R> Join<View<R>> for Both {
    ghost both = { joined_view };

    ghost spent = { spent };
}

/// Loads `floor` behind a join, so that it is known which of the two had seen more.
pub struct Settle;

impl<T: KeptState> Play<T, View<T::Record>> for Settle {
    ghost then = { settled T.KeptState };
}
