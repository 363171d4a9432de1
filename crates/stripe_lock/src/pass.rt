//! A pass.
use crate::view::View;
use atomic_table::Badge;
use std::marker::Model;

/// A right to make turns under a number. It is out until it was joined, also where it is dropped.
#[derive(Drop)]
pub struct Pass<R> {
    pub(crate) badge: Badge<View<R>>,
    pub(crate) number: u32,
    /// How many passes it is, modulo 2^32: that it is never more than 64 is known in proofs alone.
    pub(crate) weight: u32,
}

impl<R> Model for Pass<R> {
    ghost use Rattle.stripe_lock.specs.Passes.{PassState, pass_of, view_of, PassRests};

    ghost Value = { PassState R };

    ghost view = { λ p. pass_of p.badge.table_id (view_of p.badge.views) };

    ghost invariant = { λ p. PassRests p.number p.weight p.badge.views };
}
