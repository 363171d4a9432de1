//! The lock, as callers see it.
ghost use Rattle.std.specs.Prelude.{◌≡◌, ◌<◌, ◌≤◌, [], length, IfOk, IfErr, IsOk, ◌↔◌, All};
ghost use Rattle.stripe_lock.specs.History.{first_number};
ghost use Rattle.stripe_lock.specs.Passes.{dealt};
ghost use Rattle.stripe_lock.specs.Turns.{Turned, LookedIn, SeesCount, SeesFloor, Joins, LockEnds};

use crate::kept::{Job, KeptState};
use crate::lock::Gate;
use crate::pass::Pass;
use atomic_table::Badge;
use std::alloc::{AllocError, Global};
use std::marker::Model;
use std::mem;
use std::sync::Wait;

/// A state that threads share. It can be dropped where the state can, and else comes apart by
/// `close` alone.
#[derive(Drop)]
pub struct SharedStripe<T: KeptState> {
    gate: Gate<T>,
}

impl<T: KeptState> Model for SharedStripe<T> {
    ghost use Rattle.stripe_lock.specs.Passes.{LockState};

    ghost Value = { LockState };

    ghost view = { λ s. record { lock = s.gate.table.shared.table_id; seats = s.gate.seats } };
}

impl<T: KeptState> SharedStripe<T> {
    #[tactic(auto, using(crate::proofs::Dealing::all_dealt))]
    /// A lock round this state, which has no turn, and its passes in the order of their numbers.
    pub fn new(
        alloc: Global,
        state: T,
        seats: u32,
    ) -> Result<(SharedStripe<T>, Vec<Pass<T::Record>>), (AllocError, T)>
        requires seats { (0 < seats) × (seats ≤ 64) }
        requires blank { T.turns state ≡ [] }
        requires sound { T.is_sound state }
        ensures seats { IfOk result (λ r. r.0.seats ≡ seats) }
        ensures lock { IfOk result (λ r. All (λ p. p.lock ≡ r.0.lock) r.1.items) }
        ensures passes { IfOk result (λ r. r.1.items ≡ dealt r.0.lock (T.chronicle state)
            (T.floor_of (T.chronicle state) []) 0 seats) }
        ensures back { IfErr result (λ e. e.1 ≡ state) }
    {
        let Ok(mut passes) = Vec::with_capacity(alloc, seats as usize) else {
            return Err((AllocError, state));
        };
        match Gate::new(alloc, state, seats) {
            Ok((gate, seat)) => {
                gate.deal(seat, &mut passes);
                Ok((SharedStripe { gate }, passes))
            }
            Err(refused) => Err(refused),
        }
    }

    /// The number of a pass.
    pub fn number(&self, pass: &Pass<T::Record>) -> u32
        requires lock { pass.now.lock ≡ self.now.lock }
        ensures { result ≡ first_number pass.now.owned }
    {
        pass.number
    }

    /// Waits for its turn, makes the room for it, does the job under the pass's number, and answers
    /// with the number of turns behind it. Where there is no memory, nothing is done.
    pub fn with<H: Wait, J: Job<T>>(
        &self,
        rt: &H,
        pass: &mut Pass<T::Record>,
        job: &mut J,
    ) -> Result<(J::Answer, u64), AllocError>
        requires lock { pass.old.lock ≡ self.now.lock }
        ensures turned { IfOk result (λ r. Turned T.KeptState (J.number job.old)
            (J.fits job.old job.new) pass.old pass.new r.0 r.1) }
        ensures short { IfErr result (λ _. LookedIn T.KeptState pass.old pass.new) }
        ensures job { IfErr result (λ _. job.new ≡ job.old) }
    {
        let number = pass.number;
        let badge = mem::replace(&mut pass.badge, Badge::blank());
        let (badge, answer) = self.gate.turn(rt, badge, job, number);
        pass.badge = badge;
        answer
    }

    /// The published number of turns. It neither waits nor takes memory.
    pub fn seen(&self, pass: &mut Pass<T::Record>) -> u64
        requires lock { pass.old.lock ≡ self.now.lock }
        ensures { SeesCount pass.old pass.new result }
    {
        let (badge, count) = self
            .gate
            .look(mem::replace(&mut pass.badge, Badge::blank()));
        pass.badge = badge;
        count
    }

    /// The published floor. It neither waits nor takes memory.
    pub fn floor(&self, pass: &mut Pass<T::Record>) -> u64
        requires lock { pass.old.lock ≡ self.now.lock }
        ensures { SeesFloor T.KeptState pass.old pass.new result }
    {
        let (badge, floor) = self
            .gate
            .look_down(mem::replace(&mut pass.badge, Badge::blank()));
        pass.badge = badge;
        floor
    }

    /// Takes another pass into one.
    pub fn join(&self, pass: &mut Pass<T::Record>, other: Pass<T::Record>)
        requires lock { (pass.old.lock ≡ self.now.lock) × (other.lock ≡ self.now.lock) }
        ensures { Joins T.KeptState pass.old other pass.new }
    {
        let Pass {
            badge,
            number: _,
            weight,
        } = other;
        let mine = mem::replace(&mut pass.badge, Badge::blank());
        pass.badge = self.gate.merge(mine, badge);
        pass.weight = pass.weight.wrapping_add(weight);
    }

    /// The state, where no other pass is out; else the lock and the pass.
    pub fn close(self, pass: Pass<T::Record>) -> Result<T, (SharedStripe<T>, Pass<T::Record>)>
        requires lock { pass.lock ≡ self.lock }
        ensures ends { IfOk result (λ x. LockEnds T.KeptState pass x) }
        ensures back { IfErr result (λ e. (e.0 ≡ self) × (e.1 ≡ pass)) }
        ensures when { IsOk result ↔ (length pass.owned ≡ self.seats) }
    {
        if pass.weight != self.gate.seats {
            return Err((self, pass));
        }
        let SharedStripe { gate } = self;
        let Pass {
            badge,
            number: _,
            weight: _,
        } = pass;
        Ok(gate.open(badge))
    }
}
