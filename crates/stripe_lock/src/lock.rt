//! The table of a lock, and the parts of a turn. A seat is a pass in its turn, a badge one that rests.
ghost use Rattle.std.specs.Prelude.{◌≡◌, ◌%◌, ◌<◌, ◌≤◌, ◌∷◌, [], List, length, MatchResult, IfOk, IfErr, vec_len, vec_capacity};
ghost use Rattle.stripe_lock.specs.Rule.{outside, waiting, called, weight};
ghost use Rattle.stripe_lock.specs.Steps.{at_stage, opener};
ghost use Rattle.stripe_lock.specs.Passes.{pass_of, view_of, dealt, PassRests, IsPassResting};
ghost use Rattle.stripe_lock.specs.Turns.{Turned, LookedIn, SeesCount, SeesFloor, Joins, LockEnds};
ghost use Rattle.stripe_lock.specs.Working.{InHand, KeepsTurns, Works, MayPublish, MayHandBack, published};

use crate::kept::{Job, KeptState};
use crate::pass::Pass;
use crate::steps::{
    About, Both, Cut, Draw, End, Give, Line, LookUp, Low, Note, Raise, See, Settle, Take,
};
use crate::view::View;
use atomic_table::{Badge, Refused, Seat, Table};
use std::alloc::{AllocError, Global};
use std::snapshot::Snapshot;
use std::sync::Wait;

// The words of the table.
const TICKET: usize = 0;

const SERVING: usize = 1;

const COUNT: usize = 2;

const FLOOR: usize = 3;

#[derive(Drop)]
pub struct Gate<T: KeptState> {
    pub(crate) table: Table<T, View<T::Record>, About<T>, Line, Global>,
    pub(crate) seats: u32,
    ghost sized: { (table.shared.table_id.words ≡ 4) × (table.shared.table_id.slots ≡ 1)
        × (table.shared.key.seats ≡ seats) },
}

/// What a turn made: its answer, and the count and the floor behind it.
pub struct Made<A> {
    pub answer: A,
    pub count: u64,
    pub floor: u64,
}

// Makes the room and does the job.
fn run_in<T: KeptState, J: Job<T>>(
    state: &mut T,
    job: &mut J,
    worker: u32,
) -> Result<Made<J::Answer>, AllocError>
    requires { T.is_sound state.old }
    ensures done { IfOk result (λ r. Works T.KeptState (J.number job.old) (J.fits job.old job.new)
        worker state.old state.new r.answer r.count r.floor) }
    ensures short { IfErr result (λ _. KeepsTurns T.KeptState state.old state.new
        × (job.new ≡ job.old)) }
{
    let room = state.make_room();
    state.has_legal_turns();
    room?;
    let answer = job.run(state, worker);
    state.has_legal_turns();
    Ok(Made {
        answer,
        count: state.count(),
        floor: state.floor(),
    })
}

impl<T: KeptState> Gate<T> {
    /// A gate round this state, and the seat that has all numbers.
    pub fn new(
        alloc: Global,
        state: T,
        seats: u32,
    ) -> Result<(Gate<T>, Seat<T, View<T::Record>>), (AllocError, T)>
        requires seats { seats ≤ 64 }
        requires blank { T.turns state ≡ [] }
        requires sound { T.is_sound state }
        ensures gate { IfOk result (λ r. (r.0.seats ≡ seats)
            × (r.1.table_id ≡ r.0.table.shared.table_id)) }
        ensures seat { IfOk result (λ r. r.1.me
            ≡ (opener seats (T.chronicle state) (T.floor_of (T.chronicle state) []), [])) }
        ensures back { IfErr result (λ e. e.1 ≡ state) }
    {
        let about = About {
            seats,
            first: Snapshot::of(&state),
        };
        let words = [0, 0, 0, state.floor()];
        let mut slots = Vec::new(alloc);
        if let Err(failed) = slots.push(state) {
            slots.destroy_empty();
            return Err((AllocError, failed.value));
        }
        match Table::new(alloc, &words, slots, &about) {
            Ok((table, seat)) => Ok((Gate { table, seats }, seat)),
            Err(Refused { mut slots }) => {
                let state = slots.pop().unwrap();
                slots.destroy_empty();
                Err((AllocError, state))
            }
        }
    }

    /// Cuts the first seat into passes.
    pub fn deal(&self, seat: Seat<T, View<T::Record>>, passes: &mut Vec<Pass<T::Record>>)
        requires table { seat.table_id ≡ self.now.table.shared.table_id }
        requires first { let g = seat.me.0.sight in
            seat.me ≡ (opener self.now.seats g.chronicle g.floor, []) }
        requires seats { (0 < self.now.seats) × (self.now.seats ≤ 64) }
        requires room { (passes.old.items ≡ []) × (vec_len passes.old ≡ 0)
            × (self.now.seats ≤ vec_capacity passes.old) }
        ensures { let g = seat.me.0.sight in passes.new.items
            ≡ dealt self.now.table.shared.table_id g.chronicle g.floor 0 self.now.seats }
    {
        let mut seat = seat;
        let last = self.seats - 1;
        for number in 0..last {
            let next = self.table.shared.split_seat::<Cut>(&mut seat);
            passes.push_reserved(Pass {
                badge: next.into_badge(),
                number,
                weight: 1,
            });
        }
        passes.push_reserved(Pass {
            badge: seat.into_badge(),
            number: last,
            weight: 1,
        });
    }

    // Waits until its ticket is called, asleep while another is served.
    fn await_turn<H: Wait>(&self, rt: &H, seat: &mut Seat<T, View<T::Record>>, ticket: u64)
        requires table { seat.old.table_id ≡ self.now.table.shared.table_id }
        requires waits { (seat.old.me.0.stage ≡ waiting)
            × (ticket ≡ seat.old.me.0.ticket % 18446744073709551616) }
        ensures seat { (seat.new.table_id ≡ seat.old.table_id) × (seat.new.id ≡ seat.old.id) }
        ensures turn { seat.new.me ≡ (at_stage called seat.old.me.0, seat.old.me.1) }
    {
        for _ in rt.forever() {
            let serving = self.table.shared.load::<LookUp>(seat, SERVING);
            if serving == ticket {
                return;
            }
            self.table
                .shared
                .park(rt, SERVING, (serving & 0xffff_ffff) as u32);
        }
        unreachable!()
    }

    // Draws a ticket, waits until it is called, and takes the state in hand.
    fn enter<H: Wait>(&self, rt: &H, seat: &mut Seat<T, View<T::Record>>)
        requires table { seat.old.table_id ≡ self.now.table.shared.table_id }
        requires idle { (seat.old.me.0.stage ≡ outside) × (seat.old.me.1 ≡ [])
            × (0 < weight seat.old.me.0) }
        ensures seat { (seat.new.table_id ≡ seat.old.table_id) × (seat.new.id ≡ seat.old.id) }
        ensures hand { (x : T) × InHand T.KeptState seat.old.me.0 seat.new.me x }
    {
        let ticket = self.table.shared.fetch_add::<Draw>(seat, TICKET, 1);
        self.await_turn(rt, seat, ticket);
        self.table.shared.load::<Take>(seat, SERVING);
    }

    // Does the job on the state in hand.
    fn work<J: Job<T>>(
        &self,
        seat: &mut Seat<T, View<T::Record>>,
        job: &mut J,
        worker: u32,
    ) -> Result<Made<J::Answer>, AllocError>
        requires table { seat.old.table_id ≡ self.now.table.shared.table_id }
        requires hand { (x : T) × (seat.old.me.1 ≡ (0, x) ∷ []) × T.is_sound x }
        ensures seat { (seat.new.table_id ≡ seat.old.table_id) × (seat.new.id ≡ seat.old.id)
            × (seat.new.me.0 ≡ seat.old.me.0) }
        ensures done { (x : T) → seat.old.me.1 ≡ (0, x) ∷ [] → (y : T) × (seat.new.me.1 ≡ (0, y) ∷ [])
            × MatchResult result (λ r. Works T.KeptState (J.number job.old) (J.fits job.old job.new)
            worker x y r.answer r.count r.floor)
            (λ _. KeepsTurns T.KeptState x y × (job.new ≡ job.old)) }
    {
        let state = seat.slot_mut(&self.table.shared, 0);
        run_in(state, job, worker)
    }

    // Publishes the turn that was made, and the floor behind it.
    fn publish(&self, seat: &mut Seat<T, View<T::Record>>, count: u64, floor: u64)
        requires table { seat.old.table_id ≡ self.now.table.shared.table_id }
        requires turn { MayPublish T.KeptState seat.old.me count floor }
        ensures seat { (seat.new.table_id ≡ seat.old.table_id) × (seat.new.id ≡ seat.old.id)
            × (seat.new.me.1 ≡ seat.old.me.1) }
        ensures view { (x : T) → seat.old.me.1 ≡ (0, x) ∷ []
            → seat.new.me.0 ≡ published (T.turns x) floor seat.old.me.0 }
    {
        self.table.shared.store::<Note>(seat, COUNT, count);
        self.table.shared.fetch_max::<Raise>(seat, FLOOR, floor);
    }

    // Gives the state back and calls the next ticket.
    fn leave(&self, seat: &mut Seat<T, View<T::Record>>)
        requires table { seat.old.table_id ≡ self.now.table.shared.table_id }
        requires hand { MayHandBack T.KeptState seat.old.me }
        ensures seat { (seat.new.table_id ≡ seat.old.table_id) × (seat.new.id ≡ seat.old.id) }
        ensures idle { seat.new.me ≡ (at_stage outside seat.old.me.0, []) }
    {
        self.table.shared.load::<Give>(seat, SERVING);
        let served = self.table.shared.fetch_add::<End>(seat, SERVING, 1);
        // One who draws a ticket behind this look finds it called.
        if self.table.shared.peek(TICKET) != served.wrapping_add(1) {
            self.table.shared.wake_all(SERVING);
        }
    }

    /// A whole turn, of a pass with this number.
    pub fn turn<H: Wait, J: Job<T>>(
        &self,
        rt: &H,
        badge: Badge<View<T::Record>>,
        job: &mut J,
        number: u32,
    ) -> (Badge<View<T::Record>>, Result<(J::Answer, u64), AllocError>)
        requires table { badge.table_id ≡ self.now.table.shared.table_id }
        requires rests { PassRests number (weight (view_of badge.views) % 4294967296) badge.views }
        ensures rests { PassRests number (weight (view_of badge.views) % 4294967296)
            result.0.views }
        ensures done { IfOk result.1 (λ r. Turned T.KeptState (J.number job.old)
            (J.fits job.old job.new) (pass_of badge.table_id (view_of badge.views))
            (pass_of result.0.table_id (view_of result.0.views)) r.0 r.1) }
        ensures short { IfErr result.1 (λ _. LookedIn T.KeptState
            (pass_of badge.table_id (view_of badge.views))
            (pass_of result.0.table_id (view_of result.0.views)) × (job.new ≡ job.old)) }
    {
        let mut seat = badge.into_seat::<T>();
        self.enter(rt, &mut seat);
        match self.work(&mut seat, job, number) {
            Ok(
                Made {
                    answer,
                    count,
                    floor,
                },
            ) => {
                self.publish(&mut seat, count, floor);
                self.leave(&mut seat);
                (seat.into_badge(), Ok((answer, count)))
            }
            Err(failed) => {
                self.leave(&mut seat);
                (seat.into_badge(), Err(failed))
            }
        }
    }

    /// Looks at the count.
    pub fn look(&self, badge: Badge<View<T::Record>>) -> (Badge<View<T::Record>>, u64)
        requires table { badge.table_id ≡ self.now.table.shared.table_id }
        requires rests { IsPassResting badge.views }
        ensures rests { IsPassResting result.0.views }
        ensures same { (view_of result.0.views).owned ≡ (view_of badge.views).owned }
        ensures sees { SeesCount (pass_of badge.table_id (view_of badge.views))
            (pass_of result.0.table_id (view_of result.0.views)) result.1 }
    {
        let mut seat = badge.into_seat::<T>();
        let count = self.table.shared.load::<See>(&mut seat, COUNT);
        (seat.into_badge(), count)
    }

    /// Looks at the floor.
    pub fn look_down(&self, badge: Badge<View<T::Record>>) -> (Badge<View<T::Record>>, u64)
        requires table { badge.table_id ≡ self.now.table.shared.table_id }
        requires rests { IsPassResting badge.views }
        ensures rests { IsPassResting result.0.views }
        ensures same { (view_of result.0.views).owned ≡ (view_of badge.views).owned }
        ensures sees { SeesFloor T.KeptState (pass_of badge.table_id (view_of badge.views))
            (pass_of result.0.table_id (view_of result.0.views)) result.1 }
    {
        let mut seat = badge.into_seat::<T>();
        let floor = self.table.shared.load::<Low>(&mut seat, FLOOR);
        (seat.into_badge(), floor)
    }

    /// Joins two passes, and looks at the floor.
    pub fn merge(
        &self,
        badge: Badge<View<T::Record>>,
        other: Badge<View<T::Record>>,
    ) -> Badge<View<T::Record>>
        requires table { (badge.table_id ≡ self.now.table.shared.table_id)
            × (other.table_id ≡ self.now.table.shared.table_id) }
        requires rests { IsPassResting badge.views }
        requires other { IsPassResting other.views }
        ensures table { result.table_id ≡ badge.table_id }
        ensures rests { IsPassResting result.views }
        ensures joins { Joins T.KeptState (pass_of badge.table_id (view_of badge.views))
            (pass_of other.table_id (view_of other.views))
            (pass_of result.table_id (view_of result.views)) }
    {
        let mut seat = badge.into_seat::<T>();
        self.table
            .shared
            .join_seat::<Both>(&mut seat, other.into_seat::<T>());
        self.table.shared.load::<Settle>(&mut seat, FLOOR);
        seat.into_badge()
    }

    /// Takes the table apart, where the pass has all numbers.
    pub fn open(self, badge: Badge<View<T::Record>>) -> T
        requires table { badge.table_id ≡ self.table.shared.table_id }
        requires rests { IsPassResting badge.views }
        requires all { weight (view_of badge.views) % 4294967296 ≡ self.seats }
        ensures ends { LockEnds T.KeptState (pass_of badge.table_id (view_of badge.views)) result }
        ensures weight { weight (view_of badge.views) ≡ self.seats }
    {
        let Gate { table, seats: _ } = self;
        let mut closed = table.close_with(badge.into_seat::<T>());
        let state = closed.take(0);
        closed.free();
        state
    }
}
