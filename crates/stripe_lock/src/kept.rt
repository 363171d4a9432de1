//! What the lock keeps, and what is done with it in a turn.
ghost use Rattle.std.specs.Prelude.{◌≡◌, ◌<◌, ◌≤◌, ◌^◌, ℕ, List, length, OnOk};
ghost use Rattle.stripe_lock.specs.declared.view.StripeTurn.{StripeTurn};
ghost use Rattle.stripe_lock.specs.History.{AddsTurn};

use std::alloc::AllocError;

/// A state with a history: a chronicle from before the first turn, and the turns, which add to it.
pub trait KeptState {
    /// What a chronicle lists.
    type Record;

    /// The chronicle from before the first turn.
    ghost chronicle: { Self → List Self.Record };

    /// The turns, in order.
    ghost turns: { Self → List (StripeTurn Self.Record) };

    /// What holds of the state between two turns.
    ghost is_sound: { Self → Type 0 };

    /// There is memory for one turn, and the number of turns behind it is below 2^64.
    ghost has_room: { Self → Type 0 };

    /// A chronicle and turns behind it make one that may be.
    ghost is_legal: { List Self.Record → List (StripeTurn Self.Record) → Type 0 };

    /// The floor behind a chronicle and these turns.
    ghost floor_of: { List Self.Record → List (StripeTurn Self.Record) → ℕ };

    /// How many turns there are. The implementor keeps a sound state below 2^64 of them.
    fn count(&self) -> u64
        requires { is_sound self.now }
        ensures count { result ≡ length (turns self.now) }
        ensures few { length (turns self.now) < 2 ^ 64 };

    /// The floor behind all turns.
    fn floor(&self) -> u64
        requires { is_sound self.now }
        ensures { result ≡ floor_of (chronicle self.now) (turns self.now) };

    /// Makes the room for one turn, and changes nothing else.
    fn make_room(&mut self) -> Result<(), AllocError>
        requires { is_sound self.old }
        ensures room { OnOk result (has_room self.new) }
        ensures sound { is_sound self.new }
        ensures same { (chronicle self.new ≡ chronicle self.old)
            × (turns self.new ≡ turns self.old) };

    /// A sound state's history is legal.
    fn has_legal_turns(&self)
        requires { is_sound self.now }
        ensures { is_legal (chronicle self.now) (turns self.now) };
}

/// What is done in one turn.
pub trait Job<T: KeptState> {
    /// What the turn answers.
    type Answer;

    /// The job's own number.
    ghost number: { Self → ℕ };

    /// What a job was and became fits a chronicle, the turns behind it, the job's own turn behind
    /// these, and the answer.
    ghost fits: { Self → Self → List T.Record → List (StripeTurn T.Record)
        → StripeTurn T.Record → Self.Answer → Type 0 };

    /// Adds exactly one turn to the state, of this worker.
    fn run(&mut self, state: &mut T, worker: u32) -> Self::Answer
        requires sound { T.is_sound state.old }
        requires room { T.has_room state.old }
        ensures turn { AddsTurn (T.turns state.old) (T.turns state.new) worker (number self.old)
            (λ turn. fits self.old self.new (T.chronicle state.old) (T.turns state.old) turn result) }
        ensures chronicle { T.chronicle state.new ≡ T.chronicle state.old }
        ensures floor { T.floor_of (T.chronicle state.old) (T.turns state.old)
            ≤ T.floor_of (T.chronicle state.new) (T.turns state.new) }
        ensures sound { T.is_sound state.new };
}
