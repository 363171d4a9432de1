// A state that takes steps, with the history of its turns.
ghost use Rattle.std.specs.Prelude.{◌≡◌, false, []};
ghost use Rattle.shared_steps.specs.Histories.{TakesNext};

use crate::steps::TakesSteps;
use std::alloc::{AllocError, Global};
use std::snapshot::Snapshot;
use stripe_lock::KeptState;

/// What came of a turn.
#[derive(Drop)]
pub enum Taken<A: Drop, W: Drop> {
    Said(A),
    Stopped(W),
    /// An earlier turn had stopped it: nothing was done.
    Left,
}

/// One turn: whose it was, the job's number, the step and what came of it.
#[derive(Drop)]
pub struct StepRow<X, A: Drop, W: Drop> {
    pub worker: u32,
    pub job: u64,
    pub step: Snapshot<X>,
    pub taken: Taken<A, W>,
}

/// What a history lists: how the state was before the first turn, or a turn's step and what came of
/// it. No value of it is made.
pub enum StepRecord<S, X, A: Drop, W: Drop> {
    Began(S),
    Took(X, Taken<A, W>),
}

/// A state that takes steps, and the turns since it was shared.
pub struct SharedSteps<S: TakesSteps> {
    pub(crate) state: S,
    pub(crate) rows: Vec<StepRow<S::Step, S::Answer, S::Stop>>,
    /// A step stopped it.
    pub(crate) stopped: bool,
    pub(crate) first: Snapshot<S>,
}

impl<S: TakesSteps> SharedSteps<S> {
    /// A state that has made no turn yet.
    pub(crate) fn new(alloc: Global, state: S) -> SharedSteps<S>
        requires { S.stands state }
        ensures state { result.state ≡ state }
        ensures rows { result.rows.items ≡ [] }
        ensures stopped { result.stopped ≡ false }
        ensures first { result.first.value ≡ state }
    {
        SharedSteps {
            first: Snapshot::of(&state),
            state,
            rows: Vec::new(alloc),
            stopped: false,
        }
    }

    /// Takes a step, where none has stopped it.
    pub(crate) fn take_next(&mut self, step: &mut S::Step) -> Taken<S::Answer, S::Stop>
        requires stands { S.stands self.old.state }
        requires space { S.has_space self.old.state }
        ensures takes { TakesNext S.takes self.old.stopped self.old.state step.old
            self.new.stopped self.new.state result }
        ensures stands { S.stands self.new.state }
        ensures rows { self.new.rows ≡ self.old.rows }
        ensures first { self.new.first ≡ self.old.first }
    {
        if self.stopped {
            return Taken::Left;
        }
        match self.state.take(step) {
            Ok(answer) => Taken::Said(answer),
            Err(why) => {
                self.stopped = true;
                Taken::Stopped(why)
            }
        }
    }
}

impl<S: TakesSteps> KeptState for SharedSteps<S> {
    ghost use Rattle.std.specs.Prelude.{◌≡◌, ◌<◌, [], ◌∷◌, length, vec_len, vec_capacity};
    ghost use Rattle.shared_steps.specs.Histories.{IsKept, IsLegal, turns_of};
    ghost use Rattle.shared_steps.specs.declared.shared.StepRecord.TheVariants.{Began};

    type Record = StepRecord<S, S::Step, S::Answer, S::Stop>;

    ghost chronicle = { λ x. Began x.first.value ∷ [] };

    ghost turns = { λ x. turns_of x.rows.items };

    ghost is_sound = { λ x. IsKept S.takes S.stands x.first.value (turns_of x.rows.items) x.stopped x.state };

    ghost has_room = { λ x. (vec_len x.rows < vec_capacity x.rows) × S.has_space x.state };

    ghost is_legal = { λ chronicle turns. IsLegal S.takes chronicle turns };

    ghost floor_of = { λ chronicle turns. 0 };

    fn count(&self) -> u64 {
        self.rows.len() as u64
    }

    fn floor(&self) -> u64 {
        0
    }

    fn make_room(&mut self) -> Result<(), AllocError> {
        if !self.state.has_space() {
            return Err(AllocError);
        }
        self.rows.reserve(1)
    }

    fn has_legal_turns(&self) {}
}
