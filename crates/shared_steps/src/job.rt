// A step as a job, and the steps of many workers.
ghost use Rattle.std.specs.Prelude.{◌≡◌, ◌<◌, [], ◌∷◌, IfOk, IfErr, map, vec_len};
ghost use Rattle.lock_workers.specs.Workers.{IsShared};
ghost use Rattle.shared_steps.specs.declared.shared.StepRecord.TheVariants.{Began};
ghost use Rattle.shared_steps.specs.Histories.{Goes, records_of, turns_of};
ghost use Rattle.shared_steps.specs.Orders.{StepFits, step_number};

use crate::shared::{SharedSteps, StepRow};
use crate::steps::TakesSteps;
use lock_workers::{Gate, Worked, work};
use std::alloc::{AllocError, Global};
use std::snapshot::Snapshot;
use std::sync::Wait;
use std::thread::Threads;
use stripe_lock::Job;

/// A step that is to be taken in a turn, and its number among those of its worker.
#[derive(Drop)]
pub struct StepJob<X> {
    pub number: u64,
    pub step: X,
}

impl<X, S: TakesSteps<Step = X>> Job<SharedSteps<S>> for StepJob<X> {
    ghost use Rattle.std.specs.Prelude.{◌≡◌};
    ghost use Rattle.shared_steps.specs.Histories.{TakesOwn};

    type Answer = ();

    ghost number = { λ j. j.number };

    ghost fits = { λ old new chronicle before turn answer. TakesOwn old.step turn };

    fn run(&mut self, state: &mut SharedSteps<S>, worker: u32) {
        let step = Snapshot::of(&self.step);
        let taken = state.take_next(&mut self.step);
        state.rows.push_reserved(StepRow {
            worker,
            job: self.number,
            step,
            taken,
        });
    }
}

/// What workers made of a state that takes steps: where it stands, and its turns in their order.
#[derive(Drop)]
pub struct Answered<S: TakesSteps> {
    pub state: S,
    pub rows: Vec<StepRow<S::Step, S::Answer, S::Stop>>,
    /// There was no memory for some turn: its worker did no further job.
    pub short: bool,
}

/// Takes the steps of many workers, each worker's in its order, and each as one turn. Where there is
/// no memory to begin, nothing is done.
pub fn take_all<
    X: Drop + Send,
    A: Drop + Send,
    W: Drop + Send,
    S: TakesSteps<Step = X, Answer = A, Stop = W> + Send,
    H: Threads + Wait + Sync,
    G: Gate + Sync,
>(
    rt: &H,
    alloc: Global,
    state: S,
    jobs: Vec<Vec<StepJob<X>>>,
    gate: &G,
) -> Result<Answered<S>, (AllocError, S)>
    requires stands { S.stands state }
    requires few { vec_len jobs < 64 }
    ensures goes { IfOk result (λ r.
        Goes S.takes state (records_of (turns_of r.rows.items)) r.state) }
    ensures order { IfOk result (λ r. IsShared step_number StepFits (Began state ∷ [])
        (turns_of r.rows.items) (map (λ js. js.items) jobs.items) r.short) }
    ensures stands { IfOk result (λ r. S.stands r.state) }
    ensures back { IfErr result (λ e. e.1 ≡ state) }
{
    let shared = SharedSteps::new(alloc, state);
    match work(rt, alloc, shared, jobs, gate) {
        Ok(Worked { state, short }) => {
            let SharedSteps {
                state,
                rows,
                stopped: _,
                first: _,
            } = state;
            Ok(Answered { state, rows, short })
        }
        Err((error, shared)) => {
            let SharedSteps {
                state,
                rows: _,
                stopped: _,
                first: _,
            } = shared;
            Err((error, state))
        }
    }
}
