// A session behind a lock, and what workers make of it.
ghost use Rattle.std.specs.Prelude.{◌≡◌, ◌<◌, [], ◌∷◌, IfOk, IfErr, map, vec_len};
ghost use Rattle.lock_workers.specs.Workers.{IsShared};
ghost use Rattle.shared_steps.specs.declared.shared.StepRecord.TheVariants.{Began};
ghost use Rattle.shared_steps.specs.Histories.{Goes, records_of, turns_of};
ghost use Rattle.shared_steps.specs.Orders.{StepFits, step_number};
ghost use Rattle.script_run.specs.Run.{Run};
ghost use Rattle.cache_replay.specs.OneLine.{AnswersLine};
ghost use Rattle.cache_replay.specs.Plays.{Plays};
ghost use Rattle.cache_replay.specs.Session.{AreLater, IsSession, devices_of, return_in};
ghost use Rattle.shared_session.specs.Runs.{RunsOn};

use crate::step::JobStep;
use cache_calls::Calls;
use cache_replay::{Session, Stop, in_session, takes_actors};
use lock_workers::Gate;
use script_grammar::{Step, StepAnswer};
use shared_steps::{Answered, StepJob, TakesSteps, take_all};
use std::alloc::{AllocError, Global};
use std::mem;
use std::sync::Wait;
use std::thread::Threads;

/// A session whose steps workers take.
#[derive(Drop)]
pub struct SharedSession<S: Calls> {
    pub session: Session<S>,
}

impl<S: Calls> TakesSteps for SharedSession<S> {
    ghost use Rattle.std.specs.Prelude.{◌<◌, ◌-◌, ◌^◌, length};
    ghost use Rattle.cache_replay.specs.OneLine.{AnswersLine};
    ghost use Rattle.cache_replay.specs.Session.{IsSession, names_in};

    type Step = JobStep;

    type Answer = StepAnswer;

    type Stop = Stop;

    ghost stands = { λ s. IsSession s.session };

    ghost has_space = { λ s. length (names_in s.session) < 2 ^ 32 - 1 };

    ghost takes = { λ old step new result. AnswersLine step.step old.session new.session result };

    fn has_space(&self) -> bool {
        takes_actors(&self.session)
    }

    #[tactic(auto, using(crate::proofs::Needs::needs_of, crate::proofs::Needs::not_of_switch))]
    fn take(&mut self, step: &mut JobStep) -> Result<StepAnswer, Stop> {
        let asked = mem::replace(&mut step.step, Step::Flush);
        in_session(&mut self.session, asked)
    }
}

/// Takes the steps of many workers in a session, each worker's in its order. They are one script in
/// the order of their turns.
pub fn share_session<
    V: Drop + Send,
    R: Drop + Send,
    S: Calls<Writer = V, Reader = R> + Send,
    H: Threads + Wait + Sync,
    G: Gate + Sync,
>(
    rt: &H,
    alloc: Global,
    shared: SharedSession<S>,
    jobs: Vec<Vec<StepJob<JobStep>>>,
    gate: &G,
) -> Result<Answered<SharedSession<S>>, (AllocError, SharedSession<S>)>
    requires session { IsSession shared.session }
    requires few { vec_len jobs < 64 }
    ensures goes { IfOk result (λ r. Goes (λ old step new said. AnswersLine step.step old.session
        new.session said) shared (records_of (turns_of r.rows.items)) r.state) }
    ensures runs { IfOk result (λ r. (run : Run) → Plays run shared.session
        → RunsOn run (records_of (turns_of r.rows.items)) r.state) }
    ensures order { IfOk result (λ r. IsShared step_number StepFits (Began shared ∷ [])
        (turns_of r.rows.items) (map (λ js. js.items) jobs.items) r.short) }
    ensures session { IfOk result (λ r. IsSession r.state.session) }
    ensures device { IfOk result (λ r. AreLater (return_in shared.session) (return_in r.state.session)) }
    ensures devices { IfOk result (λ r. devices_of r.state.session ≡ devices_of shared.session) }
    ensures back { IfErr result (λ e. e.1 ≡ shared) }
{
    take_all(rt, alloc, shared, jobs, gate)
}
