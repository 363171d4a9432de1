// All workers, in threads of their own.
ghost use Rattle.std.specs.Prelude.{◌≡◌, ◌<◌, ◌≤◌, ◌+◌, ◌||◌, ◌∷◌, [], ℕ, false, List, length, map, All, IfOk, IfErr, vec_len, vec_capacity};
ghost use Rattle.atomic_table.specs.Seated.{TableId};
ghost use Rattle.stripe_lock.specs.Passes.{dealt};
ghost use Rattle.lock_workers.specs.Jobs.{HasDone};
ghost use Rattle.lock_workers.specs.Workers.{AllWork, AreHired, Gathers, IsShared, MayBegin, Works, jobs_of};

use crate::gate::Gate;
use crate::worker::{Worker, do_jobs};
use std::alloc::{AllocError, Global};
use std::sync::Wait;
use std::thread;
use std::thread::Threads;
use stripe_lock::{Job, KeptState, Pass, SharedStripe};

/// What comes back of a state that workers shared.
#[derive(Drop)]
pub struct Worked<T> {
    pub state: T,
    /// There was no memory for some turn: its worker did no further job.
    pub short: bool,
}

// A worker for each of these lists of jobs, by the first of the passes.
fn hire<R, J: Drop>(passes: &mut Vec<Pass<R>>, jobs: Vec<Vec<J>>, workers: &mut Vec<Worker<R, J>>)
    requires room { (workers.old.items ≡ []) × (vec_len workers.old ≡ 0)
        × (vec_len jobs ≤ vec_capacity workers.old) }
    requires enough { vec_len jobs < vec_len passes.old }
    ensures hired { (lock : TableId) (chronicle : List R) (floor : ℕ)
        → passes.old.items ≡ dealt lock chronicle floor 0 (vec_len jobs + 1)
        → AreHired lock chronicle 0 workers.new.items (map (λ js. js.items) jobs.items) }
    ensures last { (lock : TableId) (chronicle : List R) (floor : ℕ)
        → passes.old.items ≡ dealt lock chronicle floor 0 (vec_len jobs + 1)
        → passes.new.items ≡ dealt lock chronicle floor (vec_len jobs) 1 }
    ensures count { vec_len workers.new ≡ vec_len jobs }
    ensures left { vec_len passes.new + vec_len jobs ≡ vec_len passes.old }
{
    let mut jobs = jobs;
    for _ in 0..jobs.len() {
        workers.push_reserved(Worker {
            pass: passes.remove(0),
            jobs: jobs.remove(0),
            short: false,
        });
    }
}

// All jobs of one worker.
fn do_all<T: KeptState, A: Drop, J: Job<T, Answer = A> + Drop, H: Wait, G: Gate>(
    rt: &H,
    lock: &SharedStripe<T>,
    gate: &G,
    worker: &mut Worker<T::Record, J>,
)
    requires { MayBegin J.number J.fits lock.now.lock worker.old }
    ensures { Works J.number J.fits lock.now.lock worker.old worker.new }
{
    worker.short = do_jobs(rt, lock, gate, &mut worker.pass, &mut worker.jobs);
}

// Each worker in a thread of its own.
fn all_work<
    T: KeptState + Send,
    A: Drop + Send,
    J: Job<T, Answer = A> + Drop + Send,
    H: Threads + Wait + Sync,
    G: Gate + Sync,
>(rt: &H, lock: &SharedStripe<T>, gate: &G, workers: &mut [Worker<T::Record, J>])
    requires { All (λ w. MayBegin J.number J.fits lock.now.lock w) workers.old }
    ensures work { AllWork J.number J.fits lock.now.lock workers.old workers.new }
{
    let threads = workers.len().max(1);
    thread::for_each_mut(
        rt,
        workers,
        threads,
        &|_, worker| { do_all(rt, lock, gate, worker) },
    );
}

fn either(a: bool, b: bool) -> bool
    ensures { result ≡ (a || b) }
{
    a || b
}

// Takes the passes of all workers into one; whether memory was short for one of them.
fn gather<T: KeptState, A: Drop, J: Job<T, Answer = A> + Drop>(
    lock: &SharedStripe<T>,
    pass: &mut Pass<T::Record>,
    workers: Vec<Worker<T::Record, J>>,
) -> bool
    requires each { All (λ w. w.pass.lock ≡ lock.now.lock) workers.items }
    requires own { pass.old.lock ≡ lock.now.lock }
    ensures lock { pass.new.lock ≡ lock.now.lock }
    ensures gathers { (chronicle : List T.Record) (own : ℕ) (jobs : List (List J))
        → Gathers J.number J.fits lock.now.lock chronicle own jobs pass.old workers.items false
        → Gathers J.number J.fits lock.now.lock chronicle own jobs pass.new [] result }
{
    let mut workers = workers;
    let mut missed = false;
    for _ in 0..workers.len() {
        let Worker {
            pass: other,
            jobs: _,
            short,
        } = workers.remove(0);
        lock.join(pass, other);
        missed = either(missed, short);
    }
    missed
}

// Lets the workers of a lock do their jobs, and closes it.
fn share<
    T: KeptState + Send,
    A: Drop + Send,
    J: Job<T, Answer = A> + Drop + Send,
    H: Threads + Wait + Sync,
    G: Gate + Sync,
>(
    rt: &H,
    lock: SharedStripe<T>,
    pass: Pass<T::Record>,
    workers: Vec<Worker<T::Record, J>>,
    gate: &G,
) -> Worked<T>
    requires lock { pass.lock ≡ lock.lock }
    requires seats { lock.seats ≡ vec_len workers + 1 }
    requires fresh { (pass.seen ≡ [])
        × (pass.owned ≡ record { number = vec_len workers; places = [] } ∷ []) }
    requires hired { AreHired lock.lock pass.chronicle 0 workers.items (jobs_of workers.items) }
    ensures shared { IsShared J.number J.fits pass.chronicle (T.turns result.state)
        (jobs_of workers.items) result.short }
    ensures chronicle { T.chronicle result.state ≡ pass.chronicle }
    ensures sound { T.is_sound result.state }
{
    let mut pass = pass;
    let mut workers = workers;
    all_work(rt, &lock, gate, &mut workers);
    let short = gather(&lock, &mut pass, workers);
    match lock.close(pass) {
        Ok(state) => Worked { state, short },
        Err(_) => unreachable!(),
    }
}

/// Shares a state without turns among workers, one for each of these lists of jobs, and gives it back
/// once they are done.
pub fn work<
    T: KeptState + Send,
    A: Drop + Send,
    J: Job<T, Answer = A> + Drop + Send,
    H: Threads + Wait + Sync,
    G: Gate + Sync,
>(
    rt: &H,
    alloc: Global,
    state: T,
    jobs: Vec<Vec<J>>,
    gate: &G,
) -> Result<Worked<T>, (AllocError, T)>
    requires blank { T.turns state ≡ [] }
    requires sound { T.is_sound state }
    requires few { vec_len jobs < 64 }
    ensures shared { IfOk result (λ r. IsShared J.number J.fits (T.chronicle state) (T.turns r.state)
        (map (λ js. js.items) jobs.items) r.short) }
    ensures chronicle { IfOk result (λ r. T.chronicle r.state ≡ T.chronicle state) }
    ensures sound { IfOk result (λ r. T.is_sound r.state) }
    ensures back { IfErr result (λ e. e.1 ≡ state) }
{
    let Ok(mut workers) = Vec::with_capacity(alloc, jobs.len()) else {
        return Err((AllocError, state));
    };
    let seats = jobs.len() as u32 + 1;
    let (lock, mut passes) = SharedStripe::new(alloc, state, seats)?;
    hire(&mut passes, jobs, &mut workers);
    let pass = passes.remove(0);
    Ok(share(rt, lock, pass, workers, gate))
}
