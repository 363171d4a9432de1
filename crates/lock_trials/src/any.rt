//! Callers over any state and any job.
ghost use Rattle.std.specs.Prelude.{◌≡◌, [], IfOk, IfErr, IfSome};
ghost use Rattle.stripe_lock.specs.History.{first_number};
ghost use Rattle.stripe_lock.specs.Turns.{Turned};
ghost use Rattle.lock_trials.specs.Standing.{TurnStandsAt};

use std::alloc::{AllocError, Global};
use std::sync::Wait;
use std::thread::{Threads, join};
use stripe_lock::{Job, KeptState, Pass, SharedStripe};

/// A state that may have no `Drop` is shared by one pass, and comes back.
pub fn there_and_back<T: KeptState>(alloc: Global, state: T) -> Result<T, (AllocError, T)>
    requires blank { T.turns state ≡ [] }
    requires sound { T.is_sound state }
    ensures same { IfOk result (λ x. (T.turns x ≡ []) × (T.chronicle x ≡ T.chronicle state)) }
    ensures back { IfErr result (λ e. e.1 ≡ state) }
{
    let (lock, mut passes) = SharedStripe::new(alloc, state, 1)?;
    let pass = passes.pop().unwrap();
    match lock.close(pass) {
        Ok(state) => Ok(state),
        Err(_) => unreachable!(),
    }
}

/// What a call of `with` gave, with the pass.
pub struct Outcome<R, A> {
    pub pass: Pass<R>,
    pub answer: Result<(A, u64), AllocError>,
}

fn once<T: KeptState, J: Job<T>, H: Wait>(
    rt: &H,
    lock: &SharedStripe<T>,
    mut pass: Pass<T::Record>,
    job: &mut J,
) -> Outcome<T::Record, J::Answer>
    requires { pass.lock ≡ lock.now.lock }
    ensures lock { result.pass.lock ≡ lock.now.lock }
    ensures turned { (after : J) × IfOk result.answer (λ r.
        Turned T.KeptState (J.number job.old) (J.fits job.old after) pass result.pass r.0 r.1) }
{
    let answer = lock.with(rt, &mut pass, job);
    Outcome { pass, answer }
}

/// A job by each of two passes, in two threads.
pub fn once_each<
    T: KeptState + Send,
    A: Send,
    J: Job<T, Answer = A> + Send,
    H: Threads + Wait + Sync,
>(
    rt: &H,
    lock: &SharedStripe<T>,
    first: Pass<T::Record>,
    second: Pass<T::Record>,
    a: &mut J,
    b: &mut J,
) -> (Outcome<T::Record, A>, Outcome<T::Record, A>)
    requires { (first.lock ≡ lock.now.lock) × (second.lock ≡ lock.now.lock) }
    ensures lock { (result.0.pass.lock ≡ lock.now.lock) × (result.1.pass.lock ≡ lock.now.lock) }
    ensures first { (after : J) × IfOk result.0.answer (λ r.
        Turned T.KeptState (J.number a.old) (J.fits a.old after) first result.0.pass r.0 r.1) }
    ensures second { (after : J) × IfOk result.1.answer (λ r.
        Turned T.KeptState (J.number b.old) (J.fits b.old after) second result.1.pass r.0 r.1) }
{
    join(
        rt,
        || once(rt, lock, first, a),
        || once(rt, lock, second, b),
    )
}

/// Two threads make a turn each, and the state comes back: both turns stand in its history, at the
/// numbers that were told.
pub fn both_stand<
    T: KeptState + Send + Drop,
    A: Send + Drop,
    J: Job<T, Answer = A> + Send,
    H: Threads + Wait + Sync,
>(
    rt: &H,
    lock: SharedStripe<T>,
    first: Pass<T::Record>,
    second: Pass<T::Record>,
    a: &mut J,
    b: &mut J,
) -> Option<(T, u64, u64)>
    requires { (first.lock ≡ lock.lock) × (second.lock ≡ lock.lock) }
    ensures first { IfSome result (λ r.
        TurnStandsAt (T.turns r.0) (first_number first.owned) (J.number a.old) r.1) }
    ensures second { IfSome result (λ r.
        TurnStandsAt (T.turns r.0) (first_number second.owned) (J.number b.old) r.2) }
{
    let (one, two) = once_each(rt, &lock, first, second, a, b);
    let Outcome {
        pass: mut mine,
        answer: x,
    } = one;
    let Outcome {
        pass: theirs,
        answer: y,
    } = two;
    let Ok((_, x)) = x else {
        return None;
    };
    let Ok((_, y)) = y else {
        return None;
    };
    lock.join(&mut mine, theirs);
    match lock.close(mine) {
        Ok(state) => Some((state, x, y)),
        Err(_) => None,
    }
}
