// One worker.
ghost use Rattle.std.specs.Prelude.{◌≡◌, [], ◌∷◌, false, length};
ghost use Rattle.stripe_lock.specs.History.{first_number};
ghost use Rattle.lock_workers.specs.Jobs.{DidFront, HasDone};

use crate::gate::Gate;
use std::sync::Wait;
use stripe_lock::{Job, KeptState, Pass, SharedStripe};

/// A pass, and the jobs that are to be done under its number, in their order.
#[derive(Drop)]
pub struct Worker<R, J: Drop> {
    pub pass: Pass<R>,
    pub jobs: Vec<J>,
    /// There was no memory for one of them, and it and those behind it were not done.
    pub short: bool,
}

/// Does these jobs, each in a turn of its own, up to the first for which there is no memory; whether
/// there was one.
pub fn do_jobs<T: KeptState, A: Drop, J: Job<T, Answer = A>, H: Wait, G: Gate>(
    rt: &H,
    lock: &SharedStripe<T>,
    gate: &G,
    pass: &mut Pass<T::Record>,
    jobs: &mut [J],
) -> bool
    requires lock { pass.old.lock ≡ lock.now.lock }
    requires fresh { HasDone J.number J.fits (first_number pass.old.owned) [] pass.old }
    ensures lock { pass.new.lock ≡ lock.now.lock }
    ensures chronicle { pass.new.chronicle ≡ pass.old.chronicle }
    ensures done { DidFront J.number J.fits (first_number pass.old.owned) jobs.old pass.new result }
{
    let number = lock.number(pass);
    for place in 0..jobs.len() {
        gate.enter(number, place);
        match lock.with(rt, pass, &mut jobs[place]) {
            Ok(_) => gate.leave(number, place),
            Err(_) => return true,
        }
    }
    false
}
