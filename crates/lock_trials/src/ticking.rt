//! Threads that tick.
ghost use Rattle.std.specs.Prelude.{◌≡◌, ◌+◌, ◌-◌, [], ◌∷◌, IfOk, IfSome, map, length, vec_len};
ghost use mathlib.Core.List.{IsPrefix};
ghost use Rattle.stripe_lock.specs.History.{first_number};
ghost use Rattle.lock_trials.specs.Rows.{turns_of};
ghost use Rattle.lock_trials.specs.Standing.{TurnsStandFrom, AreAllOf};

use crate::tally::{Tally, Tick};
use std::alloc::{AllocError, Global};
use std::sync::Wait;
use std::thread::{Threads, join};
use stripe_lock::{Pass, SharedStripe};

/// A pass behind its ticks, with the numbers that were told.
#[derive(Drop)]
pub struct Ticked {
    pub pass: Pass<u64>,
    pub numbers: Vec<u64>,
}

/// The ticks 0, 1 and so on of a pass that has made no turn.
pub fn tick_all<H: Wait>(
    rt: &H,
    alloc: Global,
    lock: &SharedStripe<Tally>,
    mut pass: Pass<u64>,
    ticks: u64,
) -> Result<Ticked, AllocError>
    requires lock { pass.lock ≡ lock.now.lock }
    requires fresh { pass.owned ≡ record { number = first_number pass.owned; places = [] } ∷ [] }
    ensures lock { IfOk result (λ r. r.pass.lock ≡ lock.now.lock) }
    ensures all { IfOk result (λ r. vec_len r.numbers ≡ ticks) }
    ensures stand { IfOk result (λ r.
        TurnsStandFrom r.pass.seen (first_number pass.owned) 0 r.numbers.items) }
    ensures owned { IfOk result (λ r. let places = map (λ n. n - 1) r.numbers.items in
        r.pass.owned ≡ record { number = first_number pass.owned; places = places } ∷ []) }
{
    let mut numbers = Vec::with_capacity(alloc, ticks as usize)?;
    for job in 0..ticks {
        let (_, number) = lock.with(rt, &mut pass, &mut Tick { job })?;
        numbers.push_reserved(number);
    }
    Ok(Ticked { pass, numbers })
}

/// Two threads tick, and the tally comes back where memory was enough. Each tick stands in it once,
/// at the number that was told.
pub fn tick_both<H: Threads + Wait + Sync>(
    rt: &H,
    alloc: Global,
    ticks: u64,
) -> Option<(Tally, Vec<u64>, Vec<u64>)>
    ensures ticks { IfSome result (λ r. (vec_len r.1 ≡ ticks) × (vec_len r.2 ≡ ticks)) }
    ensures first { IfSome result (λ r. TurnsStandFrom (turns_of r.0.rows.items) 0 0 r.1.items) }
    ensures second { IfSome result (λ r. TurnsStandFrom (turns_of r.0.rows.items) 1 0 r.2.items) }
    ensures once { IfSome result (λ r. AreAllOf (turns_of r.0.rows.items) 0 r.1.items
        × AreAllOf (turns_of r.0.rows.items) 1 r.2.items) }
    ensures no_others { IfSome result (λ r. vec_len r.0.rows ≡ ticks + ticks) }
{
    let Ok((lock, mut passes)) = SharedStripe::new(alloc, Tally::new(alloc), 2) else {
        return None;
    };
    let second = passes.pop()?;
    let first = passes.pop()?;
    let shared = &lock;
    let (one, two) = join(
        rt,
        || tick_all(rt, alloc, shared, first, ticks),
        || tick_all(rt, alloc, shared, second, ticks),
    );
    let (Ok(one), Ok(two)) = (one, two) else {
        return None;
    };
    let Ticked { mut pass, numbers } = one;
    let Ticked {
        pass: other,
        numbers: others,
    } = two;
    lock.join(&mut pass, other);
    match lock.close(pass) {
        Ok(tally) => Some((tally, numbers, others)),
        Err(_) => None,
    }
}

/// A lock of one seat: a tick, a look at the count and the floor, and the end.
pub fn tick_once<H: Wait>(rt: &H, alloc: Global, job: u64) -> Option<(Tally, u64, u64)> {
    let Ok((lock, mut passes)) = SharedStripe::new(alloc, Tally::new(alloc), 1) else {
        return None;
    };
    let mut pass = passes.pop()?;
    lock.with(rt, &mut pass, &mut Tick { job }).ok()?;
    let count = lock.seen(&mut pass);
    let floor = lock.floor(&mut pass);
    let tally = lock.close(pass).ok()?;
    Some((tally, count, floor))
}

/// Whether a lock with two passes out comes back from `close`, and closes once they are joined.
pub fn is_refused(alloc: Global) -> bool {
    let Ok((lock, mut passes)) = SharedStripe::new(alloc, Tally::new(alloc), 2) else {
        return false;
    };
    let (Some(second), Some(first)) = (passes.pop(), passes.pop()) else {
        return false;
    };
    let Err((lock, mut first)) = lock.close(first) else {
        return false;
    };
    lock.join(&mut first, second);
    lock.close(first).is_ok()
}
