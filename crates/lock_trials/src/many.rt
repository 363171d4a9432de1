//! Many threads, and a pass that only looks.
ghost use Rattle.std.specs.Prelude.{◌≡◌, ◌<◌, All, IfOk, vec_len};

use crate::tally::{Tally, Tick};
use std::alloc::{AllocError, Global};
use std::sync::Wait;
use std::thread;
use std::thread::Threads;
use stripe_lock::{Pass, SharedStripe};

// So many ticks of one pass; whether memory was enough.
fn tick_on<H: Wait>(rt: &H, lock: &SharedStripe<Tally>, mut pass: Pass<u64>, ticks: u64) -> bool
    requires { pass.lock ≡ lock.now.lock }
{
    for job in 0..ticks {
        if lock.with(rt, &mut pass, &mut Tick { job }).is_err() {
            return false;
        }
    }
    true
}

/// So many ticks of each pass, in a thread of its own; for which of them memory was enough.
pub fn tick_each<H: Threads + Wait + Sync>(
    rt: &H,
    lock: &SharedStripe<Tally>,
    passes: Vec<Pass<u64>>,
    ticks: u64,
) -> Result<Vec<bool>, AllocError>
    requires { All (λ p. p.lock ≡ lock.now.lock) passes.items }
    ensures { IfOk result (λ v. vec_len v ≡ vec_len passes) }
{
    thread::map_vec(rt, passes, &|pass| tick_on(rt, lock, pass, ticks))
}

/// The count and the floor that a pass sees once each of so many others has ticked.
pub fn looked_at<H: Threads + Wait + Sync>(
    rt: &H,
    alloc: Global,
    threads: u32,
    ticks: u64,
) -> Option<(u64, u64)>
    requires { threads < 64 }
{
    let Ok((lock, mut passes)) = SharedStripe::new(alloc, Tally::new(alloc), threads + 1) else {
        return None;
    };
    let mut pass = passes.pop()?;
    let done = tick_each(rt, &lock, passes, ticks).ok()?;
    if done.iter().any(|enough| !enough) {
        return None;
    }
    Some((lock.seen(&mut pass), lock.floor(&mut pass)))
}
