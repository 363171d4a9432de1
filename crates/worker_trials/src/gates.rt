// Workers that are held, and that run side by side.
ghost use Rattle.std.specs.Prelude.{◌≡◌, IfOk, vec_len};

use lock_trials::{Tally, Tick};
use lock_workers::{Gate, Open, work};
use std::alloc::{AllocError, Global};
use std::sync::atomic::{AtomicU64, Ordering};
use std::test::Fail;
use std::thread;

/// How often it is looked for what the other worker does.
const LOOKS: u64 = 10_000_000;

/// Holds the first worker at its first job until the second has left its own first job.
#[derive(Drop)]
struct Held {
    left: AtomicU64,
    missed: AtomicU64,
}

impl Held {
    fn new() -> Held {
        Held {
            left: AtomicU64::new(0),
            missed: AtomicU64::new(0),
        }
    }
}

impl Gate for Held {
    fn enter(&self, worker: u32, place: usize) {
        if worker != 0 || place != 0 {
            return;
        }
        for _ in 0..LOOKS {
            if self.left.load(Ordering::SeqCst) == 1 {
                return;
            }
            thread::yield_now();
        }
        self.missed.store(1, Ordering::SeqCst);
    }

    fn leave(&self, worker: u32, place: usize) {
        if worker == 1 && place == 0 {
            self.left.store(1, Ordering::SeqCst);
        }
    }
}

/// So many ticks.
fn ticks(alloc: Global, each: u64) -> Result<Vec<Tick>, AllocError> {
    let mut jobs = Vec::new(alloc);
    for job in 0..each {
        jobs.push(Tick { job })?;
    }
    Ok(jobs)
}

/// So many ticks for each of so many workers.
fn ticks_each(alloc: Global, workers: u64, each: u64) -> Result<Vec<Vec<Tick>>, AllocError>
    ensures { IfOk result (λ all. vec_len all ≡ workers) }
{
    let mut all = Vec::new(alloc);
    for _ in 0..workers {
        all.push(ticks(alloc, each)?)?;
    }
    Ok(all)
}

#[test]
fn two_workers_run_side_by_side(rt: HostRuntime) -> Result<(), Fail> {
    let alloc = rt.alloc();
    let held = Held::new();
    let Ok(worked) = work(
        &rt,
        alloc,
        Tally::new(alloc),
        ticks_each(alloc, 2, 3)?,
        &held,
    ) else {
        return Err("no memory".into());
    };
    assert_eq!(rt; held.missed.load(Ordering::SeqCst), 0);
    assert!(rt; !worked.short);
    assert_eq!(rt; worked.state.rows.len(), 6);
    // The first worker was held until the second had made a turn.
    assert_eq!(rt; worked.state.rows[0].worker, 1);
    Ok(())
}

#[test]
fn sixteen_workers_do_all_their_jobs(rt: HostRuntime) -> Result<(), Fail> {
    let alloc = rt.alloc();
    let Ok(worked) = work(
        &rt,
        alloc,
        Tally::new(alloc),
        ticks_each(alloc, 16, 100)?,
        &Open,
    ) else {
        return Err("no memory".into());
    };
    assert!(rt; !worked.short);
    assert_eq!(rt; worked.state.rows.len(), 1600);
    Ok(())
}

#[test]
fn no_worker_is_none(rt: HostRuntime) -> Result<(), Fail> {
    let alloc = rt.alloc();
    let Ok(worked) = work(
        &rt,
        alloc,
        Tally::new(alloc),
        ticks_each(alloc, 0, 0)?,
        &Open,
    ) else {
        return Err("no memory".into());
    };
    assert_eq!(rt; (worked.short, worked.state.rows.len()), (false, 0));
    Ok(())
}
