// Workers of a script of jobs that are at work at once.
use cache_top::Cache;
use device_bay::MemBay;
use edge_io::{MemSink, MemSource, Sink, Source};
use lock_workers::Gate;
use logged_disk::MemDisk;
use run_promise::Status;
use std::alloc::{AllocError, Global};
use std::sync::Wait;
use std::sync::atomic::{AtomicBool, Ordering};
use std::test::Fail;
use std::thread;
use std::thread::Threads;
use work_script::run_work;

/// How often the first worker looks for what the second does.
const LOOKS: u64 = 10_000_000;

/// Holds one worker at its first job until the other has left its own first job.
#[derive(Drop)]
struct Held {
    worker: u32,
    left: AtomicBool,
    missed: AtomicBool,
}

impl Gate for Held {
    fn enter(&self, worker: u32, place: usize) {
        if worker != self.worker || place != 0 {
            return;
        }
        for _ in 0..LOOKS {
            if self.left.load(Ordering::SeqCst) {
                return;
            }
            thread::yield_now();
        }
        self.missed.store(true, Ordering::SeqCst);
    }

    fn leave(&self, worker: u32, place: usize) {
        if worker != self.worker && place == 0 {
            self.left.store(true, Ordering::SeqCst);
        }
    }
}

/// The status of a run of two workers over devices in memory.
fn status_of_two<S: Source, K: Sink, H: Threads + Wait + Sync>(
    rt: &H,
    alloc: Global,
    source: &mut S,
    sink: &mut K,
    held: &Held,
) -> Status {
    let mut bay = MemBay::new(alloc, Vec::new(alloc));
    run_work::<S, K, MemBay, _, _, Cache<MemDisk>, H, Held>(
        rt, alloc, 2, source, sink, &mut bay, held,
    )
}

/// The status of a run of two workers, of whom one is held, and whether it missed the other.
fn run_of_two<H: Threads + Wait + Sync>(
    rt: &H,
    alloc: Global,
    worker: u32,
    sink: &mut MemSink,
) -> Result<(Status, bool), AllocError> {
    let script = b"format mem:a 1 64 64 8 16 4 7\nsplit\n1 put /a 61\n2 put /b 6262\n";
    let mut source = MemSource::new(script.to_vec(alloc)?, Vec::new(alloc));
    let held = Held {
        worker,
        left: AtomicBool::new(false),
        missed: AtomicBool::new(false),
    };
    let status = status_of_two(rt, alloc, &mut source, sink, &held);
    Ok((status, held.missed.load(Ordering::SeqCst)))
}

// Where jobs are done one behind the other, one of these two misses the other worker.

#[test]
fn the_first_worker_is_held_until_the_second_has_made_a_turn(rt: HostRuntime) -> Result<(), Fail> {
    let mut sink = MemSink::new(rt.alloc(), 999)?;
    let (status, missed) = run_of_two(&rt, rt.alloc(), 0, &mut sink)?;
    assert_eq!(rt; status, Status::Done);
    assert!(rt; !missed);
    let answers =
        b"formatted serial 1 cursor 64 floor 8\nturn 1 worker 2 job 1 put 1 length 2 fragments 1\nturn 2 worker 1 job 1 put 2 length 1 fragments 1\n";
    assert_eq!(rt; sink.taken(), answers.as_slice());
    Ok(())
}

#[test]
fn the_second_worker_is_held_until_the_first_has_made_a_turn(rt: HostRuntime) -> Result<(), Fail> {
    let mut sink = MemSink::new(rt.alloc(), 999)?;
    let (status, missed) = run_of_two(&rt, rt.alloc(), 1, &mut sink)?;
    assert_eq!(rt; status, Status::Done);
    assert!(rt; !missed);
    let answers =
        b"formatted serial 1 cursor 64 floor 8\nturn 1 worker 1 job 1 put 1 length 1 fragments 1\nturn 2 worker 2 job 1 put 2 length 2 fragments 1\n";
    assert_eq!(rt; sink.taken(), answers.as_slice());
    Ok(())
}
