// Threads that run side by side, and reads that are torn or that meet an open turn.
ghost use Rattle.std.specs.Prelude.{◌≡◌};

use doc_header::document_digest;
use edge_io::Failed;
use lock_trials::{Tally, Tick};
use logged_disk::Disk;
use racing_read::{Peek, RaceLog, Raced, Ticket, racing_read};
use std::alloc::AllocError;
use std::sync::Wait;
use std::sync::atomic::{AtomicU64, Ordering};
use std::test::Fail;
use std::thread;
use std::thread::join;
use stripe_lock::{Job, Pass, SharedStripe};
use word_disk::{WordDisk, WordEye};

type Document = [u8; 1024];

/// A document of two blocks, of which only the length in its header is a document's.
fn document(byte: u8) -> Document {
    let mut bytes = [byte; 1024];
    bytes[12..16].copy_from_slice(&896u32.to_le_bytes());
    bytes
}

/// The ticket of a document in the first two blocks, behind one turn of a tally.
fn ticket_of(bytes: &Document) -> Ticket {
    Ticket {
        place: 1,
        block: 0,
        length: 896,
        digest: document_digest(bytes),
    }
}

fn put(disk: &mut WordDisk, bytes: &Document) -> Result<bool, AllocError> {
    disk.make_room(1, 2)?;
    Ok(disk.blocks() >= 2 && disk.write(0, bytes).is_ok())
}

/// How far a thread is that another one waits for.
#[derive(Drop)]
struct Flags {
    begun: AtomicU64,
    done: AtomicU64,
}

fn lowered() -> Flags {
    Flags {
        begun: AtomicU64::new(0),
        done: AtomicU64::new(0),
    }
}

/// Whether the flag was raised before patience ends.
fn is_raised(flag: &AtomicU64) -> bool {
    for _ in 0..20_000_000u64 {
        if flag.load(Ordering::SeqCst) == 1 {
            return true;
        }
        thread::yield_now();
    }
    false
}

fn raise(flag: &AtomicU64) {
    flag.store(1, Ordering::SeqCst);
}

/// Reads the first block, waits until the writer is done, and reads the second one.
#[derive(Drop)]
struct HeldEye<'a> {
    eye: WordEye,
    flags: &'a Flags,
}

impl<'a> Peek for HeldEye<'a> {
    ghost missed = { λ eye. 0 };

    fn read_at(&mut self, log: &mut RaceLog, block: u64, into: &mut [u8]) -> Result<(), Failed> {
        let mut aside = RaceLog::new();
        let _first = self.eye.read_at(&mut aside, block, into);
        raise(&self.flags.begun);
        let _in_time = is_raised(&self.flags.done);
        let mut again = [0; 1024];
        let _second = self.eye.read_at(&mut aside, block, &mut again);
        if into.len() == 1024 {
            into[512..].copy_from_slice(&again[512..]);
        }
        log.gave(block, into);
        Ok(())
    }

    fn faults(&self) -> u64 {
        0
    }
}

/// Once the read has begun, makes a turn and writes another document over the first one. Says
/// whether the read had begun in time.
fn overwrite<H: Wait>(
    rt: &H,
    shared: &SharedStripe<Tally>,
    mut pass: Pass<u64>,
    disk: &mut WordDisk,
    flags: &Flags,
) -> Result<bool, AllocError>
    requires { pass.lock ≡ shared.now.lock }
{
    let in_time = is_raised(&flags.begun);
    shared.with(rt, &mut pass, &mut Tick { job: 1 })?;
    let is_put = put(disk, &document(8))?;
    raise(&flags.done);
    Ok(in_time && is_put)
}

/// A racing read of two blocks, and what it read.
fn read_two<P: Peek>(
    shared: &SharedStripe<Tally>,
    mut pass: Pass<u64>,
    eye: &mut P,
    ticket: &Ticket,
) -> (Raced, Document)
    requires { pass.lock ≡ shared.now.lock }
{
    let mut log = RaceLog::new();
    let mut into = [0; 1024];
    if ticket.length != 896 {
        return (Raced::DeviceFault { count: 0 }, into);
    }
    let raced = racing_read(shared, &mut pass, eye, &mut log, ticket, &mut into);
    (raced, into)
}

/// A racing read that is held open until the writer is done.
fn read_held(
    shared: &SharedStripe<Tally>,
    pass: Pass<u64>,
    eye: WordEye,
    ticket: &Ticket,
    flags: &Flags,
) -> (Raced, Document)
    requires { pass.lock ≡ shared.now.lock }
{
    let mut eye = HeldEye { eye, flags };
    read_two(shared, pass, &mut eye, ticket)
}

#[test]
fn a_read_that_is_held_open_over_a_turn_is_passed(rt: HostRuntime) -> Result<(), Fail> {
    let alloc = rt.alloc();
    let mut disk = WordDisk::new(alloc, 0, 2)?;
    let eye = disk.eye()?;
    let flags = lowered();
    let Ok((shared, mut passes)) = SharedStripe::new(alloc, Tally::new(alloc), 2) else {
        return Err("no memory".into());
    };
    let reader = passes.pop().ok_or("no pass")?;
    let mut writer = passes.pop().ok_or("no pass")?;
    shared.with(&rt, &mut writer, &mut Tick { job: 0 })?;
    assert!(rt; put(&mut disk, &document(7))?);
    let ticket = ticket_of(&document(7));
    let (written, (raced, into)) = join(
        &rt,
        || overwrite(&rt, &shared, writer, &mut disk, &flags),
        || read_held(&shared, reader, eye, &ticket, &flags),
    );
    assert!(rt; written?);
    assert_eq!(rt; raced, Raced::Passed { place: 1, floor: 2 });
    assert_eq!(rt; (into[511], into[512]), (7, 8));
    Ok(())
}

/// A tick whose turn stays open until a flag is raised, or patience ends.
#[derive(Drop)]
struct HeldTick<'a> {
    flags: &'a Flags,
}

impl<'a> Job<Tally> for HeldTick<'a> {
    type Answer = bool;

    ghost number = { λ tick. 1 };

    ghost fits = { λ old new chronicle before turn answer. Unit {0} };

    fn run(&mut self, state: &mut Tally, worker: u32) -> bool {
        raise(&self.flags.begun);
        let in_time = is_raised(&self.flags.done);
        Tick { job: 1 }.run(state, worker);
        in_time
    }
}

/// Holds a turn open until the reader is done; says whether that was in time.
fn hold<H: Wait>(
    rt: &H,
    shared: &SharedStripe<Tally>,
    mut pass: Pass<u64>,
    flags: &Flags,
) -> Result<bool, AllocError>
    requires { pass.lock ≡ shared.now.lock }
{
    let (in_time, _) = shared.with(rt, &mut pass, &mut HeldTick { flags })?;
    Ok(in_time)
}

/// A racing read once a turn is open, which is held so until it is done.
fn read_within(
    shared: &SharedStripe<Tally>,
    pass: Pass<u64>,
    eye: &mut WordEye,
    ticket: &Ticket,
    flags: &Flags,
) -> (bool, Raced)
    requires { pass.lock ≡ shared.now.lock }
{
    let in_time = is_raised(&flags.begun);
    let (raced, _) = read_two(shared, pass, eye, ticket);
    raise(&flags.done);
    (in_time, raced)
}

#[test]
fn a_read_waits_for_no_turn(rt: HostRuntime) -> Result<(), Fail> {
    let alloc = rt.alloc();
    let mut disk = WordDisk::new(alloc, 0, 2)?;
    let mut eye = disk.eye()?;
    assert!(rt; put(&mut disk, &document(7))?);
    let ticket = ticket_of(&document(7));
    let Ok((shared, mut passes)) = SharedStripe::new(alloc, Tally::new(alloc), 2) else {
        return Err("no memory".into());
    };
    let reader = passes.pop().ok_or("no pass")?;
    let holder = passes.pop().ok_or("no pass")?;
    let flags = lowered();
    let (held, (in_time, raced)) = join(
        &rt,
        || hold(&rt, &shared, holder, &flags),
        || read_within(&shared, reader, &mut eye, &ticket, &flags),
    );
    assert!(rt; held? && in_time);
    assert_eq!(rt; raced, Raced::Given { length: 896 });
    Ok(())
}

/// Two ticks. Before the first one it waits for a flag, where `waits_first` is set, and else before
/// the second one. Behind the first one it raises its own. Says whether the other's came in time.
fn tick_in_step<H: Wait>(
    rt: &H,
    shared: &SharedStripe<Tally>,
    mut pass: Pass<u64>,
    waits_first: bool,
    mine: &AtomicU64,
    other: &AtomicU64,
) -> Result<bool, AllocError>
    requires { pass.lock ≡ shared.now.lock }
{
    let mut in_time = true;
    if waits_first {
        in_time = is_raised(other);
    }
    shared.with(rt, &mut pass, &mut Tick { job: 0 })?;
    raise(mine);
    if !waits_first {
        in_time = is_raised(other);
    }
    shared.with(rt, &mut pass, &mut Tick { job: 1 })?;
    Ok(in_time)
}

// Were one of them run to its end before the other began, it would wait in vain.
#[test]
fn two_workers_run_side_by_side(rt: HostRuntime) -> Result<(), Fail> {
    let alloc = rt.alloc();
    let Ok((shared, mut passes)) = SharedStripe::new(alloc, Tally::new(alloc), 2) else {
        return Err("no memory".into());
    };
    let second = passes.pop().ok_or("no pass")?;
    let first = passes.pop().ok_or("no pass")?;
    let (one, two) = (AtomicU64::new(0), AtomicU64::new(0));
    let (first, second) = join(
        &rt,
        || tick_in_step(&rt, &shared, first, true, &one, &two),
        || tick_in_step(&rt, &shared, second, false, &two, &one),
    );
    assert!(rt; first? && second?);
    Ok(())
}
