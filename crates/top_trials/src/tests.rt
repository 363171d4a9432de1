// What no clause says: streams and devices that fail, and when an answer is out.
ghost use Rattle.std.specs.Prelude.{◌≡◌, ℕ, ◌≤◌, List, true, false};
ghost use Rattle.std.proofs.Props.{props};
ghost use Rattle.device_log.specs.Image.{blank};
ghost use Rattle.device_log.specs.Calls.{Flipped, PowerCut, Told};
ghost use Rattle.device_log.specs.Calls as calls;
ghost use Rattle.device_log.specs.DeviceLog.{calls_of};
ghost use Rattle.device_log.specs.Faults.{faults_of, obeys_switch};
ghost use Rattle.device_log.proofs.ReadLaws.{reads_are_prop};
ghost use Rattle.logged_disk.specs.Device.{Adds, CutLeaves, IsHonest, IsTrusted, Keeps, seen};
ghost use Rattle.logged_disk.specs.Honest.{CutsAreHonest, cuts_are_prop};
ghost use Rattle.logged_disk.specs.FileTrust.{file_trust, seen_is_trusted, trusted_reads, none_is_honest};
ghost use Rattle.logged_disk.specs.MemDisk.{mem_state};
ghost use Rattle.device_bay.specs.Register.{IsRegister};

use cache_top::cache_main;
use device_bay::{Bay, BayFault, MemBay, OWN_BLOCKS, Register};
use device_log::{CutChoice, DeviceLog};
use edge_io::{Failed, MemSink, MemSource, Sink, Source};
use logged_disk::{BLOCK_BYTES, Disk, MemDisk, PowerDisk};
use run_promise::Status;
use std::alloc::{AllocError, Global};
use std::cell::Cell;
use std::sync::Wait;
use std::test::Fail;
use std::thread::Threads;

/// The status of a run.
fn status_of<S: Source, K: Sink, D: PowerDisk + Send, B: Bay<Dev = D>, H: Threads + Wait + Sync>(
    rt: &H,
    alloc: Global,
    source: &mut S,
    sink: &mut K,
    bay: &mut B,
) -> Result<Status, AllocError> {
    let word = String::from_str(alloc, "replay")?;
    Ok(cache_main(rt, alloc, &[word], source, sink, bay))
}

/// The status of a run over devices in memory.
fn status_in_memory<S: Source, K: Sink, H: Threads + Wait + Sync>(
    rt: &H,
    alloc: Global,
    source: &mut S,
    sink: &mut K,
) -> Result<Status, AllocError> {
    let mut bay = MemBay::new(alloc, Vec::new(alloc));
    status_of(rt, alloc, source, sink, &mut bay)
}

#[test]
fn a_stream_that_fails_ends_the_run(rt: HostRuntime) -> Result<(), Fail> {
    let script = b"format mem:a 1 64 64 8 16 4 7\nget /a\n";
    let rows = [
        // how many bytes a read gives, the read that fails, and how many bytes the sink takes
        (
            (1, 0, 99),
            "formatted serial 1 cursor 64 floor 8\nmiss never-put\n",
            Status::Done,
        ),
        (
            (30, 2, 99),
            "formatted serial 1 cursor 64 floor 8\nerror read-fault\n",
            Status::ReadFault,
        ),
        ((99, 0, 10), "formatted ", Status::WriteFault),
    ];
    for ((piece, failing, room), answers, want) in rows {
        let fail_at = vec![in rt.alloc(); failing]?;
        let source = MemSource::new(script.to_vec(rt.alloc())?, fail_at);
        let mut source = source.in_pieces_of(piece);
        let mut sink = MemSink::new(rt.alloc(), room)?;
        let status = status_in_memory(&rt, rt.alloc(), &mut source, &mut sink)?;
        assert_eq!(rt; status, want, "{piece} bytes a read");
        assert_eq!(rt; sink.taken(), answers.as_bytes(), "{piece} bytes a read");
    }
    Ok(())
}

/// A source that looks, at each read, whether the answers to the lines that it gave are out.
#[derive(Drop)]
struct Watching<'a> {
    source: MemSource,
    answered: &'a Cell<u64>,
    lines: u64,
    early: u64,
}

impl Source for Watching<'_> {
    ghost reads = { λ watching. ⟦<MemSource as Source>⟧.reads watching.source };

    ghost left = { λ watching. ⟦<MemSource as Source>⟧.left watching.source };

    fn read(&mut self, into: &mut [u8]) -> Result<usize, Failed> {
        if self.answered.get() < self.lines {
            self.early = self.early.saturating_add(1);
        }
        let count = self.source.read(into)?;
        if count > 0 {
            self.lines = self.lines.saturating_add(1);
        }
        Ok(count)
    }

    fn faults(&self) -> u64 {
        self.source.faults()
    }

    ghost are_bytes = { λ watching. watching.source.log.are_bytes };
}

/// A sink that shows how many answers it took.
#[derive(Drop)]
struct Showing<'a> {
    sink: MemSink,
    answered: &'a Cell<u64>,
}

impl Sink for Showing<'_> {
    ghost writes = { λ showing. ⟦<MemSink as Sink>⟧.writes showing.sink };

    fn write_all(&mut self, bytes: &[u8]) -> Result<(), Failed> {
        self.sink.write_all(bytes)?;
        self.answered.set(self.answered.get().saturating_add(1));
        Ok(())
    }

    fn faults(&self) -> u64 {
        self.sink.faults()
    }

    ghost are_bytes = { λ showing. showing.sink.log.are_bytes };
}

#[test]
fn each_answer_is_out_before_the_next_line_is_read(rt: HostRuntime) -> Result<(), Fail> {
    let answered = Cell::new(0);
    let script = b"now 1\nnow 2\nnow 3\n".to_vec(rt.alloc())?;
    // Each read gives one line.
    let mut source = Watching {
        source: MemSource::new(script, Vec::new(rt.alloc())).in_pieces_of(6),
        answered: &answered,
        lines: 0,
        early: 0,
    };
    let mut sink = Showing {
        sink: MemSink::new(rt.alloc(), 99)?,
        answered: &answered,
    };
    let status = status_in_memory(&rt, rt.alloc(), &mut source, &mut sink)?;
    assert_eq!(rt; status, Status::Done);
    assert_eq!(rt; sink.sink.taken(), b"now 1\nnow 2\nnow 3\n".as_slice());
    assert_eq!(rt; source.lines, 3);
    assert_eq!(rt; source.early, 0);
    Ok(())
}

/// A device that fails calls as one of memory does which was told to before it was attached. It has no switch of its own.
#[derive(Drop)]
struct Faulty {
    memory: MemDisk,
    log: DeviceLog,
    ghost counted: { (mem_state memory).faults ≡ faults_of (calls_of log) },
}

#[tactic(auto, using(logged_disk::proofs::FileLemmas::file_trust_falls, logged_disk::proofs::FileLemmas::trusted_read), unfolding(device_log::specs::Faults::faults_of))]
impl Disk for Faulty {
    ghost use Rattle.device_log.proofs.Puts.{blank_is_image};
    ghost use Rattle.logged_disk.specs.Switchless.{asks_none};

    ghost state = { λ disk. record (mem_state disk.memory) { trust = file_trust blank (calls_of disk.log); has_switch = false; past = calls_of disk.log } };

    fn blocks(&self) -> u64 {
        self.memory.blocks()
    }

    fn faults(&self) -> u64 {
        self.memory.faults()
    }

    fn make_room(&mut self, calls: u32, blocks: u64) -> Result<(), AllocError> {
        self.memory.make_room(calls, blocks)
    }

    fn read(&mut self, block: u64, into: &mut [u8]) -> Result<(), Failed> {
        match self.memory.read(block, into) {
            Ok(()) => {
                self.log.read(block, into);
                Ok(())
            }
            Err(failed) => {
                let blocks = (into.len() / BLOCK_BYTES) as u64;
                self.log.refused_read(block, blocks, self.memory.faults());
                Err(failed)
            }
        }
    }

    fn write(&mut self, block: u64, bytes: &[u8]) -> Result<(), Failed> {
        match self.memory.write(block, bytes) {
            Ok(()) => {
                self.log.wrote(block, bytes);
                Ok(())
            }
            Err(failed) => {
                let blocks = (bytes.len() / BLOCK_BYTES) as u64;
                self.log
                    .refused_write(block, blocks, &[], self.memory.faults());
                Err(failed)
            }
        }
    }

    fn sync(&mut self) -> Result<(), Failed> {
        match self.memory.sync() {
            Ok(()) => {
                self.log.synced();
                Ok(())
            }
            Err(failed) => {
                self.log.refused_sync(self.memory.faults());
                Err(failed)
            }
        }
    }

    ghost is_log = { λ disk. disk.log.is_log };

    ghost was_image = { λ disk. blank_is_image };

    ghost counted = { λ disk. disk.counted };

    ghost obeys = { λ disk. asks_none (obeys_switch (calls_of disk.log) ≡ true) };

    ghost reads = { λ disk trusted. trusted_reads blank (calls_of disk.log) trusted };

    ghost tells = { λ disk seen. seen_is_trusted blank (calls_of disk.log) seen };

    ghost switched = { λ disk. asks_none (IsTrusted (record (mem_state disk.memory) { trust = file_trust blank (calls_of disk.log); has_switch = false; past = calls_of disk.log })) };

    ghost honest = { λ disk. none_is_honest blank (calls_of disk.log) (CutsAreHonest true blank (calls_of disk.log)) };

    ghost unturned = { λ disk has none. asks_none (IsHonest (record (mem_state disk.memory) { trust = file_trust blank (calls_of disk.log); has_switch = false; past = calls_of disk.log })) has };
}

// Whatever its switch is told is noted alone.
#[tactic(auto, using(logged_disk::proofs::FileLemmas::file_trust_falls), unfolding(device_log::specs::Faults::faults_of))]
impl PowerDisk for Faulty {
    fn has_switch(&self) -> bool {
        false
    }

    fn cut(&mut self, choice: CutChoice)
        ensures keeps { Keeps 1 0 (record (mem_state self.old.memory) { trust = file_trust blank (calls_of self.old.log); has_switch = false; past = calls_of self.old.log }) (record (mem_state self.new.memory) { trust = file_trust blank (calls_of self.new.log); has_switch = false; past = calls_of self.new.log }) }
        ensures logs { (left : List ℕ)
            × Adds (PowerCut choice left) (record (mem_state self.old.memory) { trust = file_trust blank (calls_of self.old.log); has_switch = false; past = calls_of self.old.log }) (record (mem_state self.new.memory) { trust = file_trust blank (calls_of self.new.log); has_switch = false; past = calls_of self.new.log }) }
        ensures leaves { IsHonest (record (mem_state self.new.memory) { trust = file_trust blank (calls_of self.new.log); has_switch = false; past = calls_of self.new.log })
            → CutLeaves (record (mem_state self.old.memory) { trust = file_trust blank (calls_of self.old.log); has_switch = false; past = calls_of self.old.log }) (seen (record (mem_state self.new.memory) { trust = file_trust blank (calls_of self.new.log); has_switch = false; past = calls_of self.new.log })) }
    {
        self.log.cut_in_memory(choice, 0);
    }

    fn fail(&mut self, nth: u64)
        ensures keeps { Keeps 1 0 (record (mem_state self.old.memory) { trust = file_trust blank (calls_of self.old.log); has_switch = false; past = calls_of self.old.log }) (record (mem_state self.new.memory) { trust = file_trust blank (calls_of self.new.log); has_switch = false; past = calls_of self.new.log }) }
        ensures logs { Adds (Told (calls.Fail nth)) (record (mem_state self.old.memory) { trust = file_trust blank (calls_of self.old.log); has_switch = false; past = calls_of self.old.log }) (record (mem_state self.new.memory) { trust = file_trust blank (calls_of self.new.log); has_switch = false; past = calls_of self.new.log }) }
    {
        self.log.told_fail(nth);
    }

    fn stop_after(&mut self, passed: u64)
        ensures keeps { Keeps 1 0 (record (mem_state self.old.memory) { trust = file_trust blank (calls_of self.old.log); has_switch = false; past = calls_of self.old.log }) (record (mem_state self.new.memory) { trust = file_trust blank (calls_of self.new.log); has_switch = false; past = calls_of self.new.log }) }
        ensures logs { Adds (Told (calls.StopAfter passed)) (record (mem_state self.old.memory) { trust = file_trust blank (calls_of self.old.log); has_switch = false; past = calls_of self.old.log }) (record (mem_state self.new.memory) { trust = file_trust blank (calls_of self.new.log); has_switch = false; past = calls_of self.new.log }) }
    {
        self.log.told_stop(passed);
    }

    #[tactic(auto, using(logged_disk::proofs::FileLemmas::file_trust_falls), unfolding(device_log::specs::Faults::faults_of, logged_disk::specs::FileTrust::file_trust))]
    fn flip(&mut self, block: u64, byte: u32)
        ensures keeps { Keeps 1 1 (record (mem_state self.old.memory) { trust = file_trust blank (calls_of self.old.log); has_switch = false; past = calls_of self.old.log }) (record (mem_state self.new.memory) { trust = file_trust blank (calls_of self.new.log); has_switch = false; past = calls_of self.new.log }) }
        ensures logs { Adds (Flipped block byte) (record (mem_state self.old.memory) { trust = file_trust blank (calls_of self.old.log); has_switch = false; past = calls_of self.old.log }) (record (mem_state self.new.memory) { trust = file_trust blank (calls_of self.new.log); has_switch = false; past = calls_of self.new.log }) }
        ensures trust { (record (mem_state self.new.memory) { trust = file_trust blank (calls_of self.new.log); has_switch = false; past = calls_of self.new.log }).trust ≤ 1 }
    {
        self.log.flipped(block, u64::from(byte));
    }
}

/// A device of which the call of this number is to fail.
#[tactic(auto, using(logged_disk::specs::MemoryFacts::memory_counted), unfolding(device_log::specs::Faults::faults_of))]
fn armed(alloc: Global, number: u64, blocks: u64, nth: u64) -> MemDisk
    ensures size { (mem_state result).size ≡ blocks }
    ensures number { (mem_state result).number ≡ number }
    ensures faults { (mem_state result).faults ≡ 0 }
{
    let mut memory = MemDisk::new(alloc, number, blocks);
    if nth == 0 || memory.make_room(1, 0).is_err() {
        return memory;
    }
    memory.fail(nth);
    memory
}

/// A bay of devices in memory, each of which fails its call of this number.
#[derive(Drop)]
struct FailingBay {
    nth: u64,
    register: Register<Faulty>,
    ghost is_register: { IsRegister (λ disk. record (mem_state disk.memory) { trust = file_trust blank (calls_of disk.log); has_switch = false; past = calls_of disk.log }) register } by { Prim.hlevel (props, reads_are_prop, cuts_are_prop) },
}

#[tactic(auto, unfolding(device_log::specs::Faults::faults_of))]
impl Bay for FailingBay {
    ghost use Rattle.device_bay.specs.Register.{calls_in};

    type Dev = Faulty;

    ghost past = { λ bay. calls_in (λ disk. record (mem_state disk.memory) { trust = file_trust blank (calls_of disk.log); has_switch = false; past = calls_of disk.log }) bay.register };

    fn attach(&mut self, alloc: Global, name: &[u8], blocks: u64) -> Result<Faulty, BayFault> {
        let number = self.register.number();
        let memory = armed(alloc, number, blocks.max(OWN_BLOCKS), self.nth);
        self.register.gave(name, blocks);
        Ok(Faulty {
            memory,
            log: DeviceLog::new(),
        })
    }

    fn give_back(&mut self, device: Faulty) {
        self.register.took(&device);
    }

    fn faults(&self) -> u64 {
        self.register.faults()
    }

    ghost is_log = { λ bay. bay.is_register.is_log };
}

/// The status of a run over devices that fail their call of this number.
fn status_in_failing<S: Source, K: Sink, H: Threads + Wait + Sync>(
    rt: &H,
    alloc: Global,
    source: &mut S,
    sink: &mut K,
    nth: u64,
) -> Result<Status, AllocError> {
    let mut bay = FailingBay {
        nth,
        register: Register::new(),
    };
    status_of(rt, alloc, source, sink, &mut bay)
}

// The count is told, no session stands, and the run goes on.
#[test]
fn a_call_of_a_format_that_fails_leaves_no_session(rt: HostRuntime) -> Result<(), Fail> {
    for nth in 1..=7 {
        let script = b"format mem:a 1 64 64 8 16 4 7\nnow 7\n".to_vec(rt.alloc())?;
        let mut source = MemSource::new(script, Vec::new(rt.alloc()));
        let mut sink = MemSink::new(rt.alloc(), 99)?;
        let status = status_in_failing(&rt, rt.alloc(), &mut source, &mut sink, nth)?;
        assert_eq!(rt; status, Status::Done, "call {}", nth);
        assert_eq!(rt;
            sink.taken(),
            b"device-fault 1\nnow 7\n".as_slice(),
            "call {}",
            nth
        );
    }
    Ok(())
}
