// A device in memory.
ghost use Rattle.std.specs.Prelude.{◌≡◌, true, false, ℕ, List, ◌∷◌, [], ◌+◌, ◌-◌, ◌/◌, ◌<◌, ◌≤◌, ◌^◌, length, is_err, IsTrue, IfOk, OnOk, OnErr, vec_len, vec_capacity};
ghost use Rattle.std.specs.HashMap.{spare};
ghost use Rattle.std.proofs.Props.{props};
ghost use Rattle.device_log.proofs.ReadLaws.{reads_are_prop};
ghost use Rattle.logged_disk.specs.Honest.{cuts_are_prop};
ghost use Rattle.device_log.specs.Image.{blank, span};
ghost use Rattle.device_log.specs.Calls.{Read, Wrote, Synced, RefusedCall, ToWrite, Told, Fail, StopAfter, PowerCut, Flipped};
ghost use Rattle.device_log.specs.Faults.{fails_next, next_count, is_untold, obeys_switch};
ghost use Rattle.device_log.specs.Cuts.{left_by};
ghost use Rattle.device_log.specs.DeviceLog.{calls_of};
ghost use Rattle.logged_disk.specs.Switch.{CountsCall};
ghost use Rattle.logged_disk.specs.Memory.{IsMemory};
ghost use Rattle.logged_disk.specs.Device.{DeviceState, seen, has_flip, IsTrusted, IsHonest, IsWhole, Keeps, Affords, Adds, Logs, CutLeaves};

use crate::blocks::{Pending, Written, cut_blocks, flip_block, read_blocks, settle, write_blocks};
use crate::switch::Switch;
use crate::{BLOCK_BYTES, Disk, PowerDisk};
use device_log::{CutChoice, DeviceLog};
use edge_io::Failed;
use std::alloc::{AllocError, Global};
use std::collections::HashMap;

/// A device in memory, of zeros at the start. It keeps the blocks that were written, and of those
/// that are pending a second copy.
#[derive(Drop)]
pub struct MemDisk {
    size: u64,
    number: u64,
    written: Written,
    pending: Pending,
    switch: Switch,
    faults: u64,
    calls: u64,
    blocks: u64,
    log: DeviceLog,
    ghost is_memory: { IsMemory written pending switch faults (calls_of log) } by { Prim.hlevel (props, reads_are_prop, cuts_are_prop) },
    ghost block_room: { blocks ≤ spare written },
    ghost pending_room: { blocks ≤ spare pending },
    ghost call_room: { vec_len switch.armed + calls ≤ vec_capacity switch.armed },
}

impl MemDisk {
    ghost use Rattle.logged_disk.specs.MemDisk.{mem_state};

    /// A device of so many blocks of zeros.
    pub fn new(alloc: Global, number: u64, blocks: u64) -> MemDisk
        ensures size { (mem_state result).size ≡ blocks }
        ensures number { (mem_state result).number ≡ number }
        ensures honest { IsHonest (mem_state result) }
        ensures past { (mem_state result).past ≡ [] }
        ensures first { (mem_state result).first ≡ blank }
    {
        MemDisk {
            size: blocks,
            number,
            written: HashMap::new(alloc),
            pending: HashMap::new(alloc),
            switch: Switch::new(alloc),
            faults: 0,
            calls: 0,
            blocks: 0,
            log: DeviceLog::new(),
        }
    }

    /// A law for proofs; it does nothing when it runs.
    pub fn obeys(&self)
        ensures obeys { obeys_switch (mem_state self.now).past ≡ true }
        ensures honest { has_flip (mem_state self.now).past ≡ false → IsHonest (mem_state self.now) }
        ensures untold { is_untold (mem_state self.now).past ≡ true
            → (mem_state self.now).faults ≡ 0 }
    {}
}

/// Says whether this call fails, and counts it.
fn fails(switch: &mut Switch, faults: &mut u64) -> bool
    ensures counts { CountsCall switch.old faults.old switch.new faults.new result }
    ensures len { vec_len switch.new.armed ≤ vec_len switch.old.armed }
    ensures capacity { vec_capacity switch.new.armed ≡ vec_capacity switch.old.armed }
{
    if switch.is_next() {
        *faults = faults.saturating_add(1);
        return true;
    }
    false
}

#[tactic(auto, using(crate::proofs::MemoryLemmas::trust_falls))]
impl Disk for MemDisk {
    ghost use Rattle.logged_disk.specs.MemDisk.{mem_state};
    ghost use Rattle.logged_disk.specs.MemoryFacts.{memory_is_log, memory_was_image, memory_counted, memory_obeys, memory_reads, memory_tells, memory_switched, memory_honest, memory_unturned};

    ghost state = { mem_state };

    fn blocks(&self) -> u64 {
        self.size
    }

    fn faults(&self) -> u64 {
        self.faults
    }

    fn make_room(&mut self, calls: u32, blocks: u64) -> Result<(), AllocError> {
        let calls = self.calls.max(u64::from(calls));
        let blocks = self.blocks.max(blocks);
        self.switch.reserve(calls as usize)?;
        self.written.reserve(blocks as usize)?;
        self.pending.reserve(blocks as usize)?;
        self.calls = calls;
        self.blocks = blocks;
        Ok(())
    }

    fn read(&mut self, block: u64, into: &mut [u8]) -> Result<(), Failed>
        requires whole { IsWhole (length into.old) }
        requires within { block + length into.old / 512 ≤ (mem_state self.old).size }
        ensures keeps { Keeps 0 0 (mem_state self.old) (mem_state self.new) }
        ensures logs { Logs (Read block into.new) result (mem_state self.old) (mem_state self.new) }
        ensures gives { OnOk result (IsTrusted (mem_state self.new)
            → into.new ≡ span (seen (mem_state self.old)) block (length into.old / 512)) }
        ensures fails { is_err result ≡ fails_next (mem_state self.old).past }
    {
        let _size = self.size;
        if fails(&mut self.switch, &mut self.faults) {
            let blocks = (into.len() / BLOCK_BYTES) as u64;
            self.log.refused_read(block, blocks, self.faults);
            return Err(Failed);
        }
        read_blocks(&self.written, block, into);
        self.log.read(block, into);
        Ok(())
    }

    fn write(&mut self, block: u64, bytes: &[u8]) -> Result<(), Failed>
        requires whole { IsWhole (length bytes.now) }
        requires within { block + length bytes.now / 512 ≤ (mem_state self.old).size }
        requires calls { 1 ≤ (mem_state self.old).calls }
        requires blocks { length bytes.now / 512 ≤ (mem_state self.old).blocks }
        ensures keeps { Keeps 1 (length bytes.now / 512) (mem_state self.old) (mem_state self.new) }
        ensures logs { Logs (Wrote block bytes.now) result
            (mem_state self.old) (mem_state self.new) }
        ensures fails { is_err result ≡ fails_next (mem_state self.old).past }
        ensures no_effect { OnErr result ((mem_state self.new).past
            ≡ RefusedCall (ToWrite block (length bytes.now / 512) []) (mem_state self.new).faults
            ∷ (mem_state self.old).past) }
    {
        let _size = self.size;
        let blocks = (bytes.len() / BLOCK_BYTES) as u64;
        self.calls -= 1;
        self.blocks -= blocks;
        let refused = fails(&mut self.switch, &mut self.faults);
        if refused {
            self.log.refused_write(block, blocks, &[], self.faults);
            return Err(Failed);
        }
        write_blocks(&mut self.written, &mut self.pending, block, bytes);
        self.log.wrote(block, bytes);
        Ok(())
    }

    fn sync(&mut self) -> Result<(), Failed>
        requires { 1 ≤ (mem_state self.old).calls }
        ensures keeps { Keeps 1 0 (mem_state self.old) (mem_state self.new) }
        ensures logs { Logs Synced result (mem_state self.old) (mem_state self.new) }
        ensures fails { is_err result ≡ fails_next (mem_state self.old).past }
    {
        self.calls -= 1;
        if fails(&mut self.switch, &mut self.faults) {
            self.log.refused_sync(self.faults);
            return Err(Failed);
        }
        settle(&mut self.pending);
        self.log.synced();
        Ok(())
    }

    ghost is_log = { memory_is_log };

    ghost was_image = { memory_was_image };

    ghost counted = { memory_counted };

    ghost obeys = { memory_obeys };

    ghost reads = { memory_reads };

    ghost tells = { memory_tells };

    ghost switched = { memory_switched };

    ghost honest = { memory_honest };

    ghost unturned = { memory_unturned };
}

#[tactic(auto, using(crate::proofs::MemoryLemmas::trust_falls))]
impl PowerDisk for MemDisk {
    ghost use Rattle.logged_disk.specs.MemDisk.{mem_state};

    fn has_switch(&self) -> bool {
        true
    }

    fn cut(&mut self, choice: CutChoice)
        requires switch { IsTrue (mem_state self.old).has_switch }
        requires calls { 1 ≤ (mem_state self.old).calls }
        ensures keeps { Keeps 1 0 (mem_state self.old) (mem_state self.new) }
        ensures logs { (left : List ℕ)
            × Adds (PowerCut choice left) (mem_state self.old) (mem_state self.new) }
        ensures leaves { IsHonest (mem_state self.new)
            → CutLeaves (mem_state self.old) (seen (mem_state self.new)) }
        ensures exact { (j : ℕ) → j < (mem_state self.old).size
            → seen (mem_state self.new) j ≡ left_by choice blank (mem_state self.old).past j }
    {
        self.calls -= 1;
        self.switch.lift();
        cut_blocks(&mut self.written, &self.pending, choice, self.size);
        settle(&mut self.pending);
        self.log.cut_in_memory(choice, self.size);
    }

    fn fail(&mut self, nth: u64) {
        self.calls -= 1;
        self.switch.fail(nth);
        self.log.told_fail(nth);
    }

    fn stop_after(&mut self, calls: u64) {
        self.calls -= 1;
        self.switch.stop_after(calls);
        self.log.told_stop(calls);
    }

    fn flip(&mut self, block: u64, byte: u32) {
        let byte = u64::from(byte);
        self.calls -= 1;
        self.blocks -= 1;
        flip_block(&mut self.written, &mut self.pending, block, byte);
        self.log.flipped(block, byte);
    }
}
