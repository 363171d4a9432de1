// What was read of a device, block behind block.
ghost use Rattle.std.specs.Prelude.{ℕ, ◌≡◌, ◌≤◌, ◌<◌, ◌+◌, ◌-◌, ◌*◌, ◌/◌, ◌%◌, ◌^◌, [], length, take, drop, max, IfErr, OnOk};
ghost use Rattle.device_log.specs.Image.{Image, span};
ghost use Rattle.device_reads.specs.Reads.{Fails, Reads};

use device_reads::{ReadFault, read};
use logged_disk::{BLOCK_BYTES, Disk};
use std::alloc::Global;

// The blocks that are read ahead of what is asked for.
const AHEAD: u64 = 64;

/// Blocks that were read, one behind the other. Those below what is asked for next are let go, so that each is read once.
#[derive(Debug, Drop)]
pub(crate) struct Window {
    pub first: u64,
    pub bytes: Vec<u8>,
    ghost whole: { length bytes.items % 512 ≡ 0 },
}

// Lets the first so many bytes go.
fn drop_front(bytes: &mut Vec<u8>, count: usize)
    requires { count ≤ length bytes.old.items }
    ensures { bytes.new.items ≡ drop count bytes.old.items }
{
    let left = bytes.len() - count;
    bytes.copy_within(count.., 0);
    bytes.truncate(left);
}

// Reads blocks into the bytes behind the first so many.
fn read_behind<D: Disk>(
    disk: &mut D,
    at: u64,
    bytes: &mut [u8],
    kept: usize,
) -> Result<(), ReadFault>
    requires some { kept < length bytes.old }
    requires whole { (length bytes.old - kept) % 512 ≡ 0 }
    requires within { at + (length bytes.old - kept) / 512 ≤ (D.state disk.old).size }
    ensures len { length bytes.new ≡ length bytes.old }
    ensures front { take kept bytes.new ≡ take kept bytes.old }
    ensures reads { OnOk result (let n = (length bytes.old - kept) / 512 in
        Reads at (at + n) 1 (D.state disk.old) (D.state disk.new) (λ c. drop kept bytes.new ≡ span c at n)) }
    ensures unrefused { OnOk result ((D.state disk.new).faults ≡ (D.state disk.old).faults) }
    ensures fails { IfErr result (let n = (length bytes.old - kept) / 512 in
        Fails at (at + n) 1 (D.state disk.old) (D.state disk.new)) }
{
    let (_, behind) = bytes.split_at_mut(kept);
    read(disk, at, behind)
}

// Reads so many blocks behind the bytes.
fn read_on<D: Disk>(
    disk: &mut D,
    at: u64,
    blocks: u64,
    bytes: &mut Vec<u8>,
) -> Result<(), ReadFault>
    requires some { 0 < blocks }
    requires few { blocks ≤ 2 ^ 44 }
    requires within { at + blocks ≤ (D.state disk.old).size }
    ensures len { OnOk result (length bytes.new.items ≡ length bytes.old.items + 512 * blocks) }
    ensures whole { length bytes.new.items % 512 ≡ length bytes.old.items % 512 }
    ensures front { OnOk result (take (length bytes.old.items) bytes.new.items ≡ bytes.old.items) }
    ensures reads { OnOk result (Reads at (at + blocks) 1 (D.state disk.old) (D.state disk.new)
        (λ c. drop (length bytes.old.items) bytes.new.items ≡ span c at blocks)) }
    ensures unrefused { OnOk result ((D.state disk.new).faults ≡ (D.state disk.old).faults) }
    ensures fails { IfErr result (Fails at (at + blocks) 1 (D.state disk.old) (D.state disk.new)) }
{
    let kept = bytes.len();
    bytes.resize(kept + BLOCK_BYTES * blocks as usize, 0)?;
    read_behind(disk, at, bytes, kept)
}

impl Window {
    ghost use Rattle.device_opening.specs.Tape.{Shows, end_of_window};

    /// Nothing is read yet; the first block that may be asked for is this one.
    pub fn new(alloc: Global, first: u64) -> Window
        ensures first { result.first ≡ first }
        ensures bytes { result.bytes.items ≡ [] }
    {
        Window {
            first,
            bytes: Vec::new(alloc),
        }
    }

    // The block behind those that were read.
    fn end(&self) -> u64
        requires { end_of_window self.now < 2 ^ 64 }
        ensures { result ≡ end_of_window self.now }
    {
        self.first + (self.bytes.len() / BLOCK_BYTES) as u64
    }

    // Lets the blocks below one go.
    fn forget(&mut self, at: u64)
        requires rising { self.old.first ≤ at }
        requires few { end_of_window self.old < 2 ^ 64 }
        ensures first { self.new.first ≡ at }
        ensures end { end_of_window self.new ≡ max (end_of_window self.old) at }
        ensures shows { (c : Image) → ((j : ℕ) → length (c j) ≡ 512) → Shows self.old c → Shows self.new c }
    {
        let kept = BLOCK_BYTES * self.end().saturating_sub(at) as usize;
        let below = self.bytes.len() - kept;
        drop_front(&mut self.bytes, below);
        self.first = at;
    }

    // Reads on up to a block.
    fn extend<D: Disk>(&mut self, disk: &mut D, to: u64) -> Result<(), ReadFault>
        requires more { end_of_window self.old < to }
        requires room { to ≤ (D.state disk.old).size }
        requires few { to ≤ 2 ^ 44 }
        ensures first { self.new.first ≡ self.old.first }
        ensures end { OnOk result (end_of_window self.new ≡ to) }
        ensures reads { OnOk result (Reads (end_of_window self.old) to 1 (D.state disk.old) (D.state disk.new)
            (λ c. Shows self.old c → Shows self.new c)) }
        ensures unrefused { OnOk result ((D.state disk.new).faults ≡ (D.state disk.old).faults) }
        ensures fails { IfErr result (Fails (end_of_window self.old) to 1 (D.state disk.old) (D.state disk.new)) }
    {
        let end = self.end();
        read_on(disk, end, to - end, &mut self.bytes)
    }

    /// Has so many blocks from one on, which is not below what was asked for before. It reads on a little, up to a limit.
    pub fn cover<D: Disk>(
        &mut self,
        disk: &mut D,
        at: u64,
        blocks: u64,
        limit: u64,
    ) -> Result<(), ReadFault>
        requires rising { self.old.first ≤ at }
        requires some { 0 < blocks }
        requires within { at + blocks ≤ limit }
        requires limit { end_of_window self.old ≤ limit }
        requires room { limit ≤ (D.state disk.old).size }
        requires few { limit ≤ 2 ^ 44 }
        ensures covers { OnOk result ((self.new.first ≤ at) × (at + blocks ≤ end_of_window self.new)) }
        ensures limit { OnOk result (end_of_window self.new ≤ limit) }
        ensures reads { OnOk result (Reads (end_of_window self.old) (end_of_window self.new) 1 (D.state disk.old) (D.state disk.new)
            (λ c. Shows self.old c → Shows self.new c)) }
        ensures unrefused { OnOk result ((D.state disk.new).faults ≡ (D.state disk.old).faults) }
        ensures fails { IfErr result (Fails (end_of_window self.old) limit 1 (D.state disk.old) (D.state disk.new)) }
    {
        if at + blocks <= self.end() {
            return Ok(());
        }
        self.forget(at);
        let ahead = limit.min(self.end() + AHEAD);
        self.extend(disk, ahead.max(at + blocks))
    }

    /// So many blocks from one on.
    pub fn blocks(&self, at: u64, blocks: u64) -> &[u8]
        requires from { self.now.first ≤ at }
        requires within { at + blocks ≤ end_of_window self.now }
        requires few { end_of_window self.now < 2 ^ 64 }
        ensures len { length result.now ≡ 512 * blocks }
        ensures shows { (c : Image) → ((j : ℕ) → length (c j) ≡ 512) → Shows self.now c → result.now ≡ span c at blocks }
    {
        let start = BLOCK_BYTES * (at - self.first) as usize;
        &self.bytes[start..start + BLOCK_BYTES * blocks as usize]
    }
}
