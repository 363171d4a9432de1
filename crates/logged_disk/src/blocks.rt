// The blocks that a memory device keeps.
ghost use Rattle.std.specs.Prelude.{◌≡◌, ◌+◌, ◌/◌, ◌<◌, ◌≤◌, ◌^◌, ◌==◌, ℕ, if◌then◌else◌, length, Some, None, nat_eq};
ghost use Rattle.std.specs.HashMap.{get, spare};
ghost use Rattle.device_log.specs.Image.{span, put, in_range, flipped, junk};
ghost use Rattle.logged_disk.specs.Device.{IsWhole};
ghost use Rattle.logged_disk.specs.Blocks.{AreStored, written_image, synced_image, over_in, left_in, cut_image};

use crate::BLOCK_BYTES;
use crate::pending_block::PendingBlock;
use device_log::CutChoice;
use std::collections::HashMap;

/// The blocks that were written, by their numbers.
pub(crate) type Written = HashMap<u64, [u8; BLOCK_BYTES]>;

/// Those that were written since the last sync.
pub(crate) type Pending = HashMap<u64, PendingBlock>;

/// Copies the blocks from one on; those that were never written are zeros.
pub(crate) fn read_blocks(written: &Written, first: u64, into: &mut [u8])
    requires whole { IsWhole (length into.old) }
    requires numbers { first + length into.old / 512 < 2 ^ 64 }
    ensures { into.new ≡ span (written_image written.now) first (length into.old / 512) }
{
    for k in 0..into.len() / BLOCK_BYTES {
        let at = k * BLOCK_BYTES;
        read_block(written, first + k as u64, &mut into[at..at + BLOCK_BYTES]);
    }
}

#[tactic(auto, unfolding(device_log::specs::Image::zeros))]
fn read_block(written: &Written, block: u64, into: &mut [u8])
    requires { length into.old ≡ 512 }
    ensures { into.new ≡ written_image written.now block }
{
    match written.get(&block) {
        Some(bytes) => into.copy_from_slice(bytes),
        None => into.fill(0),
    }
}

/// What is seen of a block.
#[tactic(auto, unfolding(device_log::specs::Image::zeros))]
fn seen_block(written: &Written, block: u64) -> [u8; BLOCK_BYTES]
    ensures { result ≡ written_image written.now block }
{
    match written.get(&block) {
        Some(bytes) => *bytes,
        None => [0; BLOCK_BYTES],
    }
}

/// What the last sync kept of a block.
fn kept_block(written: &Written, pending: &Pending, block: u64) -> [u8; BLOCK_BYTES]
    ensures { result ≡ synced_image written.now pending.now block }
{
    match pending.get(&block) {
        Some(entry) => entry.kept,
        None => seen_block(written, block),
    }
}

/// Keeps the bytes as the blocks from one on, and what was there before.
pub(crate) fn write_blocks(written: &mut Written, pending: &mut Pending, first: u64, bytes: &[u8])
    requires whole { IsWhole (length bytes.now) }
    requires numbers { first + length bytes.now / 512 < 2 ^ 64 }
    requires room { length bytes.now / 512 ≤ spare written.old }
    requires room_before { length bytes.now / 512 ≤ spare pending.old }
    requires stored { AreStored written.old pending.old }
    ensures seen { (j : ℕ)
        → written_image written.new j ≡ put first bytes.now (written_image written.old) j }
    ensures kept { (j : ℕ)
        → synced_image written.new pending.new j ≡ synced_image written.old pending.old j }
    ensures over { (j : ℕ) → over_in pending.new j
        ≡ (if in_range first (length bytes.now / 512) j then Some first
        else over_in pending.old j) }
    ensures stored { AreStored written.new pending.new }
    ensures room { spare written.old ≤ spare written.new + length bytes.now / 512 }
    ensures room_before { spare pending.old ≤ spare pending.new + length bytes.now / 512 }
{
    for k in 0..bytes.len() / BLOCK_BYTES {
        let at = k * BLOCK_BYTES;
        let piece = &bytes[at..at + BLOCK_BYTES];
        write_block(written, pending, first, first + k as u64, piece);
    }
}

/// Keeps a block of the write that began there.
fn write_block(written: &mut Written, pending: &mut Pending, start: u64, block: u64, bytes: &[u8])
    requires whole { length bytes.now ≡ 512 }
    requires room { 0 < spare written.old }
    requires room_before { 0 < spare pending.old }
    requires stored { AreStored written.old pending.old }
    ensures seen { (j : ℕ) → written_image written.new j
        ≡ (if block == j then bytes.now else written_image written.old j) }
    ensures kept { (j : ℕ)
        → synced_image written.new pending.new j ≡ synced_image written.old pending.old j }
    ensures over { (j : ℕ) → over_in pending.new j
        ≡ (if block == j then Some start else over_in pending.old j) }
    ensures stored { AreStored written.new pending.new }
    ensures room { spare written.old ≤ spare written.new + 1 }
    ensures room_before { spare pending.old ≤ spare pending.new + 1 }
{
    let kept = kept_block(written, pending, block);
    let before: Result<_, _> = pending.insert(block, PendingBlock { kept, start });
    before.unwrap();
    let mut new = [0; BLOCK_BYTES];
    new.copy_from_slice(bytes);
    let put: Result<_, _> = written.insert(block, new);
    put.unwrap();
}

/// Nothing is pending behind it.
#[tactic(auto, using(crate::proofs::Writing::none_pending))]
pub(crate) fn settle(pending: &mut Pending)
    ensures none { (j : ℕ) → get nat_eq pending.new j ≡ None }
    ensures room { spare pending.old ≤ spare pending.new }
{
    pending.clear();
}

/// Keeps what a cut leaves of the blocks below the size.
pub(crate) fn cut_blocks(written: &mut Written, pending: &Pending, choice: CutChoice, size: u64)
    requires stored { AreStored written.old pending.now }
    ensures seen { (j : ℕ) → written_image written.new j
        ≡ cut_image choice size written.old pending.now j }
    ensures room { spare written.new ≡ spare written.old }
{
    for block in 0..size {
        cut_block(written, pending, choice, block);
    }
}

fn cut_block(written: &mut Written, pending: &Pending, choice: CutChoice, block: u64)
    requires stored { AreStored written.old pending.now }
    ensures seen { (j : ℕ) → written_image written.new j
        ≡ (if block == j then left_in choice written.old pending.now j else written_image
        written.old j) }
    ensures stored { AreStored written.new pending.now }
    ensures room { spare written.new ≡ spare written.old }
{
    if let Some(entry) = pending.get(&block) {
        if let Some(bytes) = written.get_mut(&block) {
            match choice {
                CutChoice::Lost => *bytes = entry.kept,
                CutChoice::Kept => {}
                CutChoice::Torn => {
                    if entry.start != block {
                        *bytes = junk_block();
                    }
                }
                CutChoice::Junk => *bytes = junk_block(),
            }
        }
    }
}

#[tactic(auto, unfolding(device_log::specs::Image::junk))]
fn junk_block() -> [u8; BLOCK_BYTES]
    ensures { result ≡ junk }
{
    [0xA5; BLOCK_BYTES]
}

/// Turns a bit of a byte of a block, in what is seen and in what was there before.
pub(crate) fn flip_block(written: &mut Written, pending: &mut Pending, block: u64, byte: u64)
    requires byte { byte < 512 }
    requires room { 0 < spare written.old }
    requires stored { AreStored written.old pending.old }
    ensures seen { (j : ℕ)
        → written_image written.new j ≡ flipped block byte (written_image written.old) j }
    ensures kept { (j : ℕ) → synced_image written.new pending.new j
        ≡ flipped block byte (synced_image written.old pending.old) j }
    ensures over { (j : ℕ) → over_in pending.new j ≡ over_in pending.old j }
    ensures stored { AreStored written.new pending.new }
    ensures room { spare written.old ≤ spare written.new + 1 }
    ensures room_before { spare pending.new ≡ spare pending.old }
{
    let mut bytes = seen_block(written, block);
    bytes[byte as usize] ^= 1;
    let put: Result<_, _> = written.insert(block, bytes);
    put.unwrap();
    if let Some(entry) = pending.get_mut(&block) {
        entry.kept[byte as usize] ^= 1;
    }
}
