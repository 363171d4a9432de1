// The calls of a device that replace a copy: of its gate, of its body, and of its gate again.
ghost use Rattle.std.specs.Prelude.{◌≡◌, ◌≤◌, ◌<◌, ◌+◌, ◌*◌, ◌/◌, ◌∷◌, [], if◌then◌else◌, true, false, take, drop, length, OnOk, OnErr, IfErr};
ghost use Rattle.device_log.specs.Calls.{Wrote, Synced};
ghost use Rattle.device_log.specs.Along.{Stopped};
ghost use Rattle.logged_disk.specs.Device.{IsWhole, Keeps};
ghost use Rattle.stripe_header.specs.Layout.{device_blocks, body_blocks, body_of};
ghost use Rattle.dir_sync.specs.SyncCalls.{shut_block, open_block, part_of, shutting_calls, first_calls, body_calls, last_calls, past_behind};

use crate::progress::SyncProgress;
use edge_io::Failed;
use logged_disk::Disk;
use stripe_header::{Area, Side};

const BLOCK: usize = 512;

// Why a part was not made: the count of faults, and whether the gate is known to be shut.
#[derive(Clone, Copy, Debug, Drop)]
pub struct Halt {
    pub count: u64,
    pub shut: bool,
}

#[tactic(auto, unfolding(crate::specs::SyncCalls::shut_block))]
fn shut_block() -> [u8; BLOCK]
    ensures { result ≡ shut_block }
{
    [0; BLOCK]
}

#[tactic(auto, unfolding(crate::specs::SyncCalls::open_block))]
fn open_block() -> [u8; BLOCK]
    ensures { result ≡ open_block }
{
    let mut block = [0; BLOCK];
    block[0] = 1;
    block
}

fn part(body: &[u8], from: usize, bytes: usize) -> &[u8]
    requires { from + bytes ≤ length body.now }
    ensures part { result.now ≡ take bytes (drop from body.now) }
    ensures len { length result.now ≡ bytes }
{
    let (_, behind) = body.split_at(from);
    let (part, _) = behind.split_at(bytes);
    part
}

// A write with a sync behind it.
fn put_block<D: Disk>(disk: &mut D, at: u64, block: &[u8; BLOCK]) -> Result<(), Failed>
    requires within { at < (D.state disk.old).size }
    requires calls { 2 ≤ (D.state disk.old).calls }
    requires blocks { 1 ≤ (D.state disk.old).blocks }
    ensures keeps { Keeps 2 1 (D.state disk.old) (D.state disk.new) }
    ensures went { OnOk result ((D.state disk.new).past
        ≡ Synced ∷ Wrote at block.now ∷ (D.state disk.old).past) }
    ensures stopped { OnErr result (Stopped (Wrote at block.now ∷ Synced ∷ [])
        (D.state disk.new).faults (D.state disk.old).past (D.state disk.new).past) }
{
    disk.write(at, block)?;
    disk.sync()?;
    Ok(())
}

/// Shuts the gate of a copy, and leaves nothing pending.
pub fn shut_gate<D: Disk>(disk: &mut D, side: Side, shut: bool) -> Result<(), Failed>
    requires within { 2 < (D.state disk.old).size }
    requires calls { 2 ≤ (D.state disk.old).calls }
    requires blocks { 1 ≤ (D.state disk.old).blocks }
    ensures keeps { Keeps 2 1 (D.state disk.old) (D.state disk.new) }
    ensures went { OnOk result ((D.state disk.new).past
        ≡ past_behind (shutting_calls side shut) (D.state disk.old).past) }
    ensures stopped { OnErr result (Stopped (shutting_calls side shut)
        (D.state disk.new).faults (D.state disk.old).past (D.state disk.new).past) }
{
    if shut {
        return disk.sync();
    }
    let block = shut_block();
    put_block(disk, side.gate(), &block)
}

/// Shuts the gate where a pass begins.
pub fn put_first<D: Disk>(disk: &mut D, side: Side, p: SyncProgress) -> Result<(), Halt>
    requires within { 2 < (D.state disk.old).size }
    requires calls { 2 ≤ (D.state disk.old).calls }
    requires blocks { 1 ≤ (D.state disk.old).blocks }
    ensures keeps { Keeps 2 1 (D.state disk.old) (D.state disk.new) }
    ensures went { OnOk result ((D.state disk.new).past
        ≡ past_behind (first_calls side p) (D.state disk.old).past) }
    ensures halts { IfErr result (λ h. Stopped (first_calls side p) h.count
        (D.state disk.old).past (D.state disk.new).past
        × (h.shut ≡ p.shut) × (h.count ≡ (D.state disk.new).faults)) }
{
    if p.begun {
        return Ok(());
    }
    match shut_gate(disk, side, p.shut) {
        Ok(()) => Ok(()),
        Err(Failed) => Err(Halt {
            count: disk.faults(),
            shut: p.shut,
        }),
    }
}

// A part of a body, and a sync behind the last.
fn put_bytes<D: Disk>(disk: &mut D, at: u64, bytes: &[u8], last: bool) -> Result<(), Failed>
    requires whole { IsWhole (length bytes.now) }
    requires within { at + length bytes.now / 512 ≤ (D.state disk.old).size }
    requires calls { 2 ≤ (D.state disk.old).calls }
    requires blocks { length bytes.now / 512 ≤ (D.state disk.old).blocks }
    ensures keeps { Keeps 2 (length bytes.now / 512) (D.state disk.old) (D.state disk.new) }
    ensures went { OnOk result ((D.state disk.new).past
        ≡ past_behind (Wrote at bytes.now ∷ (if last then Synced ∷ [] else []))
        (D.state disk.old).past) }
    ensures stopped { OnErr result (Stopped
        (Wrote at bytes.now ∷ (if last then Synced ∷ [] else []))
        (D.state disk.new).faults (D.state disk.old).past (D.state disk.new).past) }
{
    disk.write(at, bytes)?;
    if last {
        return disk.sync();
    }
    Ok(())
}

/// Writes the next blocks of the body, and behind the last leaves nothing pending.
pub fn put_body<D: Disk>(
    disk: &mut D,
    area: &Area,
    side: Side,
    body: &[u8],
    p: SyncProgress,
    n: u64,
) -> Result<(), Halt>
    requires whole { length body.now ≡ 512 * body_blocks area.now }
    requires some { 0 < n }
    requires next { p.written + n ≤ body_blocks area.now }
    requires within { device_blocks area.now ≤ (D.state disk.old).size }
    requires calls { 2 ≤ (D.state disk.old).calls }
    requires blocks { n ≤ (D.state disk.old).blocks }
    ensures keeps { Keeps 2 n (D.state disk.old) (D.state disk.new) }
    ensures went { OnOk result ((D.state disk.new).past
        ≡ past_behind (body_calls area.now side body.now p n) (D.state disk.old).past) }
    ensures halts { IfErr result (λ h. Stopped (body_calls area.now side body.now p n) h.count
        (D.state disk.old).past (D.state disk.new).past
        × (h.shut ≡ true) × (h.count ≡ (D.state disk.new).faults)) }
{
    let bytes = part(body, BLOCK * p.written as usize, BLOCK * n as usize);
    let last = p.written + n == area.body_blocks();
    match put_bytes(disk, area.body(side) + p.written, bytes, last) {
        Ok(()) => Ok(()),
        Err(Failed) => Err(Halt {
            count: disk.faults(),
            shut: true,
        }),
    }
}

/// Opens the gate behind the last blocks, in a write of its own, and leaves nothing pending.
pub fn put_last<D: Disk>(
    disk: &mut D,
    area: &Area,
    side: Side,
    p: SyncProgress,
    n: u64,
) -> Result<(), Halt>
    requires next { p.written + n ≤ body_blocks area.now }
    requires within { 2 < (D.state disk.old).size }
    requires calls { 2 ≤ (D.state disk.old).calls }
    requires blocks { 1 ≤ (D.state disk.old).blocks }
    ensures keeps { Keeps 2 1 (D.state disk.old) (D.state disk.new) }
    ensures went { OnOk result ((D.state disk.new).past
        ≡ past_behind (last_calls area.now side p n) (D.state disk.old).past) }
    ensures halts { IfErr result (λ h. Stopped (last_calls area.now side p n) h.count
        (D.state disk.old).past (D.state disk.new).past
        × (h.shut ≡ false) × (h.count ≡ (D.state disk.new).faults)) }
{
    if p.written + n != area.body_blocks() {
        return Ok(());
    }
    let block = open_block();
    match put_block(disk, side.gate(), &block) {
        Ok(()) => Ok(()),
        Err(Failed) => Err(Halt {
            count: disk.faults(),
            shut: false,
        }),
    }
}
