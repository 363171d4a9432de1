// The copies of a directory.
ghost use Rattle.std.specs.Prelude.{◌≡◌, ◌≤◌, ◌-◌, ◌*◌, ◌+◌, length, take, drop, IfErr, IfOk, OnOk};
ghost use Rattle.device_log.specs.Image.{span};
ghost use Rattle.stripe_header.specs.Layout.{body_blocks, body_of, content_of, gate_of};
ghost use Rattle.device_opening.specs.Copies.{AreCopiesOf, IsCopyIn, IsLaid, IsSideOf, MaySay};
ghost use Rattle.device_reads.specs.Reads.{Fails, Reads};

use device_reads::{ReadFault, read};
use logged_disk::{BLOCK_BYTES, Disk};
use std::alloc::Global;
use stripe_header::{Area, CopyFault, CopyState, Side, read_copy};
use tape_base::Geometry;

/// What a copy of the directory tells with its body, or why it is refused.
#[derive(Debug, Drop)]
pub enum CopyRead {
    Refused(CopyFault),
    Told { state: CopyState, body: Vec<u8> },
}

/// Both copies.
#[derive(Debug, Drop)]
pub struct Copies {
    pub a: CopyRead,
    pub b: CopyRead,
}

// The blocks that say whether the copies count.
#[derive(Clone, Copy, Debug)]
pub(crate) struct Gates {
    pub a: [u8; 512],
    pub b: [u8; 512],
}

// The gates of both copies in two blocks.
fn gates_in(blocks: &[u8; 1024]) -> Gates
    ensures a { result.a ≡ take 512 blocks.now }
    ensures b { result.b ≡ drop 512 blocks.now }
{
    let (a, b) = blocks.split_at(BLOCK_BYTES);
    let mut gates = Gates {
        a: [0; BLOCK_BYTES],
        b: [0; BLOCK_BYTES],
    };
    gates.a.copy_from_slice(a);
    gates.b.copy_from_slice(b);
    gates
}

// Reads the gates of both copies.
fn read_gates<D: Disk>(disk: &mut D) -> Result<Gates, ReadFault>
    requires room { 3 ≤ (D.state disk.old).size }
    ensures gates { IfOk result (λ gates. Reads 1 3 1 (D.state disk.old) (D.state disk.new)
        (λ c. (gates.a ≡ c 1) × (gates.b ≡ c 2))) }
    ensures unrefused { OnOk result ((D.state disk.new).faults ≡ (D.state disk.old).faults) }
    ensures fails { IfErr result (Fails 1 3 1 (D.state disk.old) (D.state disk.new)) }
{
    let mut blocks = [0; 1024];
    read(disk, 1, &mut blocks)?;
    Ok(gates_in(&blocks))
}

// Reads the body of a copy.
fn read_body<D: Disk>(
    alloc: Global,
    disk: &mut D,
    area: &Area,
    side: Side,
) -> Result<Vec<u8>, ReadFault>
    requires laid { IsLaid (D.state disk.old).size area.now }
    ensures body { IfOk result (λ body. let at = body_of area.now side in let n = body_blocks area.now in
        Reads at (at + n) 1 (D.state disk.old) (D.state disk.new) (λ c. body.items ≡ span c at n)) }
    ensures len { IfOk result (λ body. length body.items ≡ 512 * body_blocks area.now) }
    ensures unrefused { OnOk result ((D.state disk.new).faults ≡ (D.state disk.old).faults) }
    ensures fails { IfErr result (let at = body_of area.now side in
        Fails at (at + body_blocks area.now) 1 (D.state disk.old) (D.state disk.new)) }
{
    let mut body = vec![in alloc; 0; BLOCK_BYTES * area.body_blocks() as usize]?;
    read(disk, area.body(side), &mut body)?;
    Ok(body)
}

// What a copy with this gate and this body tells.
fn copy_in(g: &Geometry, gate: &[u8; 512], body: Vec<u8>) -> CopyRead
    requires some { 1024 ≤ length body.items }
    ensures copy { IsCopyIn g.now gate.now body.items result }
    ensures says { MaySay g.now (length body.items) result }
{
    match read_copy(g, gate, &body) {
        Err(fault) => CopyRead::Refused(fault),
        Ok(state) => CopyRead::Told { state, body },
    }
}

// Reads the copy behind a gate. The body of one whose gate is shut is not looked at.
fn read_side<D: Disk>(
    alloc: Global,
    disk: &mut D,
    area: &Area,
    side: Side,
    gate: &[u8; 512],
) -> Result<CopyRead, ReadFault>
    requires laid { IsLaid (D.state disk.old).size area.now }
    ensures copy { IfOk result (λ copy. let at = body_of area.now side in
        Reads at (at + body_blocks area.now) 1 (D.state disk.old) (D.state disk.new)
        (λ c. gate.now ≡ c (gate_of side) → IsSideOf area.now c side copy)) }
    ensures says { IfOk result (MaySay area.now.geometry (512 * body_blocks area.now)) }
    ensures unrefused { OnOk result ((D.state disk.new).faults ≡ (D.state disk.old).faults) }
    ensures fails { IfErr result (let at = body_of area.now side in
        Fails at (at + body_blocks area.now) 1 (D.state disk.old) (D.state disk.new)) }
{
    if gate[0] != 1 {
        return Ok(CopyRead::Refused(CopyFault::GateShut));
    }
    let body = read_body(alloc, disk, area, side)?;
    Ok(copy_in(&area.geometry, gate, body))
}

/// Reads both copies of the directory.
pub(crate) fn read_copies<D: Disk>(
    alloc: Global,
    disk: &mut D,
    area: &Area,
) -> Result<Copies, ReadFault>
    requires laid { IsLaid (D.state disk.old).size area.now }
    ensures copies { IfOk result (λ copies. Reads 1 (content_of area.now) 3 (D.state disk.old) (D.state disk.new)
        (AreCopiesOf area.now copies)) }
    ensures says { IfOk result (λ copies. let n = 512 * body_blocks area.now in
        MaySay area.now.geometry n copies.a × MaySay area.now.geometry n copies.b) }
    ensures unrefused { OnOk result ((D.state disk.new).faults ≡ (D.state disk.old).faults) }
    ensures fails { IfErr result (Fails 1 (content_of area.now) 3 (D.state disk.old) (D.state disk.new)) }
{
    let gates = read_gates(disk)?;
    let a = read_side(alloc, disk, area, Side::A, &gates.a)?;
    let b = read_side(alloc, disk, area, Side::B, &gates.b)?;
    Ok(Copies { a, b })
}
