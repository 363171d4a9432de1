// What the copies of a directory tell.
ghost use Rattle.std.specs.Prelude.{◌≡◌, ◌≤◌, ◌-◌, ◌*◌, ◌+◌, length, take, drop, IfErr, IfOk, OnOk};
ghost use Rattle.device_log.specs.Image.{span};
ghost use Rattle.stripe_header.specs.Layout.{body_blocks, body_of, device_blocks, gate_of};
ghost use Rattle.stripe_header.specs.Reading.{block_bytes};
ghost use Rattle.packed_directory.specs.PackedImage.{image_blocks_of};
ghost use Rattle.inspections.specs.Copies.{copy_in, copy_of, entries_in_bytes};
ghost use Rattle.inspections.specs.Head.{IsLaid};
ghost use Rattle.device_reads.specs.Reads.{Fails, Reads};

use device_reads::{ReadFault, read};
use logged_disk::{BLOCK_BYTES, Disk};
use packed_directory::{ImageFault, PackedDirectory, StoredDirectory};
use std::alloc::{AllocError, Global};
use stripe_header::{Area, CopyFault, CopyState, Side, read_copy};
use tape_base::Geometry;

/// What a copy of the directory tells, or why it is refused.
#[derive(Clone, Copy, Debug)]
pub enum CopyRead {
    Refused(CopyFault),
    /// The entries on its chains are not counted where its directory has a fault.
    Told {
        state: CopyState,
        entries: Option<u64>,
    },
}

/// The blocks that say whether the copies count.
#[derive(Clone, Copy, Debug)]
pub(crate) struct Gates {
    pub a: [u8; 512],
    pub b: [u8; 512],
}

// How many entries stand on the chains of a directory; none where it has a fault.
fn entries_in_bytes(alloc: Global, g: &Geometry, bytes: &[u8]) -> Result<Option<u64>, AllocError>
    requires { length bytes.now ≡ 512 * image_blocks_of g.now }
    ensures { IfOk result (λ count. count ≡ entries_in_bytes g.now bytes.now) }
{
    match PackedDirectory::entries(alloc, g, bytes) {
        Ok(count) => Ok(Some(count)),
        Err(ImageFault::Memory(e)) => Err(e),
        Err(ImageFault::Segment { .. }) => Ok(None),
    }
}

// The directory in a body.
#[tactic(auto, unfolding(stripe_header::specs::Reading::block_bytes))]
fn directory_in(body: &[u8]) -> &[u8]
    requires { 1024 ≤ length body.now }
    ensures bytes { result.now ≡ block_bytes 512 (length body.now - 1024) body.now }
    ensures len { length result.now ≡ length body.now - 1024 }
{
    let (_, behind) = body.split_at(BLOCK_BYTES);
    let (directory, _) = behind.split_at(behind.len() - BLOCK_BYTES);
    directory
}

// What a copy with this gate and this body tells.
fn copy_in(
    alloc: Global,
    g: &Geometry,
    gate: &[u8; 512],
    body: &[u8],
) -> Result<CopyRead, AllocError>
    requires { length body.now ≡ 512 * (image_blocks_of g.now + 2) }
    ensures { IfOk result (λ copy. copy ≡ copy_in g.now gate.now body.now) }
{
    match read_copy(g, gate, body) {
        Err(fault) => Ok(CopyRead::Refused(fault)),
        Ok(state) => Ok(CopyRead::Told {
            state,
            entries: entries_in_bytes(alloc, g, directory_in(body))?,
        }),
    }
}

// The gates of both copies in two blocks.
fn gates_in(blocks: &[u8; 1024]) -> Gates
    ensures a { result.a ≡ take 512 blocks.now }
    ensures b { result.b ≡ drop 512 blocks.now }
{
    let (a, b) = blocks.split_at(BLOCK_BYTES);
    let mut gates = Gates {
        a: [0; BLOCK_BYTES],
        b: [0; BLOCK_BYTES],
    };
    gates.a.copy_from_slice(a);
    gates.b.copy_from_slice(b);
    gates
}

/// Reads the gates of both copies.
pub(crate) fn read_gates<D: Disk>(disk: &mut D) -> Result<Gates, ReadFault>
    requires room { 3 ≤ (D.state disk.old).size }
    ensures gates { IfOk result (λ gates. Reads 1 3 1 (D.state disk.old) (D.state disk.new)
        (λ c. (gates.a ≡ c 1) × (gates.b ≡ c 2))) }
    ensures unrefused { OnOk result ((D.state disk.new).faults ≡ (D.state disk.old).faults) }
    ensures fails { IfErr result (Fails 1 3 1 (D.state disk.old) (D.state disk.new)) }
{
    let mut blocks = [0; 1024];
    read(disk, 1, &mut blocks)?;
    Ok(gates_in(&blocks))
}

// Reads the body of a copy.
fn read_body<D: Disk>(
    alloc: Global,
    disk: &mut D,
    area: &Area,
    side: Side,
) -> Result<Vec<u8>, ReadFault>
    requires room { device_blocks area.now ≤ (D.state disk.old).size }
    ensures body { IfOk result (λ body. let at = body_of area.now side in let n = body_blocks area.now in
        Reads at (at + n) 1 (D.state disk.old) (D.state disk.new) (λ c. body.items ≡ span c at n)) }
    ensures len { IfOk result (λ body. length body.items ≡ 512 * body_blocks area.now) }
    ensures unrefused { OnOk result ((D.state disk.new).faults ≡ (D.state disk.old).faults) }
    ensures fails { IfErr result (let at = body_of area.now side in
        Fails at (at + body_blocks area.now) 1 (D.state disk.old) (D.state disk.new)) }
{
    let mut body = vec![in alloc; 0; BLOCK_BYTES * area.body_blocks() as usize]?;
    read(disk, area.body(side), &mut body)?;
    Ok(body)
}

/// Reads the copy behind a gate. The body of one whose gate is shut is not looked at.
pub(crate) fn read_side<D: Disk>(
    alloc: Global,
    disk: &mut D,
    area: &Area,
    side: Side,
    gate: &[u8; 512],
) -> Result<CopyRead, ReadFault>
    requires laid { IsLaid (D.state disk.old).size area.now }
    ensures copy { IfOk result (λ copy. let at = body_of area.now side in
        Reads at (at + body_blocks area.now) 1 (D.state disk.old) (D.state disk.new)
        (λ c. gate.now ≡ c (gate_of side) → copy ≡ copy_of area.now c side)) }
    ensures unrefused { OnOk result ((D.state disk.new).faults ≡ (D.state disk.old).faults) }
    ensures fails { IfErr result (let at = body_of area.now side in
        Fails at (at + body_blocks area.now) 1 (D.state disk.old) (D.state disk.new)) }
{
    if gate[0] != 1 {
        return Ok(CopyRead::Refused(CopyFault::GateShut));
    }
    let body = read_body(alloc, disk, area, side)?;
    Ok(copy_in(alloc, &area.geometry, gate, &body)?)
}
