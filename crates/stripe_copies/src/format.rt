// A device is laid out: gates, span and the first copy of the directory.
ghost use Rattle.std.specs.Prelude.{◌≡◌, ◌≤◌, ◌+◌, ◌*◌, ◌++◌, [], length, take, IfOk, IfErr, OnOk, OnErr};
ghost use Rattle.dir_table.specs.Window.{first_window};
ghost use Rattle.packed_directory.specs.Packed.{packed_rows, window_of};
ghost use Rattle.logged_disk.specs.Device.{Keeps};
ghost use Rattle.tape_base.specs.Place.{device_blocks_of, directory_blocks_of};
ghost use Rattle.dir_sync.specs.SyncCalls.{open_block, shut_block};
ghost use Rattle.stripe_copies.specs.Format.{Goes, IsEmptyImage, IsFirstBody, IsLaidOut, IsRefusedFormat, Stops, first_state, format_calls, opening_first, shutting_both, telling};

use dir_table::Directory;
use edge_io::Failed;
use logged_disk::Disk;
use packed_directory::{PackedDirectory, StoredDirectory};
use std::alloc::{AllocError, Global};
use stripe_header::{Area, CopyState, write_body, write_span};
use tape_base::{BLOCK, Geometry, directory_blocks};
use thiserror::Error;

/// Why a device was not laid out.
#[derive(Clone, Copy, Debug, PartialEq, Eq, Error)]
pub enum FormatFault {
    #[error("no memory for a copy of the directory")]
    Memory(AllocError),
    /// The device refused a call, and its count of faults then stood here.
    #[error("the device refused a call, its {0}. fault")]
    Device(u64),
}

fn first_state(g: &Geometry) -> CopyState
    ensures { result ≡ first_state g.now }
{
    CopyState {
        serial: 1,
        cursor: g.content,
        next_put: 1,
        clean: false,
        floor: 0,
    }
}

// The image of a directory without a row, in front of a block.
#[tactic(auto, unfolding(tape_base::specs::Place::directory_blocks))]
fn put_image(directory: &PackedDirectory, g: &Geometry, behind: &mut [u8])
    requires rows { packed_rows directory.now ≡ [] }
    requires window { window_of directory.now ≡ first_window g.now }
    requires room { length behind.old ≡ 512 * (directory_blocks_of g.now + 1) }
    ensures image { IsEmptyImage g.now (take (512 * directory_blocks_of g.now) behind.new) }
    ensures len { length behind.new ≡ 512 * (directory_blocks_of g.now + 1) }
{
    directory.image(
        g.content,
        &mut behind[..directory_blocks(g) as usize * BLOCK],
    );
}

// The body of the first copy.
fn fill(directory: &PackedDirectory, g: &Geometry, body: &mut [u8])
    requires rows { packed_rows directory.now ≡ [] }
    requires window { window_of directory.now ≡ first_window g.now }
    requires room { length body.old ≡ 512 * (directory_blocks_of g.now + 2) }
    ensures body { IsFirstBody g.now body.new }
    ensures len { length body.new ≡ length body.old }
{
    put_image(directory, g, &mut body[BLOCK..]);
    write_body(g, &first_state(g), body);
}

fn make_body(alloc: Global, g: &Geometry) -> Result<Vec<u8>, AllocError>
    ensures body { IfOk result (λ body. IsFirstBody g.now body.items) }
    ensures len { IfOk result (λ body. length body.items ≡ 512 * (directory_blocks_of g.now + 2)) }
{
    let blocks = directory_blocks(g) as usize;
    let mut body = vec![in alloc; 0; (blocks + 2) * BLOCK]?;
    let directory = PackedDirectory::new(alloc, g)?;
    fill(&directory, g, &mut body);
    Ok(body)
}

#[tactic(auto, unfolding(dir_sync::specs::SyncCalls::shut_block))]
fn gates() -> [u8; 2 * BLOCK]
    ensures { result ≡ shut_block ++ shut_block }
{
    [0; 2 * BLOCK]
}

#[tactic(auto, unfolding(dir_sync::specs::SyncCalls::open_block))]
fn gate() -> [u8; BLOCK]
    ensures { result ≡ open_block }
{
    let mut gate = [0; BLOCK];
    gate[0] = 1;
    gate
}

// Both gates are shut, and nothing is pending.
fn shut_gates<D: Disk>(disk: &mut D) -> Result<(), Failed>
    requires within { 3 ≤ (D.state disk.old).size }
    requires calls { 2 ≤ (D.state disk.old).calls }
    requires blocks { 2 ≤ (D.state disk.old).blocks }
    ensures keeps { Keeps 2 2 (D.state disk.old) (D.state disk.new) }
    ensures went { OnOk result (Goes shutting_both (D.state disk.old) (D.state disk.new)) }
    ensures stopped { OnErr result (Stops shutting_both (D.state disk.old) (D.state disk.new)) }
{
    let gates = gates();
    disk.write(1, &gates)?;
    disk.sync()
}

// The span and the first copy, and nothing is pending.
fn put_copy<D: Disk>(disk: &mut D, g: &Geometry, body: &[u8]) -> Result<(), Failed>
    requires len { length body.now ≡ 512 * (directory_blocks_of g.now + 2) }
    requires sized { device_blocks_of g.now ≤ (D.state disk.old).size }
    requires calls { 3 ≤ (D.state disk.old).calls }
    requires blocks { directory_blocks_of g.now + 3 ≤ (D.state disk.old).blocks }
    ensures keeps { Keeps 3 (directory_blocks_of g.now + 3) (D.state disk.old) (D.state disk.new) }
    ensures went { OnOk result (Goes (telling g.now body.now) (D.state disk.old) (D.state disk.new)) }
    ensures stopped { OnErr result (Stops (telling g.now body.now)
        (D.state disk.old) (D.state disk.new)) }
{
    let area = Area {
        geometry: *g,
        directory: directory_blocks(g),
    };
    let mut span = [0; BLOCK];
    write_span(&area, &mut span);
    disk.write(0, &span)?;
    disk.write(3, body)?;
    disk.sync()
}

// The gate of the first copy is opened, and nothing is pending.
fn open_gate<D: Disk>(disk: &mut D) -> Result<(), Failed>
    requires within { 2 ≤ (D.state disk.old).size }
    requires calls { 2 ≤ (D.state disk.old).calls }
    requires blocks { 1 ≤ (D.state disk.old).blocks }
    ensures keeps { Keeps 2 1 (D.state disk.old) (D.state disk.new) }
    ensures went { OnOk result (Goes opening_first (D.state disk.old) (D.state disk.new)) }
    ensures stopped { OnErr result (Stops opening_first (D.state disk.old) (D.state disk.new)) }
{
    let gate = gate();
    disk.write(1, &gate)?;
    disk.sync()
}

// The calls of a format, in order.
fn write_all<D: Disk>(disk: &mut D, g: &Geometry, body: &[u8]) -> Result<(), Failed>
    requires len { length body.now ≡ 512 * (directory_blocks_of g.now + 2) }
    requires sized { device_blocks_of g.now ≤ (D.state disk.old).size }
    requires calls { 7 ≤ (D.state disk.old).calls }
    requires blocks { directory_blocks_of g.now + 6 ≤ (D.state disk.old).blocks }
    ensures keeps { Keeps 7 (directory_blocks_of g.now + 6) (D.state disk.old) (D.state disk.new) }
    ensures went { OnOk result (Goes (format_calls g.now body.now)
        (D.state disk.old) (D.state disk.new)) }
    ensures stopped { OnErr result (Stops (format_calls g.now body.now)
        (D.state disk.old) (D.state disk.new)) }
{
    shut_gates(disk)?;
    put_copy(disk, g, body)?;
    open_gate(disk)
}

/// Lays a device out for an empty stripe: both gates are shut, the span and the first copy of the
/// directory are written, and its gate is opened. All memory is taken before the first call.
pub fn lay_out<D: Disk>(alloc: Global, disk: &mut D, g: &Geometry) -> Result<(), FormatFault>
    requires sized { device_blocks_of g.now ≤ (D.state disk.old).size }
    ensures laid { OnOk result (IsLaidOut g.now (D.state disk.old) (D.state disk.new)) }
    ensures fault { IfErr result (IsRefusedFormat g.now (D.state disk.old) (D.state disk.new)) }
{
    let body = match make_body(alloc, g) {
        Ok(body) => body,
        Err(e) => return Err(FormatFault::Memory(e)),
    };
    if let Err(e) = disk.make_room(7, directory_blocks(g) + 6) {
        return Err(FormatFault::Memory(e));
    }
    match write_all(disk, g, &body) {
        Ok(()) => Ok(()),
        Err(Failed) => Err(FormatFault::Device(disk.faults())),
    }
}
