// Places on the endless tape.
ghost use Rattle.std.specs.Prelude.{◌≡◌, ◌<◌, ◌≤◌, ◌^◌};
ghost use Rattle.tape_base.specs.Place.{lap_of, slot_of, block_of, content_block_of, device_blocks_of, directory_blocks_of, phase_of, lap_end_of, floor_of, next_cursor_of};

use crate::geometries::Geometry;

pub fn lap(g: &Geometry, place: u64) -> u64
    ensures { result ≡ lap_of g.now place }
{
    place / g.content
}

/// The block of the content area that a place stands for, from 0 on.
pub fn slot(g: &Geometry, place: u64) -> u64
    ensures value { result ≡ slot_of g.now place }
    ensures below { result < g.now.content }
{
    place % g.content
}

/// The blocks of the directory, as it lies in each of its copies.
#[tactic(auto, unfolding(crate::specs::Place::directory_blocks))]
pub fn directory_blocks(g: &Geometry) -> u64
    ensures value { result ≡ directory_blocks_of g.now }
    ensures some { 1 ≤ result }
    ensures few { result < 2 ^ 24 }
{
    (g.segments as u64 * (4 + 40 * g.buckets as u64)).div_ceil(512)
}

/// The block of the device on which a place lies.
pub fn block(g: &Geometry, place: u64) -> u64
    ensures value { result ≡ block_of g.now place }
    ensures within { result < device_blocks_of g.now }
{
    7 + 2 * directory_blocks(g) + slot(g, place)
}

/// The blocks of a whole device.
pub fn device_blocks(g: &Geometry) -> u64
    ensures { result ≡ device_blocks_of g.now }
{
    7 + 2 * directory_blocks(g) + g.content
}

/// Whether a place is in a lap of odd number.
pub fn phase(g: &Geometry, place: u64) -> bool
    ensures { result ≡ phase_of g.now place }
{
    lap(g, place) % 2 == 1
}

/// The place at which the next lap begins.
pub fn lap_end(g: &Geometry, place: u64) -> u64
    requires { place < 2 ^ 62 }
    ensures value { result ≡ lap_end_of g.now place }
    ensures above { place < result }
{
    place + (g.content - slot(g, place))
}

/// The least place that stays readable while the buffer that begins at this cursor is filled.
pub fn floor_of(g: &Geometry, cursor: u64) -> u64
    requires { g.now.content ≤ cursor }
    ensures { result ≡ floor_of g.now cursor }
{
    cursor - (g.content - g.agg as u64)
}

/// Where the buffer behind this one begins.
pub fn next_cursor(g: &Geometry, cursor: u64, filled: u32) -> u64
    requires cursor { cursor < 2 ^ 62 }
    requires filled { filled ≤ g.now.agg }
    ensures { result ≡ next_cursor_of g.now cursor filled }
{
    let end = lap_end(g, cursor);
    let next = cursor + filled as u64;
    if next + g.agg as u64 > end { end } else { next }
}
