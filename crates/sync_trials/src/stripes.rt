// A stripe with two copies, and the one that is to take the place of the first.
ghost use Rattle.std.specs.Prelude.{◌≡◌, ◌≤◌, ◌*◌, ◌^◌, length, IfOk};
ghost use Rattle.stripe_header.specs.Layout.{body_blocks};

use std::alloc::{AllocError, Global};
use stripe_header::{Area, CopyState, write_body};
use tape_base::Geometry;

/// How the blocks of a body are written: all at once, or in parts of 64.
#[derive(Clone, Copy)]
pub enum Way {
    Whole,
    Parts,
}

/// The bodies of the copy that is replaced, of the other one, and of the new one.
#[derive(Drop)]
pub struct Stripe {
    pub area: Area,
    pub old: Vec<u8>,
    pub other: Vec<u8>,
    pub new: Vec<u8>,
    ghost old_whole: { length old.items ≡ 512 * body_blocks area },
    ghost other_whole: { length other.items ≡ 512 * body_blocks area },
    ghost new_whole: { length new.items ≡ 512 * body_blocks area },
}

/// What the copy of a serial says.
pub fn state_of(serial: u64) -> CopyState {
    CopyState {
        serial,
        cursor: 130,
        next_put: 9,
        clean: false,
        floor: 0,
    }
}

/// A body in which the directory has this byte throughout, and no header yet.
pub fn bare_body(alloc: Global, area: &Area, byte: u8) -> Result<Vec<u8>, AllocError>
    ensures { IfOk result (λ body. length body.items ≡ 512 * body_blocks area.now) }
{
    let bytes = 512 * area.body_blocks() as usize;
    vec![in alloc; byte; bytes]
}

// The body of a copy with this serial, of which each byte of the directory is the serial too.
fn body_of(alloc: Global, area: &Area, serial: u8) -> Result<Vec<u8>, AllocError>
    ensures { IfOk result (λ body. length body.items ≡ 512 * body_blocks area.now) }
{
    let mut body = bare_body(alloc, area, serial)?;
    write_body(&area.geometry, &state_of(serial as u64), &mut body);
    Ok(body)
}

pub fn small_geometry() -> Option<Geometry> {
    Geometry::check(1, 2, 64, 16, 32, 1000, 7).ok()
}

/// A stripe whose directory has so many blocks.
pub fn trial_stripe(alloc: Global, geometry: Geometry, directory: u64) -> Result<Stripe, AllocError>
    requires some { 1 ≤ directory }
    requires few { directory ≤ 1000 }
{
    let area = Area {
        geometry,
        directory,
    };
    Ok(Stripe {
        area,
        old: body_of(alloc, &area, 3)?,
        other: body_of(alloc, &area, 4)?,
        new: body_of(alloc, &area, 5)?,
    })
}
