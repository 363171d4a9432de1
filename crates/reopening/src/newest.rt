// Which copy of the directory an opening takes.
ghost use Rattle.std.specs.Prelude.{◌≡◌, ◌≤◌, ◌<◌, ◌+◌, ◌-◌, ◌*◌, ◌^◌, ◌⊎◌, Some, length, IsTrue, IfOk, IfErr};
ghost use Rattle.std.specs.Result.{result_ok};
ghost use Rattle.stripe_header.specs.Layout.{body_of, body_blocks, device_blocks};
ghost use Rattle.stripe_header.specs.Reading.{copy_told, CopyAnswers};
ghost use Rattle.stripe_header.specs.Spelling.{may_say};
ghost use Rattle.reopening.specs.Slices.{image_of};
ghost use Rattle.reopening.specs.Newest.{body_at, bound_of, copy_at, directory_at, fault_at, newer, newest_of};

use crate::slices::{blocks_at, gate_at};
use stripe_header::{Area, CopyFault, CopyState, Side, read_copy};
use tape_base::{Geometry, lap_end};

/// The newest copy that is accepted.
#[derive(Clone, Copy, Debug, PartialEq, Eq)]
pub struct Newest {
    pub side: Side,
    /// What it tells.
    pub told: CopyState,
}

// Reads a copy of an image.
fn copy_at(area: &Area, image: &[u8], side: Side) -> Result<CopyState, CopyFault>
    requires whole { length image.now ≡ 512 * device_blocks area.now }
    ensures exact { CopyAnswers result (fault_at area.now (image_of image.now) side)
        (copy_told (body_at area.now (image_of image.now) side)) }
    ensures copy { result_ok result ≡ copy_at area.now (image_of image.now) side }
    ensures says { IfOk result (λ told. IsTrue (may_say area.now.geometry told)) }
{
    let gate = gate_at(image, side);
    let body = blocks_at(image, area.body(side), area.body_blocks());
    read_copy(&area.geometry, &gate, body)
}

/// The bytes of a copy's directory.
pub fn directory_at<'a>(area: &Area, image: &'a [u8], side: Side) -> &'a [u8]
    requires whole { length image.now ≡ 512 * device_blocks area.now }
    ensures bytes { result.now ≡ directory_at area.now (image_of image.now) side }
    ensures len { length result.now ≡ 512 * area.now.directory }
{
    blocks_at(image, area.body(side) + 1, area.directory)
}

// That of the two with the greater serial.
fn newer(a: CopyState, b: CopyState) -> Newest
    ensures newer { newer (Some a) (Some b) ≡ Some result }
    ensures one { (result.told ≡ a) ⊎ (result.told ≡ b) }
{
    if a.serial < b.serial {
        Newest {
            side: Side::B,
            told: b,
        }
    } else {
        Newest {
            side: Side::A,
            told: a,
        }
    }
}

/// The newest copy that is accepted, or the faults of both.
pub fn newest_of(area: &Area, image: &[u8]) -> Result<Newest, (CopyFault, CopyFault)>
    requires whole { length image.now ≡ 512 * device_blocks area.now }
    ensures newest { IfOk result (λ n. newest_of area.now (image_of image.now) ≡ Some n) }
    ensures says { IfOk result (λ n. IsTrue (may_say area.now.geometry n.told)) }
    ensures a { IfErr result (λ f. fault_at area.now (image_of image.now) Side.A ≡ Some f.0) }
    ensures b { IfErr result (λ f. fault_at area.now (image_of image.now) Side.B ≡ Some f.1) }
{
    let a = copy_at(area, image, Side::A);
    let b = copy_at(area, image, Side::B);
    match (a, b) {
        (Ok(a), Ok(b)) => Ok(newer(a, b)),
        (Ok(a), Err(_)) => Ok(Newest {
            side: Side::A,
            told: a,
        }),
        (Err(_), Ok(b)) => Ok(Newest {
            side: Side::B,
            told: b,
        }),
        (Err(a), Err(b)) => Err((a, b)),
    }
}

/// The place below which nothing is looked for.
pub fn bound_of(g: &Geometry, told: &CopyState) -> u64
    requires says { IsTrue (may_say g.now told.now) }
    ensures { result ≡ bound_of g.now told.now }
{
    if told.clean {
        return told.floor;
    }
    (told.cursor + g.reach).min(lap_end(g, told.cursor)) - g.content
}
