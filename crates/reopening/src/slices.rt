// The blocks of an image that is bytes in memory.
ghost use Rattle.std.specs.Prelude.{◌≡◌, ◌≤◌, ◌<◌, ◌+◌, ◌*◌, ◌^◌, length};
ghost use Rattle.device_log.specs.Image.{span};
ghost use Rattle.stripe_header.specs.Layout.{device_blocks, gate_of};
ghost use Rattle.tape_base.specs.Blocks.{blocks_of};
ghost use Rattle.doc_header.specs.Reading.{length_of};
ghost use Rattle.reopening.specs.Slices.{image_of};
ghost use Rattle.reopening.specs.Documents.{document_at};

use stripe_header::{Area, Side};
use tape_base::slot;

/// So many blocks from one on.
pub fn blocks_at(image: &[u8], at: u64, count: u64) -> &[u8]
    requires within { 512 * (at + count) ≤ length image.now }
    ensures blocks { result.now ≡ span (image_of image.now) at count }
    ensures len { length result.now ≡ 512 * count }
{
    let start = 512 * at as usize;
    &image[start..start + 512 * count as usize]
}

/// The block of a gate.
pub fn gate_at(image: &[u8], side: Side) -> [u8; 512]
    requires within { 2048 ≤ length image.now }
    ensures { result ≡ image_of image.now (gate_of side) }
{
    let mut gate = [0; 512];
    gate.copy_from_slice(blocks_at(image, side.gate(), 1));
    gate
}

/// The length that a document tells of its payload.
#[tactic(auto, unfolding(doc_header::specs::Reading::doc_number, doc_header::specs::Reading::slice_at))]
pub fn length_told(bytes: &[u8]) -> u32
    requires { 512 ≤ length bytes.now }
    ensures { result ≡ length_of bytes.now }
{
    let mut field = [0; 4];
    field.copy_from_slice(&bytes[12..16]);
    u32::from_le_bytes(field)
}

/// The blocks of a document with a payload of this length.
pub fn blocks_of_length(length: u32) -> u64
    ensures { result ≡ blocks_of length }
{
    (128 + length as u64).div_ceil(512)
}

/// The bytes that are read at a place.
#[tactic(auto, unfolding(crate::specs::Documents::document_at))]
pub fn document_at<'a>(area: &Area, image: &'a [u8], place: u64) -> &'a [u8]
    requires whole { length image.now ≡ 512 * device_blocks area.now }
    ensures bytes { result.now ≡ document_at area.now (image_of image.now) place }
    ensures some { 512 ≤ length result.now }
{
    let at = area.block_of(place);
    let told = blocks_of_length(length_told(blocks_at(image, at, 1)));
    let room = area.geometry.content - slot(&area.geometry, place);
    blocks_at(image, at, told.min(room))
}
