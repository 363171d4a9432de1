// The first block of a document.
ghost use Rattle.std.specs.Prelude.{◌≡◌, ◌≤◌, ◌<◌, ◌+◌, ◌^◌, false, true, length, IfNone, IfSome};
ghost use Rattle.tape_base.specs.Blocks.{blocks_of};
ghost use Rattle.doc_header.specs.Reading.{length_of, slice_at};
ghost use Rattle.reopening.specs.Heads.{head_passes, is_head};

use reopening::{blocks_of_length, is_inside, length_told};
use tape_base::Geometry;

const MAGIC: [u8; 8] = *b"TSCDOCM1";

const VERSION: u32 = 1;

// So many bytes of a block from one on.
#[tactic(auto, unfolding(doc_header::specs::Reading::slice_at))]
fn field<const N: usize>(head: &[u8], at: usize) -> [u8; N]
    requires { at + N ≤ length head.now }
    ensures { result ≡ slice_at at N head.now }
{
    let mut field = [0; N];
    field.copy_from_slice(&head[at..at + N]);
    field
}

// Whether a document of this generation and place begins so, with as many blocks as belong to its length.
#[tactic(auto, unfolding(doc_header::specs::Reading::doc_number))]
fn is_head(g: &Geometry, place: u64, head: &[u8]) -> bool
    requires { 512 ≤ length head.now }
    ensures { result ≡ is_head g.now place head.now }
{
    field(head, 0) == MAGIC
        && (u32::from_le_bytes(field(head, 8)) == VERSION
            && (u32::from_le_bytes(field(head, 44)) as u64 == blocks_of_length(length_told(head))
                && (u64::from_le_bytes(field(head, 56)) == g.generation
                    && u64::from_le_bytes(field(head, 48)) == place)))
}

/// How many blocks the document has that begins with this one, where it may stand at the place.
pub(crate) fn blocks_behind(g: &Geometry, cursor: u64, place: u64, head: &[u8]) -> Option<u64>
    requires some { 512 ≤ length head.now }
    requires cursor { cursor < 2 ^ 62 }
    requires place { place < 2 ^ 62 }
    ensures none { IfNone result (head_passes g.now cursor place head.now ≡ false) }
    ensures passes { IfSome result (λ n. head_passes g.now cursor place head.now ≡ true) }
    ensures blocks { IfSome result (λ n. n ≡ blocks_of (length_of head.now)) }
{
    if place < g.content || !is_head(g, place, head) {
        return None;
    }
    let blocks = blocks_of_length(length_told(head));
    if !is_inside(g, cursor, place, blocks) {
        return None;
    }
    Some(blocks)
}
