// The tests that an entry has to pass by itself.
ghost use Rattle.std.specs.Prelude.{◌≡◌, ◌≤◌, ◌<◌, ◌+◌, ◌*◌, ◌^◌, ◌-◌, [], ◌++◌, ◌==◌, ◌&&◌, length, Some, IfOk, IfSome, OnOk};
ghost use Rattle.std.specs.List.{list_all, cons_option};
ghost use Rattle.std.specs.Option.{is_some};
ghost use Rattle.packed_directory.specs.StoredRows.{is_spot};
ghost use Rattle.tape_base.specs.Blocks.{blocks_of};
ghost use Rattle.tape_base.specs.Geometry.{budget_of};
ghost use Rattle.stripe_header.specs.Layout.{device_blocks};
ghost use Rattle.doc_header.specs.Reading.{doc_of, kept_digest, length_of, payload_of};
ghost use Rattle.reopening.specs.Slices.{image_of};
ghost use Rattle.reopening.specs.Documents.{alternates_in, document_at, listed_in, standing_of};
ghost use Rattle.reopening.specs.Tests.{has_put, is_begun, is_entered, is_inside, judged, lists_begun, standing_at, standing_from};

use crate::slices::{blocks_of_length, document_at, length_told};
use alternate_vector::{Vector, VectorFault};
use cache_model::FoundRow;
use dir_table::StoredRow;
use doc_header::{Doc, document_digest, read_doc};
use std::alloc::{AllocError, Global};
use stripe_header::{Area, CopyState};
use tape_base::{Digest, Geometry, Key, PieceId, lap, lap_end};

/// Whether a document of so many blocks ends within half a buffer, its lap and, in the cursor's lap, the cursor.
pub fn is_inside(g: &Geometry, cursor: u64, place: u64, blocks: u64) -> bool
    requires cursor { cursor < 2 ^ 62 }
    requires place { place < 2 ^ 62 }
    requires blocks { blocks < 2 ^ 40 }
    ensures { result ≡ is_inside g.now cursor place blocks }
{
    let end = place + blocks;
    blocks <= (g.agg / 2) as u64
        && (end <= lap_end(g, place) && (lap(g, place) != lap(g, cursor) || end <= cursor))
}

fn is_row(row: &StoredRow, place: u64, segment: u32, bucket: u32, tag: u16) -> bool
    ensures { result ≡ (row.now.place == place && is_spot segment bucket tag row.now) }
{
    row.place == place && (row.segment == segment && (row.bucket == bucket && row.tag == tag))
}

fn is_entered(g: &Geometry, rows: &[StoredRow], place: u64, id: PieceId) -> bool
    ensures { result ≡ is_entered g.now rows.now place id }
{
    let key = Key::of_piece(id);
    let segment = key.segment(g);
    let bucket = key.bucket(g);
    let tag = key.tag();
    rows.iter()
        .any(|row| is_row(row, place, segment, bucket, tag))
}

fn is_begun(next: u64, put: u64) -> bool
    ensures { result ≡ is_begun next put }
{
    0 < put && put < next
}

fn has_put(next: u64, id: PieceId) -> bool
    ensures { result ≡ has_put next id }
{
    id.index > 4096 || is_begun(next, id.put)
}

// Whether the puts of all alternates are begun.
fn lists_begun(next: u64, vector: &Vector) -> bool
    ensures { result ≡ list_all (λ x. is_begun next x.put) vector.now }
{
    for i in 0..vector.len() {
        if !is_begun(next, vector.get(i).put) {
            return false;
        }
    }
    true
}

// The vector that a payload is; none where it is none, or lists a put that was not begun.
fn vector_in(alloc: Global, next: u64, payload: &[u8]) -> Result<Option<Vector>, AllocError>
    ensures begun { IfOk result (λ read. lists_begun next (listed_in payload.now) ≡ is_some read) }
    ensures listed { IfOk result (λ read. IfSome read (λ list. listed_in payload.now ≡ Some list)) }
{
    match Vector::decode(alloc, payload) {
        Ok(vector) => {
            if lists_begun(next, &vector) {
                Ok(Some(vector))
            } else {
                Ok(None)
            }
        }
        Err(VectorFault::Memory(e)) => Err(e),
        Err(_) => Ok(None),
    }
}

// The digest of its payload that a header keeps.
#[tactic(auto, unfolding(doc_header::specs::Reading::slice_at))]
fn kept_of(bytes: &[u8]) -> Digest
    requires { 512 ≤ length bytes.now }
    ensures { result ≡ kept_digest bytes.now }
{
    let mut field = [0; 32];
    field.copy_from_slice(&bytes[80..112]);
    Digest(field)
}

// What stands where a document was read.
fn standing_of(
    place: u64,
    doc: Doc,
    blocks: u32,
    bytes: &[u8],
    alternates: Option<Vector>,
) -> FoundRow
    requires some { 512 ≤ length bytes.now }
    requires doc { doc ≡ doc_of bytes.now }
    requires blocks { blocks ≡ blocks_of (length_of bytes.now) }
    requires list { alternates ≡ alternates_in doc.id (payload_of bytes.now) }
    ensures { result ≡ standing_of place bytes.now }
{
    FoundRow {
        id: doc.id,
        place,
        blocks,
        digest: document_digest(bytes),
        length: length_told(bytes),
        payload: kept_of(bytes),
        pin: doc.pin,
        alternates,
    }
}

// Whether a document and its entry pass but for what its payload lists.
fn is_named(g: &Geometry, told: &CopyState, rows: &[StoredRow], place: u64, id: PieceId) -> bool
    ensures { result ≡ (is_entered g.now rows.now place id && has_put told.now.next_put id) }
{
    is_entered(g, rows, place, id) && has_put(told.next_put, id)
}

/// What stands at a place, where the tests are passed.
#[tactic(auto, unfolding(crate::specs::Tests::judged))]
pub fn judged(
    alloc: Global,
    g: &Geometry,
    told: &CopyState,
    rows: &[StoredRow],
    place: u64,
    bytes: &[u8],
) -> Result<Option<FoundRow>, AllocError>
    requires some { 512 ≤ length bytes.now }
    requires place { place < 2 ^ 62 }
    requires cursor { told.now.cursor < 2 ^ 62 }
    ensures { IfOk result (λ s. s ≡ judged g.now told.now rows.now place bytes.now) }
{
    if place < g.content {
        return Ok(None);
    }
    let Ok(read) = read_doc(bytes, g.generation, place) else {
        return Ok(None);
    };
    let doc = read.doc;
    let blocks = blocks_of_length(length_told(bytes));
    if !is_inside(g, told.cursor, place, blocks) {
        return Ok(None);
    }
    if !is_named(g, told, rows, place, doc.id) {
        return Ok(None);
    }
    if doc.id.index != 0 {
        return Ok(Some(standing_of(place, doc, blocks as u32, bytes, None)));
    }
    match vector_in(alloc, told.next_put, read.payload)? {
        None => Ok(None),
        Some(vector) => Ok(Some(standing_of(place, doc, blocks as u32, bytes, Some(vector)))),
    }
}

// What stands at a place of an image.
fn standing_at(
    alloc: Global,
    area: &Area,
    told: &CopyState,
    rows: &[StoredRow],
    image: &[u8],
    place: u64,
) -> Result<Option<FoundRow>, AllocError>
    requires whole { length image.now ≡ 512 * device_blocks area.now }
    requires place { place < 2 ^ 62 }
    requires cursor { told.now.cursor < 2 ^ 62 }
    ensures { IfOk result (λ s. s
        ≡ standing_at area.now told.now rows.now (image_of image.now) place) }
{
    judged(
        alloc,
        &area.geometry,
        told,
        rows,
        place,
        document_at(area, image, place),
    )
}

// Adds what stands at a place, if it does.
fn add(all: &mut Vec<FoundRow>, standing: Option<FoundRow>) -> Result<(), AllocError>
    ensures { OnOk result (all.new.items ≡ all.old.items ++ cons_option standing []) }
{
    match standing {
        Some(standing) => {
            all.push(standing)?;
            Ok(())
        }
        None => Ok(()),
    }
}

/// All that passes from a place on, below the cursor.
pub fn standing_from(
    alloc: Global,
    area: &Area,
    told: &CopyState,
    rows: &[StoredRow],
    image: &[u8],
    low: u64,
) -> Result<Vec<FoundRow>, AllocError>
    requires whole { length image.now ≡ 512 * device_blocks area.now }
    requires low { low ≤ told.now.cursor }
    requires cursor { told.now.cursor < 2 ^ 62 }
    ensures { IfOk result (λ all. all.items ≡ standing_from area.now told.now rows.now
        (image_of image.now) low (told.now.cursor - low)) }
{
    let mut all = Vec::new(alloc);
    for place in low..told.cursor {
        let standing = standing_at(alloc, area, told, rows, image, place)?;
        add(&mut all, standing)?;
    }
    Ok(all)
}
