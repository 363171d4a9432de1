// Writing the one document of its fields and its payload.
ghost use Rattle.std.specs.Prelude.{◌≡◌, ◌≤◌, ◌<◌, ◌^◌, ◌+◌, ◌*◌, ◌++◌, length, take, replicate};
ghost use Rattle.std.specs.Int.{to_le_bytes, w64};
ghost use Rattle.tape_base.specs.Blocks.{blocks_of};
ghost use Rattle.tape_base.specs.Digest.{digest_of};
ghost use Rattle.doc_header.specs.Document.{name_bytes, header_bytes, document_bytes, check_of, HasName, NumbersFit, Fits, IsDocument};

use crate::documents::Doc;
use crate::layout::{BLOCK, MAGIC, VERSION};
use sha_words::digest;
use tape_base::Digest;

// Puts a field behind the first `at` bytes, and tells where it ends.
fn put(into: &mut [u8], at: usize, field: &[u8]) -> usize
    requires { at + length field.now ≤ length into.old }
    ensures end { result ≡ at + length field.now }
    ensures front { take result into.new ≡ take at into.old ++ field.now }
    ensures len { length into.new ≡ length into.old }
{
    let end = at + field.len();
    into[at..end].copy_from_slice(field);
    end
}

fn clear(into: &mut [u8])
    ensures { into.new ≡ replicate (length into.old) 0 }
{
    into.fill(0);
}

// Bytes 0 to 47.
#[tactic(auto, unfolding(crate::specs::Document::name_bytes))]
fn put_name(into: &mut [u8], doc: &Doc, size: u32, blocks: u32) -> usize
    requires room { 128 ≤ length into.old }
    requires blocks { blocks ≡ blocks_of size }
    ensures end { result ≡ 48 }
    ensures front { take 48 into.new ≡ name_bytes doc.now size }
    ensures name { HasName doc.now }
    ensures len { length into.new ≡ length into.old }
{
    let at = put(into, 0, &MAGIC);
    let at = put(into, at, &VERSION.to_le_bytes());
    let at = put(into, at, &size.to_le_bytes());
    let at = put(into, at, &doc.id.first.bytes());
    let at = put(into, at, &doc.id.put.to_le_bytes());
    let at = put(into, at, &doc.id.index.to_le_bytes());
    put(into, at, &blocks.to_le_bytes())
}

// Bytes 48 to 79.
fn put_place(into: &mut [u8], at: usize, doc: &Doc) -> usize
    requires room { at + 32 ≤ length into.old }
    ensures end { result ≡ at + 32 }
    ensures front { take result into.new ≡ take at into.old
        ++ to_le_bytes w64 doc.now.place ++ to_le_bytes w64 doc.now.generation
        ++ to_le_bytes w64 doc.now.pin ++ to_le_bytes w64 doc.now.start }
    ensures position { NumbersFit doc.now }
    ensures len { length into.new ≡ length into.old }
{
    let at = put(into, at, &doc.place.to_le_bytes());
    let at = put(into, at, &doc.generation.to_le_bytes());
    let at = put(into, at, &doc.pin.to_le_bytes());
    put(into, at, &doc.start.to_le_bytes())
}

// Bytes 112 to 127, of the bytes before them.
fn put_check(into: &mut [u8], at: usize) -> usize
    requires room { at + 16 ≤ length into.old }
    ensures end { result ≡ at + 16 }
    ensures front { take result into.new ≡ take at into.old ++ check_of (take at into.old) }
    ensures len { length into.new ≡ length into.old }
{
    let check = digest(&into[..at]);
    put(into, at, &check[..16])
}

// Bytes 0 to 127.
#[tactic(auto, unfolding(crate::specs::Document::header_bytes))]
fn put_header(into: &mut [u8], doc: &Doc, payload: &[u8], digest: &Digest, blocks: u32) -> usize
    requires room { 128 ≤ length into.old }
    requires digest { digest.now ≡ digest_of payload.now }
    requires size { length payload.now < 2 ^ 32 }
    requires blocks { blocks ≡ blocks_of (length payload.now) }
    ensures end { result ≡ 128 }
    ensures front { take 128 into.new ≡ header_bytes doc.now payload.now }
    ensures fits { Fits doc.now payload.now }
    ensures len { length into.new ≡ length into.old }
{
    let at = put_name(into, doc, payload.len() as u32, blocks);
    let at = put_place(into, at, doc);
    let at = put(into, at, &digest.0);
    put_check(into, at)
}

// The header, the payload, and zeros up to the end.
fn put_all(into: &mut [u8], doc: &Doc, payload: &[u8], digest: &Digest)
    requires size { length payload.now < 2 ^ 32 }
    requires digest { digest.now ≡ digest_of payload.now }
    requires room { length into.old ≡ 512 * blocks_of (length payload.now) }
    ensures bytes { into.new ≡ document_bytes doc.now payload.now }
    ensures fits { Fits doc.now payload.now }
    ensures len { length into.new ≡ length into.old }
{
    let blocks = (into.len() / BLOCK) as u32;
    let at = put_header(into, doc, payload, digest, blocks);
    let at = put(into, at, payload);
    clear(&mut into[at..]);
}

/// Writes the document of these fields and this payload, whose digest is given, over all of the
/// given bytes.
pub fn write_doc(doc: &Doc, payload: &[u8], digest: &Digest, into: &mut [u8])
    requires size { length payload.now < 2 ^ 32 }
    requires digest { digest.now ≡ digest_of payload.now }
    requires room { length into.old ≡ 512 * blocks_of (length payload.now) }
    ensures bytes { into.new ≡ document_bytes doc.now payload.now }
    // What is written is read at its place.
    ensures document { IsDocument into.new doc.now.generation doc.now.place doc.now payload.now }
{
    put_all(into, doc, payload, digest);
}
