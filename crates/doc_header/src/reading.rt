// Reading a document where it stands, or the first fault of the bytes.
ghost use Rattle.std.specs.Prelude.{◌≡◌, ◌≤◌, ◌<◌, ◌+◌, ◌*◌, ℕ, List, None, length, take, IsTrue, IfOk, IfNone};
ghost use Rattle.tape_base.specs.Key.{key_bytes, key_of_bytes};
ghost use Rattle.tape_base.specs.Blocks.{blocks_of};
ghost use Rattle.doc_header.specs.Reading.{slice_at, extent_of, doc_of, payload_of, has_blocks, header_fault, address_fault, payload_fault, first_fault, AnswersDocument};
ghost use Rattle.std.specs.Str.{bytes_eq};
ghost use Rattle.doc_header.specs.Document.{check_of, IsDocument};
ghost use Rattle.doc_header.specs.declared.documents.Doc.{Doc};

use crate::documents::{Doc, DocFault, DocRef};
use crate::fields::{array, field, number_32, number_64};
use crate::layout::{
    BLOCK, BLOCKS_AT, CHECK_AT, DIGEST_AT, GENERATION_AT, HEADER, INDEX_AT, KEY_AT, LENGTH_AT,
    MAGIC, PIN_AT, PLACE_AT, PUT_AT, START_AT, VERSION, VERSION_AT,
};
use sha_words::digest;
use tape_base::{Digest, Key, PieceId};

// The blocks of a document whose payload has this length in bytes.
fn blocks_of_length(size: u32) -> u64
    ensures { result ≡ blocks_of size }
{
    (HEADER as u64 + size as u64).div_ceil(BLOCK as u64)
}

fn has_blocks(bytes: &[u8]) -> bool
    requires { 128 ≤ length bytes.now }
    ensures blocks { result ≡ has_blocks bytes.now }
    ensures room { IsTrue result → extent_of bytes.now ≤ length bytes.now }
{
    let blocks = blocks_of_length(number_32(bytes, LENGTH_AT));
    number_32(bytes, BLOCKS_AT) as u64 == blocks && bytes.len() as u64 >= BLOCK as u64 * blocks
}

fn has_check(bytes: &[u8]) -> bool
    requires { 128 ≤ length bytes.now }
    ensures { result ≡ bytes_eq (slice_at 112 16 bytes.now) (check_of (slice_at 0 112 bytes.now)) }
{
    let check = digest(field(bytes, 0, CHECK_AT));
    field(bytes, CHECK_AT, 16) == &check[..16]
}

#[tactic(auto, unfolding(crate::specs::Reading::header_fault))]
fn header_fault(bytes: &[u8]) -> Option<DocFault>
    requires { 128 ≤ length bytes.now }
    ensures fault { result ≡ header_fault bytes.now }
    ensures room { IfNone result (extent_of bytes.now ≤ length bytes.now) }
{
    if field(bytes, 0, VERSION_AT) != MAGIC.as_slice() {
        return Some(DocFault::Magic);
    }
    if number_32(bytes, VERSION_AT) != VERSION {
        return Some(DocFault::Version);
    }
    if !has_blocks(bytes) {
        return Some(DocFault::Length);
    }
    if !has_check(bytes) {
        return Some(DocFault::HeaderCheck);
    }
    None
}

fn doc_of(bytes: &[u8]) -> Doc
    requires { 128 ≤ length bytes.now }
    ensures doc { result ≡ doc_of bytes.now }
    ensures key { key_bytes result.id.first ≡ slice_at 16 16 bytes.now }
{
    let id = PieceId {
        first: Key::new(array(bytes, KEY_AT)),
        put: number_64(bytes, PUT_AT),
        index: number_32(bytes, INDEX_AT),
    };
    Doc {
        id,
        place: number_64(bytes, PLACE_AT),
        generation: number_64(bytes, GENERATION_AT),
        pin: number_64(bytes, PIN_AT),
        start: number_64(bytes, START_AT),
    }
}

#[tactic(auto, unfolding(crate::specs::Reading::address_fault))]
fn address_fault(doc: &Doc, generation: u64, place: u64) -> Option<DocFault>
    ensures { result ≡ address_fault doc.now generation place }
{
    if doc.generation != generation {
        return Some(DocFault::Generation {
            found: doc.generation,
        });
    }
    if doc.place != place {
        return Some(DocFault::Place { found: doc.place });
    }
    None
}

#[tactic(auto, unfolding(crate::specs::Reading::payload_fault))]
fn payload_fault(kept: Digest, payload: &[u8]) -> Option<DocFault>
    ensures { result ≡ payload_fault kept payload.now }
{
    let found = Digest::of(payload);
    if kept.0 == found.0 {
        None
    } else {
        Some(DocFault::Digest { kept, found })
    }
}

fn read<'a>(bytes: &'a [u8], generation: u64, place: u64) -> Result<DocRef<'a>, DocFault>
    ensures exact { AnswersDocument result (first_fault bytes.now generation place)
        (doc_of bytes.now) (payload_of bytes.now) }
    ensures key { IfOk result (λ _.
        key_bytes (key_of_bytes (slice_at 16 16 bytes.now)) ≡ slice_at 16 16 bytes.now) }
{
    if bytes.len() < HEADER {
        return Err(DocFault::Short);
    }
    if let Some(fault) = header_fault(bytes) {
        return Err(fault);
    }
    let doc = doc_of(bytes);
    if let Some(fault) = address_fault(&doc, generation, place) {
        return Err(fault);
    }
    let payload = field(bytes, HEADER, number_32(bytes, LENGTH_AT) as usize);
    if let Some(fault) = payload_fault(Digest(array(bytes, DIGEST_AT)), payload) {
        return Err(fault);
    }
    Ok(DocRef { doc, payload })
}

/// Reads the document of this generation at this place at the front of the bytes, whose payload is
/// lent. The bytes behind the payload are not looked at.
pub fn read_doc<'a>(bytes: &'a [u8], generation: u64, place: u64) -> Result<DocRef<'a>, DocFault>
    ensures exact { AnswersDocument result (first_fault bytes.now generation place)
        (doc_of bytes.now) (payload_of bytes.now) }
    // What is read is spelled so.
    ensures found { IfOk result (λ read.
        IsDocument bytes.now generation place read.doc read.payload.now) }
    // What is spelled so is read.
    ensures only { (doc : Doc) (payload : List ℕ)
        → IsDocument bytes.now generation place doc payload
        → AnswersDocument result None doc payload }
    // The answer is that for as many bytes with others behind the payload.
    ensures behind { (other : List ℕ) → length other ≡ length bytes.now
        → take (extent_of bytes.now) other ≡ take (extent_of bytes.now) bytes.now
        → AnswersDocument result (first_fault other generation place) (doc_of other)
        (payload_of other) }
{
    read(bytes, generation, place)
}

/// The payload that bytes tell, as much of it as they have. It does not ask whether they are a
/// document.
#[tactic(auto, using(crate::proofs::Stands::few_bytes), unfolding(crate::specs::Reading::slice_at))]
pub fn payload(bytes: &[u8]) -> &[u8]
    requires { 128 ≤ length bytes.now }
    ensures { result.now ≡ payload_of bytes.now }
{
    let told = number_32(bytes, LENGTH_AT) as usize;
    let (_, behind) = bytes.split_at(HEADER);
    if behind.len() < told {
        behind
    } else {
        field(behind, 0, told)
    }
}
