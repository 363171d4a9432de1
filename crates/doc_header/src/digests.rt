// The digest by which a document is recorded.
ghost use Rattle.std.specs.Prelude.{◌≡◌, ◌+◌, ℕ, List, take};
ghost use Rattle.doc_header.specs.declared.documents.Doc.{Doc};
ghost use Rattle.doc_header.specs.Document.{IsDocument, digest_of_document};
ghost use Rattle.doc_header.specs.Reading.{slice_at, extent_of, document_digest};

use crate::fields::{field, number_32};
use crate::layout::{HEADER, LENGTH_AT};
use tape_base::Digest;

// The bytes that are looked at.
#[tactic(auto, using(crate::proofs::Stands::few_bytes), unfolding(crate::specs::Reading::slice_at))]
fn extent(bytes: &[u8]) -> &[u8]
    ensures { result.now ≡ take (extent_of bytes.now) bytes.now }
{
    if bytes.len() < HEADER {
        return bytes;
    }
    let end = HEADER + number_32(bytes, LENGTH_AT) as usize;
    if bytes.len() < end {
        bytes
    } else {
        field(bytes, 0, end)
    }
}

fn digest_in(bytes: &[u8]) -> Digest
    ensures digest { result ≡ document_digest bytes.now }
{
    Digest::of(extent(bytes))
}

/// The SHA-256 of the header and the payload that the bytes tell, or of all bytes where they are
/// fewer. It does not ask whether the bytes are a document.
pub fn document_digest(bytes: &[u8]) -> Digest
    ensures digest { result ≡ document_digest bytes.now }
    ensures document { (generation place : ℕ) (doc : Doc) (payload : List ℕ)
        → IsDocument bytes.now generation place doc payload → result ≡ digest_of_document doc payload }
{
    digest_in(bytes)
}
