// Moving a document to another place.
ghost use Rattle.std.specs.Prelude.{◌≡◌, ◌≤◌, ◌+◌, ◌++◌, ℕ, List, length, take, drop};
ghost use Rattle.doc_header.specs.declared.documents.Doc.{Doc};
ghost use Rattle.doc_header.specs.Document.{check_of, IsDocument};
ghost use Rattle.doc_header.specs.Moving.{moved_to, doc_moved_to, MovesKeep, MovedIsSpelled, MovedIsRecorded, MovedIsSame, MovedAlike};

use crate::layout::{CHECK_AT, PLACE_AT};
use sha_words::digest;

// Puts a field over as many bytes.
fn replace(bytes: &mut [u8], at: usize, field: &[u8])
    requires { at + length field.now ≤ length bytes.old }
    ensures bytes { bytes.new ≡ take at bytes.old ++ field.now ++ drop (at + length field.now) bytes.old }
    ensures len { length bytes.new ≡ length bytes.old }
{
    let end = at + field.len();
    bytes[at..end].copy_from_slice(field);
}

// Makes the check of a header anew.
fn check_anew(bytes: &mut [u8])
    requires { 128 ≤ length bytes.old }
    ensures bytes { let fields = take 112 bytes.old in
        bytes.new ≡ fields ++ check_of fields ++ drop 128 bytes.old }
    ensures len { length bytes.new ≡ length bytes.old }
{
    let check = digest(&bytes[..CHECK_AT]);
    replace(bytes, CHECK_AT, &check[..16]);
}

/// Makes of a document the same one at another place: its header has the place, and a check made
/// anew. It does not ask whether the bytes are a document.
pub fn move_document(bytes: &mut [u8], place: u64)
    requires header { 128 ≤ length bytes.old }
    ensures moved { bytes.new ≡ moved_to place bytes.old }
    ensures len { length bytes.new ≡ length bytes.old }
    // What was read at one place is read at the other.
    ensures document { (generation before : ℕ) (doc : Doc) (payload : List ℕ)
        → IsDocument bytes.old generation before doc payload
        → IsDocument bytes.new generation place (doc_moved_to place doc) payload }
{
    replace(bytes, PLACE_AT, &place.to_le_bytes());
    check_anew(bytes);
}

/// A law for proofs; it does nothing when it runs.
pub fn moves_keep()
    ensures { MovesKeep }
{}

/// A law for proofs; it does nothing when it runs.
pub fn moved_is_document()
    ensures spelled { MovedIsSpelled }
    ensures recorded { MovedIsRecorded }
{}

/// A law for proofs; it does nothing when it runs.
pub fn moved_is_same()
    ensures { MovedIsSame }
{}

/// A law for proofs; it does nothing when it runs.
pub fn moved_alike()
    ensures { MovedAlike }
{}
