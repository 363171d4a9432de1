//! The document that stands around each piece on the tape: a header of 128 bytes, and the payload.
#![tactic(auto)]

mod digests;
mod documents;
mod fields;
mod layout;
mod moving;
mod reading;
mod writing;

pub use digests::document_digest;
pub use documents::{Doc, DocFault, DocRef};
pub use moving::{move_document, moved_alike, moved_is_document, moved_is_same, moves_keep};
pub use reading::{payload, read_doc};
pub use writing::write_doc;
