//! The SHA-256 of a document and of its payload, in one pass over their bytes.
#![tactic(auto)]

mod digests;
mod rounds;
mod vectors;

pub use digests::digest_document;
