//! A segment of the directory: chains of entries by bucket, and a list of the free slots.
#![tactic(auto)]

mod fault;
mod image;
mod laws;
mod purge;
mod reached;
mod segment;
mod slots;

pub use fault::SegmentFault;
pub use laws::{clean_keeps, delete_takes, insert_enters};
pub use purge::PurgeList;
pub use segment::{Inserted, Segment};
