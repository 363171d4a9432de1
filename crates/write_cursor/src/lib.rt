//! Plans where the next buffer begins, and whether a directory sync is due with the flush.
#![tactic(auto)]

mod planning;

pub use planning::{Cursor, Next};
