//! The fragments of a stored body: the length and the payload digest of each, in order.
#![tactic(auto)]

mod fault;
mod reading;
mod table;

pub use fault::TableFault;
pub use table::FragTable;
