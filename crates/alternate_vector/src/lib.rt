//! The alternates of an object: which stored response answers a request, and how they are kept.
#![tactic(auto)]

mod alternate;
mod fault;
mod fields;
mod matching;
mod reading;
mod sizes;
mod vector;
mod writing;

pub use alternate::{Alternate, matches};
pub use fault::{FieldFault, VectorFault};
pub use fields::Fields;
pub use matching::request_matches;
pub use sizes::fields_size;
pub use vector::Vector;
