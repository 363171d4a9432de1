//! The top call of the program, which picks the cache.
#![tactic(auto)]

mod blank;
mod top;

pub use blank::Blank;
pub use top::{Cache, cache_main};
