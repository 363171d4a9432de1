//! The actors of a run, numbered in the order of their first steps, and what each of them has.
#![tactic(auto)]

mod slots;
mod table;

pub use table::Actors;
