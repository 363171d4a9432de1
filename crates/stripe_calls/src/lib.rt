//! A stripe is called as a cache is.
#![tactic(auto)]

mod begins;
mod cache;
mod powered;
mod seam;

pub use cache::StripeCache;
