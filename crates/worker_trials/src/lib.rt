//! Tests of workers that share a lock.
#![tactic(auto)]

#[cfg(test)]
mod gates;
