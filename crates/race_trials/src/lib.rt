//! Tests of reads that race a lock's holder, and of the eyes by which they read.
#![tactic(auto)]

#[cfg(test)]
mod eyes;
#[cfg(test)]
mod races;
