//! Tests of the crates of records and of the script language, a module of them for each crate.
#![tactic(auto)]

#[cfg(test)]
mod answers;
#[cfg(test)]
mod chronicles;
#[cfg(test)]
mod vectors;
