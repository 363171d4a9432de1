//! Tests of the crates at the bottom, a module of them for each subject.
#![tactic(auto)]

#[cfg(test)]
mod buffers;
#[cfg(test)]
mod devices;
#[cfg(test)]
mod digests;
#[cfg(test)]
mod documents;
#[cfg(test)]
mod entries;
#[cfg(test)]
mod files;
#[cfg(test)]
mod keys;
#[cfg(test)]
mod making;
#[cfg(test)]
mod plans;
#[cfg(test)]
mod streams;
#[cfg(test)]
mod tables;
