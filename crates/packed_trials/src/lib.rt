//! Tests of the packed directory beside the plain one, with callers that are proved for any directory.
#![tactic(auto)]

#[cfg(test)]
mod driving;
#[cfg(test)]
mod images;
#[cfg(test)]
mod lookups;
#[cfg(test)]
mod tables;
#[cfg(test)]
mod taped;
#[cfg(test)]
mod tests;
#[cfg(test)]
mod walks;
