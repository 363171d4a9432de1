//! Tests of a stripe through its calls, over parts that tell what was asked of them.
#![tactic(auto)]

#[cfg(test)]
mod counting;
#[cfg(test)]
mod objects;
#[cfg(test)]
mod tests;
