//! Tests of the top call, over streams and devices that fail.
#![tactic(auto)]

#[cfg(test)]
mod tests;
#[cfg(test)]
mod workers;
