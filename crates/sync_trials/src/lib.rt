//! Trials of a sync: the power is cut behind each call, and each call fails once.
#![tactic(auto)]

#[cfg(test)]
mod cuts;
#[cfg(test)]
mod devices;
#[cfg(test)]
mod restarts;
#[cfg(test)]
mod stripes;
#[cfg(test)]
mod syncing;
#[cfg(test)]
mod trials;
#[cfg(test)]
mod wholes;
