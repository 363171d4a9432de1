//! Tests of the lock, by the callers of `lock_trials`.
#![tactic(auto)]

#[cfg(test)]
mod threads;
