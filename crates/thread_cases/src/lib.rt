//! Threads that take turns: the test of `turn_lock`, in a separate crate.
#![tactic(auto)]

#[cfg(test)]
mod turn_lock_tests;
