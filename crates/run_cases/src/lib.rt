//! What contracts do not say about runs and their texts: the tests of `part_core`, `request_taps`, `scenario_write` and
//! `turn_trace`, in a separate crate.
#![tactic(auto)]

#[cfg(test)]
mod calling_tests;
#[cfg(test)]
mod listening_tests;
#[cfg(test)]
mod turning_tests;
#[cfg(test)]
mod writing_tests;
