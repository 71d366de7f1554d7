//! The program with failing sources and sinks, listeners and gates: what no file outside can show. Its runs with
//! texts as input are in checks/runs.
#![tactic(auto)]

#[cfg(test)]
mod failing_tests;
#[cfg(test)]
mod inputs;
#[cfg(test)]
mod running;
#[cfg(test)]
mod thread_tests;
