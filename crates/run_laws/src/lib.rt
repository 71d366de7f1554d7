//! The laws of runs, and of the reports on them: theorems over the definitions alone.
//!
//! Each law is the contract of a public function with an empty body: what it promises holds of all arguments, however
//! they were made.
#![tactic(auto)]

pub mod answers;
pub mod audits;
pub mod frames;
