//! The laws of one run of several parts: theorems over the definitions alone.
//!
//! Each law is the contract of a public function with an empty body: what it promises holds of all arguments, however
//! they were made.
#![tactic(auto)]

pub mod audits;
pub mod cases;
pub mod orders;
pub mod schedules;
