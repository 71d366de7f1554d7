//! The laws of parts: theorems over the definitions alone, for every part, every list of steps and every fault.
//!
//! Each law is the contract of a public function with an empty body: it holds for all arguments, no matter who made
//! them. The proofs also contain the facts that code cites when it takes a part's steps.
#![tactic(auto)]

pub mod bounds;
pub mod bursts;
pub mod devices;
pub mod loans;
pub mod recovery;
pub mod steps;
