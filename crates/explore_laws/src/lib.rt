//! The laws of every order of steps: theorems over the definitions alone.
//!
//! Each law is the contract of a public function with an empty body: what it promises holds for all its arguments,
//! no matter where they come from.
#![tactic(auto)]

pub mod cases;
pub mod merging;
pub mod orders;
pub mod presents;
pub mod rows;
