//! What one part of a scenario can do to the others.
//!
//! Each law is the contract of a public function with an empty body: what it promises holds for all its arguments,
//! no matter where they come from.
#![tactic(auto)]

pub mod containment;
