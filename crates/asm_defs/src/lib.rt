//! Definitions of a driver's texts: the assembler's language, and images as JSON.
#![tactic(auto)]

pub mod assembler;
pub mod keys;
