//! Laws of reading: what is read is within every limit, and what is written reads back. They are theorems over the
//! definitions alone.
//!
//! Each law is the contract of a public function with an empty body. It holds for all arguments, no matter who supplies
//! them.
#![tactic(auto)]

pub mod limits;
pub mod texts;
