//! What crosses between the kernel and a driver: the words of an operation are copied in, the words of an answer
//! copied out, and the arguments of a kernel call checked.
#![tactic(auto)]

mod check;
mod copy;

pub use check::check_service;
pub use copy::{Args, copy_in, copy_out};
