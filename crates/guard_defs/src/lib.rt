//! Definitions of a guard: before a deed of a driver would break a clause of its class's contract, the kernel stops the
//! driver with a trap, and the part recovers as from any other failure. A guarded run is the run of the same parts with
//! these traps added after their own faults.
#![tactic(auto)]

pub mod stop;
