//! Definitions of the promises: the contract of a class, the never-failing device, traces, losses, the licence
//! of the shadow, and isolation.
#![tactic(auto)]
