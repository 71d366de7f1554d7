//! Worked cases of the definitions: each function has an empty body, and its contract is a case, computed in the logic.
#![tactic(auto)]

pub mod assembling;
pub mod clauses;
pub mod fronts;
pub mod guarded;
pub mod inputs;
pub mod machine;
pub mod recovered;
pub mod runs;
pub mod tables;
pub mod traces;
