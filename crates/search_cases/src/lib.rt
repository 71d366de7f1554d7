//! A search over a simulation in which nothing can happen: it shows that the requirements of a search can be met.
#![tactic(auto)]

mod still;
