//! Definitions of one run of several parts: one clock over all parts' journals, and the order in which their events can
//! be taken.
#![tactic(auto)]
