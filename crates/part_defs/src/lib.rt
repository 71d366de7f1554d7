//! Definitions of a part: its log, its domain, its stages, its steps and its runs.
#![tactic(auto)]
