//! Definitions of whole runs: the schedule, the simulation of a scenario, and the generated scenarios.
#![tactic(auto)]
