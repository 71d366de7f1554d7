//! All names of the definitions and the plain data in one crate. The other crates of the repository import directly
//! the crates that they use, so that after a change only what refers to it is proved again.
#![tactic(auto)]

pub use asm_defs::{assembler, keys};
pub use input_defs::input;
pub use nook_data::{
    answers, calls, campaign, classes, clause, desks, devices, entries, journal, limits, lists,
    machine, memory, memory_map, mirror, name, ring, rx_front, scenario, steps, verdicts,
};
pub use nook_io::{listeners, outside, standard_streams, streams_in_memory, whole};
