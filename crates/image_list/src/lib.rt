//! The listing of an assembler text: each word with its address and the line that made it, the labels and the entries.
#![tactic(auto)]

mod laws;
mod listing;

pub use laws::{every_word_is_listed, faults_are_the_assemblers};
pub use listing::write_list;
