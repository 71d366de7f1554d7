//! The report of a run: its lines, its summary, and how it is written into a sink.
#![tactic(auto)]

mod left;
mod line;
mod pieces;
mod summary;
mod whole_text;
mod write;

pub use left::{push_answers, push_left};
pub use line::Line;
pub use pieces::{push_acts_tail, push_cause, push_number, push_outcome};
pub use summary::{Summary, write_summary};
pub use whole_text::{write_ending_text, write_final, write_mirror_report, write_report};
pub use write::{WriteStop, event_line, write_part_line, write_text, write_threads};
