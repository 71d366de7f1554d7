//! The program `nooks` as one call, [`run`], over its arguments, a source and a sink.
//!
//! Another program links this crate and passes in its own source, sink, listeners and gate. The call does what the
//! program does over standard input and output, and returns a [`Status`] that says how it ended.
#![tactic(auto)]

mod answering;
mod auditing;
mod exploring;
mod generating;
mod guarding;
mod heard;
mod listing;
mod mirroring;
mod program;
mod simulated;
mod texts;
mod tracing;
mod waiting;

pub use command_forms::{Form, form_of};
pub use journal_audit::own_listeners;
pub use program::{AUDIT_LIMIT, LIMIT, Status, run, run_alone, run_alone_plain, run_plain};
