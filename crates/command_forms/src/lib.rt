//! The subcommands that the program knows, including `--help` and `--version`.
#![tactic(auto)]

mod laws;
mod words;

pub use laws::words_are_of_one_form;
pub use words::{Form, WaitingForm, form_of, waiting_form_of};
