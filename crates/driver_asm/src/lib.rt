//! The assembler and the disassembler of driver programs.
//!
//! A text is read in two passes over its lines: the first finds the labels, the second makes the image.
#![tactic(auto)]

mod directives;
mod draft;
mod entries;
mod error;
mod json;
mod labels;
mod line;
mod listed;
mod mnemonics;
mod operands;
mod passes;
mod pieces;
mod statements;
mod texts;
mod tokens;

pub use error::AsmError;
pub use json::{image_value, push_digits, write_image};
pub use listed::{Listed, assemble_listed};
pub use passes::assemble;
pub use texts::{disassemble, push_text_word, push_word, word_text};
