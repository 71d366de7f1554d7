//! Where the next words go, and how a line changes that.

ghost use Rattle.std.specs.Prelude.{◌≡◌, ◌<◌, ◌^◌, ◌+◌, ◌≤◌, ℕ, Result};
ghost use Rattle.asm_defs.specs.Assembler.{first_cursor, one_word, address_in, cursor_after};
ghost use Rattle.asm_defs.specs.Views.Assembling.{next_line};

use asm_defs::assembler::{AsmKind, Section, Statement};
use nook_data::memory_map::DATA_START;
use std::marker::Model;

/// Where the next words go: the line, its section, and how many words each section has so far.
#[derive(Drop)]
pub struct NextAddresses {
    line: u64,
    in_section: Section,
    text: u64,
    initial: u64,
}

impl Model for NextAddresses {
    ghost use Rattle.asm_defs.specs.Assembler.{Cursor};

    ghost Value = { Cursor };

    ghost view = { λ s. record {
      line = s.line;
      in_section = s.in_section;
      text = s.text;
      initial = s.initial;
    } };
}

impl NextAddresses {
    /// The state at the first line.
    pub fn new() -> NextAddresses
        ensures { result ≡ first_cursor }
    {
        NextAddresses {
            line: 1,
            in_section: Section::Text,
            text: 0,
            initial: 0,
        }
    }

    /// The line, counted from 1.
    pub fn line(&self) -> u64
        ensures { result ≡ self.now.line }
    {
        self.line
    }

    /// The section.
    pub fn section(&self) -> Section
        ensures { result ≡ self.now.in_section }
    {
        self.in_section
    }

    /// The address of the next word; initial words follow the 2,048 words of the text.
    pub fn address(&self) -> u64
        requires { self.now.initial < 2 ^ 63 }
        ensures { result ≡ address_in self.now.in_section self.now }
    {
        match self.in_section {
            Section::Text => self.text,
            Section::Data => u64::from(DATA_START) + self.initial,
        }
    }

    /// The state after a line that says this, or has an error.
    pub fn after(self, says: Result<Statement, AsmKind>) -> NextAddresses
        requires line { self.line < 2 ^ 63 }
        requires text { self.text < 2 ^ 63 }
        requires initial { self.initial < 2 ^ 63 }
        ensures { result ≡ next_line (cursor_after says self) }
    {
        match says {
            Ok(Statement::Section(in_section)) => NextAddresses { in_section, ..self }.next_line(),
            Ok(Statement::Word(_) | Statement::Instr(..)) => self.one_word().next_line(),
            _ => self.next_line(),
        }
    }

    /// The state after one more word in the section.
    fn one_word(self) -> NextAddresses
        requires text { self.text < 2 ^ 63 }
        requires initial { self.initial < 2 ^ 63 }
        ensures { result ≡ one_word self.in_section self }
    {
        match self.in_section {
            Section::Text => NextAddresses {
                text: self.text + 1,
                ..self
            },
            Section::Data => NextAddresses {
                initial: self.initial + 1,
                ..self
            },
        }
    }

    /// The state one line further.
    fn next_line(self) -> NextAddresses
        requires { self.line < 2 ^ 63 }
        ensures { result ≡ next_line self }
    {
        NextAddresses {
            line: self.line + 1,
            ..self
        }
    }
}
