//! The draft of the second pass: what the lines so far give.

ghost use Rattle.std.specs.Prelude.{◌≡◌, ◌-◌, ◌<◌, ◌≤◌, [], ◌∷◌, ◌++◌, ◌||◌, IfOk, IfSome, Ok, true, false, length};
ghost use Rattle.std.specs.Prelude.{slice_get};
ghost use Rattle.asm_defs.specs.AsmLines.{definition_of, first_of};
ghost use Rattle.asm_defs.specs.Assembler.{all_given, draft_after, is_above, first_draft, image_with, is_out_of_range};
ghost use Rattle.asm_defs.specs.Assembler.{is_second_given, is_second_label, known, with_statement, with_word};
ghost use Rattle.asm_defs.specs.Views.Assembling.{is_given, with_class};
ghost use Rattle.driver_asm.specs.Answers.{Takes};
ghost use Rattle.driver_asm.specs.Lexing.{has_registers};

use crate::error::LineStop;
use crate::labels::LabelTable;
use crate::statements::{definition_of, line_says};
use crate::tokens::Token;
use asm_defs::assembler::{AsmKind, Operands, Section, Statement, Value};
use asm_defs::keys::entry_keys;
use driver_isa::encode;
use driver_isa::instructions::instr_with;
use nook_data::classes::Class;
use nook_data::lists::{Word, Words};
use nook_data::memory::NoMemory;
use nook_data::memory_map::{DATA_WORDS, TEXT_WORDS};
use nook_data::scenario::Image;
use std::alloc::Global;
use std::marker::Model;

/// What the lines so far give. `entries` has an item for each entry of the class.
#[derive(Drop)]
pub struct Draft {
    class: Option<Class>,
    entries: Vec<Option<Word>>,
    in_section: Section,
    text: Words,
    initial: Words,
}

impl Model for Draft {
    ghost use Rattle.asm_defs.specs.Assembler as specs;

    ghost Value = { specs.Draft };

    ghost view = { λ s. record {
      class = s.class;
      entries = s.entries.items;
      in_section = s.in_section;
      text = s.text;
      initial = s.initial;
    } };
}

impl Draft {
    /// Nothing is given yet, and the section is the text. This allocates no memory.
    pub fn new(alloc: Global) -> Draft
        ensures { result ≡ first_draft }
    {
        Draft {
            class: None,
            entries: Vec::new(alloc),
            in_section: Section::Text,
            text: Words::new(alloc),
            initial: Words::new(alloc),
        }
    }

    /// The number of text words.
    pub fn text_len(&self) -> usize
        ensures { result ≡ length self.now.text }
    {
        self.text.len()
    }

    /// The number of initial words.
    pub fn initial_len(&self) -> usize
        ensures { result ≡ length self.now.initial }
    {
        self.initial.len()
    }

    /// The draft after a line, or the line's smallest kind of error.
    #[tactic(auto, unfolding(asm_defs::specs::Assembler::draft_after))]
    pub fn after(
        self,
        alloc: Global,
        labels: &LabelTable,
        line: u64,
        tokens: &[Token],
    ) -> Result<Draft, LineStop>
        ensures { Takes result (draft_after (first_of labels.now) line tokens.now self) }
    {
        let says = line_says(labels, self.class, self.in_section, tokens)?;
        if is_out_of_range(says) {
            return Err(LineStop::Bad(AsmKind::NumberRange));
        }
        if is_second_label(labels, line, tokens) || self.is_second_given(says) {
            return Err(LineStop::Bad(AsmKind::DoubleLabel));
        }
        self.with_statement(alloc, says)
    }

    /// Whether the class or the entry was given before.
    fn is_second_given(&self, says: Statement) -> bool
        ensures { result ≡ is_second_given self.now says }
    {
        match says {
            Statement::Class(_) => self.class.is_some(),
            Statement::Entry { index, .. } => self.is_given(index),
            _ => false,
        }
    }

    /// Whether there is an entry with this index and it has its value.
    fn is_given(&self, index: u32) -> bool
        ensures { result ≡ is_given (slice_get self.now.entries index) }
    {
        match self.entries.get(index as usize) {
            Some(entry) => entry.is_some(),
            None => false,
        }
    }

    /// The draft after a statement whose numbers are in range.
    fn with_statement(self, alloc: Global, says: Statement) -> Result<Draft, LineStop>
        requires range { is_out_of_range says ≡ false }
        requires registers { has_registers says ≡ true }
        ensures { Takes result (with_statement says self) }
    {
        match says {
            Statement::Nothing => Ok(self),
            Statement::Class(class) => Ok(self.with_class(alloc, class)?),
            Statement::Entry { index, value } => self.with_entry(index, value),
            Statement::Section(in_section) => Ok(Draft { in_section, ..self }),
            Statement::Word(value) => {
                let word = known(value)?;
                self.with_word(word as u32)
            }
            Statement::Instr(mnemonic, operands) => {
                let imm = known(operands.imm)?;
                let instr = instr_with(mnemonic, operands.a, operands.b, imm as u16);
                self.with_word(encode(instr))
            }
        }
    }

    /// The draft with its class, and none of its entries given.
    fn with_class(self, alloc: Global, class: Class) -> Result<Draft, NoMemory>
        ensures { IfOk result (λ made. made ≡ with_class class self) }
    {
        let entries = vec![in alloc; None; entry_keys(class).len()]?;
        Ok(Draft {
            class: Some(class),
            entries,
            ..self
        })
    }

    /// The draft with the value of an entry, which is in range.
    fn with_entry(self, index: u32, value: Value) -> Result<Draft, LineStop>
        requires { is_above (TEXT_WORDS - 1) value ≡ false }
        ensures { Takes result (with_statement (Statement.Entry index value) self) }
    {
        let number = known(value)?;
        let mut entries = self.entries;
        if (index as usize) < entries.len() {
            entries[index as usize] = Some(number as u32);
        }
        Ok(Draft { entries, ..self })
    }

    /// The draft with one more word in its section.
    fn with_word(self, word: Word) -> Result<Draft, LineStop>
        ensures { Takes result (with_word self.in_section word self) }
    {
        match self.in_section {
            Section::Text => self.with_text_word(word),
            Section::Data => self.with_initial_word(word),
        }
    }

    /// The draft with one more text word.
    fn with_text_word(self, word: Word) -> Result<Draft, LineStop>
        ensures { Takes result (with_word Section.Text word self) }
    {
        if self.text.len() >= TEXT_WORDS as usize {
            return Err(LineStop::Bad(AsmKind::TextTooLong));
        }
        let mut text = self.text;
        text.push(word)?;
        Ok(Draft { text, ..self })
    }

    /// The draft with one more initial word.
    fn with_initial_word(self, word: Word) -> Result<Draft, LineStop>
        ensures { Takes result (with_word Section.Data word self) }
    {
        if self.initial.len() >= DATA_WORDS as usize {
            return Err(LineStop::Bad(AsmKind::DataTooLong));
        }
        let mut initial = self.initial;
        initial.push(word)?;
        Ok(Draft { initial, ..self })
    }

    /// The image of a draft that has a class and its entries.
    pub fn into_image(self, alloc: Global) -> Result<Image, LineStop>
        ensures { Takes result (image_with self.class (all_given self.entries) self) }
    {
        let entries = all_given(alloc, &self.entries)?;
        match (self.class, entries) {
            (Some(class), Some(entries)) => Ok(Image {
                class,
                entries,
                text: self.text,
                initial: self.initial,
            }),
            _ => Err(LineStop::Bad(AsmKind::MissingEntry)),
        }
    }
}

/// Whether a value is out of its range.
fn is_out_of_range(says: Statement) -> bool
    ensures { result ≡ is_out_of_range says }
{
    match says {
        Statement::Entry { value, .. } => is_above(u64::from(TEXT_WORDS) - 1, value),
        Statement::Word(value) => is_above(0xffff_ffff, value),
        Statement::Instr(_, Operands { imm, .. }) => is_above(0xffff, imm),
        _ => false,
    }
}

/// Whether a known value is above the most that is allowed.
fn is_above(most: u64, value: Value) -> bool
    ensures { result ≡ is_above most value }
{
    match value {
        Value::Known { number } => number > most,
        Value::Missing => false,
    }
}

/// Whether the line defines a name that another line defines first.
fn is_second_label(labels: &LabelTable, line: u64, tokens: &[Token]) -> bool
    ensures { result ≡ is_second_label (first_of labels.now) line (definition_of tokens.now) }
{
    match definition_of(tokens) {
        Some(name) => labels.is_other_line(name, line),
        None => false,
    }
}

/// The number of a value; its label must be defined.
fn known(value: Value) -> Result<u64, AsmKind>
    ensures { result ≡ known value }
{
    match value {
        Value::Known { number } => Ok(number),
        Value::Missing => Err(AsmKind::MissingLabel),
    }
}

/// The values, if all are given.
fn all_given(alloc: Global, entries: &[Option<Word>]) -> Result<Option<Words>, NoMemory>
    ensures { IfOk result (λ made. made ≡ all_given entries.now) }
{
    let mut given = Words::new(alloc);
    for entry in entries {
        match entry {
            Some(index) => given.push(*index)?,
            None => return Ok(None),
        }
    }
    Ok(Some(given))
}
