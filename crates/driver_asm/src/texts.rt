//! The assembler text of an image.

ghost use Rattle.std.specs.Prelude.{◌≡◌, ◌∷◌, ◌++◌, [], codes, decimal, flat_map, map, IfOk, OnOk, Ok, string_bytes};
ghost use Rattle.asm_defs.specs.AsmTokens.{register_text};
ghost use Rattle.asm_defs.specs.Disassembler.{disassembled, entry_lines, image_lines, initial_lines, line_body};
ghost use Rattle.asm_defs.specs.Disassembler.{line_text, operand_tokens, text_tokens, word_tokens};
ghost use Rattle.asm_defs.specs.Views.Assembling.{class_tokens, instr_tokens, later_token};
ghost use Rattle.asm_defs.specs.Assembler.{assembled};
ghost use Rattle.nook_data.specs.Valid.{IsValidImage};
ghost use Rattle.asm_defs.specs.Keys.{entry_keys};
ghost use Rattle.machine_defs.specs.Mnemonics.{fields_of};

use crate::directives::{Directive, directive_text};
use crate::mnemonics::{form_of, mnemonic_text};
use asm_defs::keys::{Key, entry_keys, key_text};
use driver_isa::decode;
use driver_isa::instructions::{Fields, fields_of};
use nook_data::classes::{Class, class_text};
use nook_data::lists::{Word, Words8};
use nook_data::machine::{Form, Instr};
use nook_data::memory::NoMemory;
use nook_data::scenario::Image;
use std::alloc::Global;
use std::fmt::Write;

/// The assembler text of an image: its class, its entries in the class's order, a line for each text word, and, if
/// there are initial words, `.data` and a line for each. The text of a valid image assembles to that image.
///
/// # Errors
///
/// If memory runs out.
pub fn disassemble(alloc: Global, image: &Image) -> Result<Words8, NoMemory>
    ensures text { IfOk result (λ text. text ≡ disassembled image.now) }
    ensures back { IsValidImage image.now → IfOk result (λ text. assembled text ≡ Ok image.now) }
{
    let text = text_of(alloc, image)?;
    Ok(Words8::from_vec(text.into_bytes()))
}

/// The text of an image.
#[tactic(auto, unfolding(asm_defs::specs::Disassembler::disassembled, asm_defs::specs::Disassembler::image_lines))]
fn text_of(alloc: Global, image: &Image) -> Result<String, NoMemory>
    ensures { IfOk result (λ text. string_bytes text ≡ disassembled image.now) }
{
    let mut text = String::new(alloc);
    push_class(&mut text, image.class)?;
    push_entries(&mut text, entry_keys(image.class), image.entries.as_slice())?;
    push_text_words(&mut text, image.text.as_slice())?;
    push_initial_words(&mut text, image.initial.as_slice())?;
    Ok(text)
}

/// Adds the line of the class.
fn push_class(text: &mut String, class: Class) -> Result<(), NoMemory>
    ensures { OnOk result
        (string_bytes text.new ≡ string_bytes text.old ++ line_text (class_tokens class)) }
{
    text.push_str(directive_text(Directive::Class))?;
    push_token(text, class_text(class))?;
    text.push_str("\n")?;
    Ok(())
}

/// Adds a token after another.
fn push_token(text: &mut String, token: &str) -> Result<(), NoMemory>
    ensures { OnOk result (string_bytes text.new ≡ string_bytes text.old ++ later_token token.now) }
{
    text.push_str(" ")?;
    text.push_str(token)?;
    Ok(())
}

/// Adds a number after a token.
fn push_number(text: &mut String, number: u32) -> Result<(), NoMemory>
    ensures { OnOk result
        (string_bytes text.new ≡ string_bytes text.old ++ later_token (decimal number)) }
{
    write!(text, " {number}")?;
    Ok(())
}

/// Adds a register after a token.
fn push_register(text: &mut String, register: u8) -> Result<(), NoMemory>
    ensures { OnOk result
        (string_bytes text.new ≡ string_bytes text.old ++ later_token (register_text register)) }
{
    write!(text, " r{register}")?;
    Ok(())
}

/// Adds the lines of the entries.
#[tactic(auto, using(crate::proofs::EntryLines::no_numbers))]
fn push_entries(text: &mut String, entries: &[Key], addresses: &[Word]) -> Result<(), NoMemory>
    ensures { OnOk result (string_bytes text.new
        ≡ string_bytes text.old ++ flat_map line_text (entry_lines entries.now addresses.now)) }
{
    let mut rest = addresses;
    for entry in entries {
        match rest.split_first() {
            Some((address, more)) => {
                push_entry(text, key_text(*entry), *address)?;
                rest = more;
            }
            None => return Ok(()),
        }
    }
    Ok(())
}

/// Adds the line of an entry.
fn push_entry(text: &mut String, name: &str, address: Word) -> Result<(), NoMemory>
    ensures { OnOk result (string_bytes text.new
        ≡ string_bytes text.old ++ line_text (codes ".entry" ∷ name.now ∷ decimal address ∷ [])) }
{
    text.push_str(directive_text(Directive::Entry))?;
    push_token(text, name)?;
    push_number(text, address)?;
    text.push_str("\n")?;
    Ok(())
}

/// Adds a line for each text word.
fn push_text_words(text: &mut String, words: &[Word]) -> Result<(), NoMemory>
    ensures { OnOk result (string_bytes text.new
        ≡ string_bytes text.old ++ flat_map line_text (map text_tokens words.now)) }
{
    for word in words {
        push_text_word(text, *word)?;
    }
    Ok(())
}

/// The text of one text word as in its line, without the line feed: its instruction, or `.word` and the number if it is
/// no instruction.
///
/// # Errors
///
/// If memory runs out.
pub fn word_text(alloc: Global, word: Word) -> Result<String, NoMemory>
    ensures { IfOk result (λ text. string_bytes text ≡ line_body (text_tokens word)) }
{
    let mut text = String::new(alloc);
    match decode(word) {
        Some(instr) => push_instr_body(&mut text, instr)?,
        None => push_word_body(&mut text, word)?,
    }
    Ok(text)
}

/// Adds the line of a text word: its instruction, or the number if it is no instruction.
///
/// # Errors
///
/// If memory runs out.
pub fn push_text_word(text: &mut String, word: Word) -> Result<(), NoMemory>
    ensures { OnOk result
        (string_bytes text.new ≡ string_bytes text.old ++ line_text (text_tokens word)) }
{
    match decode(word) {
        Some(instr) => push_instr(text, instr),
        None => push_word(text, word),
    }
}

/// Adds the line of an instruction.
fn push_instr(text: &mut String, instr: Instr) -> Result<(), NoMemory>
    ensures { OnOk result (string_bytes text.new
        ≡ string_bytes text.old ++ line_text (instr_tokens (fields_of instr))) }
{
    push_instr_body(text, instr)?;
    text.push_str("\n")?;
    Ok(())
}

/// Adds an instruction without a line feed.
fn push_instr_body(text: &mut String, instr: Instr) -> Result<(), NoMemory>
    ensures { OnOk result (string_bytes text.new
        ≡ string_bytes text.old ++ line_body (instr_tokens (fields_of instr))) }
{
    let fields = fields_of(instr);
    text.push_str(mnemonic_text(fields.mnemonic))?;
    push_operands(text, form_of(fields.mnemonic), &fields)
}

/// Adds the operands of a form, each after a token.
fn push_operands(text: &mut String, which: Form, fields: &Fields) -> Result<(), NoMemory>
    ensures { OnOk result (string_bytes text.new
        ≡ string_bytes text.old ++ flat_map later_token (operand_tokens which fields.now)) }
{
    match which {
        Form::Bare => Ok(()),
        Form::A => push_register(text, fields.a),
        Form::Imm => push_number(text, u32::from(fields.imm)),
        Form::AB => push_registers(text, fields),
        Form::AImm => {
            push_register(text, fields.a)?;
            push_number(text, u32::from(fields.imm))
        }
        Form::ABImm => {
            push_registers(text, fields)?;
            push_number(text, u32::from(fields.imm))
        }
    }
}

/// Adds both registers.
fn push_registers(text: &mut String, fields: &Fields) -> Result<(), NoMemory>
    ensures { OnOk result (string_bytes text.new
        ≡ string_bytes text.old
        ++ flat_map later_token (register_text fields.now.a ∷ register_text fields.now.b
        ∷ [])) }
{
    push_register(text, fields.a)?;
    push_register(text, fields.b)
}

/// Adds the line of a word that is a number.
///
/// # Errors
///
/// If memory runs out.
pub fn push_word(text: &mut String, word: Word) -> Result<(), NoMemory>
    ensures { OnOk result
        (string_bytes text.new ≡ string_bytes text.old ++ line_text (word_tokens word)) }
{
    push_word_body(text, word)?;
    text.push_str("\n")?;
    Ok(())
}

/// Adds a word that is a number, without a line feed.
fn push_word_body(text: &mut String, word: Word) -> Result<(), NoMemory>
    ensures { OnOk result
        (string_bytes text.new ≡ string_bytes text.old ++ line_body (word_tokens word)) }
{
    text.push_str(directive_text(Directive::Word))?;
    push_number(text, word)
}

/// Adds the lines of the initial words, if there are any.
fn push_initial_words(text: &mut String, words: &[Word]) -> Result<(), NoMemory>
    ensures { OnOk result (string_bytes text.new
        ≡ string_bytes text.old ++ flat_map line_text (initial_lines words.now)) }
{
    if words.is_empty() {
        return Ok(());
    }
    text.push_str(directive_text(Directive::Data))?;
    text.push_str("\n")?;
    push_words(text, words)
}

/// Adds a line for each word.
fn push_words(text: &mut String, words: &[Word]) -> Result<(), NoMemory>
    ensures { OnOk result (string_bytes text.new
        ≡ string_bytes text.old ++ flat_map line_text (map word_tokens words.now)) }
{
    for word in words {
        push_word(text, *word)?;
    }
    Ok(())
}
