//! The lines of a listing.

ghost use Rattle.std.specs.Prelude.{◌≡◌, ◌≤◌, ◌++◌, ◌∷◌, [], IfOk, OnOk, decimal, flat_map, map, string_bytes};
ghost use Rattle.asm_defs.specs.Disassembler.{line_text};
ghost use Rattle.asm_defs.specs.Keys.{key_text};
ghost use Rattle.asm_defs.specs.Views.Assembling.{later_token};
ghost use Rattle.driver_asm.specs.Answers.{Gives};
ghost use Rattle.image_list.specs.ListText.{entry_tokens, label_tokens, list_lines, list_text, listed_entries};
ghost use Rattle.image_list.specs.ListText.{named_entries, row_tokens, rows_from, word_says};

use asm_defs::assembler::{Label, Section};
use asm_defs::keys::{Key, entry_keys, key_text};
use driver_asm::{AsmError, Listed, assemble_listed, push_digits, push_text_word, push_word};
use itoa::Buffer;
use nook_data::lists::{Word, Words8};
use nook_data::memory::NoMemory;
use nook_data::memory_map::DATA_START;
use nook_data::scenario::Image;
use std::alloc::Global;
use std::fmt::Write;

/// The listing of an assembler text. It has a line for each text word and each initial word with its address, its eight
/// hexadecimal digits, the number of the line that made it and what it says. After these come a line for each label, in
/// the order of their definitions, and one for each entry, in the class's order.
///
/// # Errors
///
/// `Bad` with the error of assembling the text. `NoMemory` if an allocation fails.
#[tactic(auto, unfolding(crate::specs::ListText::list_text))]
pub fn write_list(alloc: Global, text: &[u8]) -> Result<Words8, AsmError>
    ensures { Gives result (list_text text.now) }
{
    let listed = assemble_listed(alloc, text)?;
    Ok(text_of(alloc, &listed)?)
}

/// The text of a listing.
#[tactic(auto, unfolding(crate::specs::ListText::list_lines))]
fn text_of(alloc: Global, listed: &Listed) -> Result<Words8, NoMemory>
    ensures { IfOk result (λ text. text ≡ flat_map line_text (list_lines listed.now)) }
{
    let mut text = rows_of(alloc, listed)?.into_bytes();
    push_labels(&mut text, listed.labels.as_slice())?;
    push_entries(&mut text, &listed.image)?;
    Ok(Words8::from_vec(text))
}

/// A line for each word.
fn rows_of(alloc: Global, listed: &Listed) -> Result<String, NoMemory>
    ensures { IfOk result (λ text. string_bytes text
        ≡ flat_map line_text
        (map (row_tokens Section.Text) (rows_from 0 listed.now.image.text listed.now.text_lines))
        ++ flat_map line_text (map (row_tokens Section.Data)
        (rows_from DATA_START listed.now.image.initial listed.now.initial_lines))) }
{
    let mut text = String::new(alloc);
    let image = &listed.image;
    push_rows(
        &mut text,
        Section::Text,
        0,
        image.text.as_slice(),
        listed.text_lines.as_slice(),
    )?;
    push_rows(
        &mut text,
        Section::Data,
        u64::from(DATA_START),
        image.initial.as_slice(),
        listed.initial_lines.as_slice(),
    )?;
    Ok(text)
}

/// Adds a line for each word of a section, from an address on.
#[tactic(auto, using(crate::proofs::Rows::no_lines))]
fn push_rows(
    text: &mut String,
    section: Section,
    first: u64,
    words: &[Word],
    lines: &[u64],
) -> Result<(), NoMemory>
    requires { first ≤ DATA_START }
    ensures { OnOk result (string_bytes text.new
        ≡ string_bytes text.old ++ flat_map line_text
        (map (row_tokens section) (rows_from first words.now lines.now))) }
{
    let mut address = first;
    let mut rest = lines;
    for word in words {
        match rest.split_first() {
            Some((line, more)) => {
                push_row(text, section, address, *word, *line)?;
                address += 1;
                rest = more;
            }
            None => return Ok(()),
        }
    }
    Ok(())
}

/// Adds the line of a word.
fn push_row(
    text: &mut String,
    section: Section,
    address: u64,
    word: Word,
    line: u64,
) -> Result<(), NoMemory>
    ensures { OnOk result (string_bytes text.new
        ≡ string_bytes text.old
        ++ line_text (row_tokens section
        (record { address = address; word = word; line = line }))) }
{
    write!(text, "{address} ")?;
    push_digits(text, 8, word)?;
    write!(text, " {line} ")?;
    push_says(text, section, word)?;
    Ok(())
}

/// Adds what a word of a section says, and the line's end.
fn push_says(text: &mut String, section: Section, word: Word) -> Result<(), NoMemory>
    ensures { OnOk result
        (string_bytes text.new ≡ string_bytes text.old ++ line_text (word_says section word)) }
{
    match section {
        Section::Text => push_text_word(text, word),
        Section::Data => push_word(text, word),
    }
}

/// Adds a line for each label.
fn push_labels(text: &mut Vec<u8>, labels: &[Label]) -> Result<(), NoMemory>
    ensures { OnOk result
        (text.new.items ≡ text.old.items ++ flat_map line_text (map label_tokens labels.now)) }
{
    for label in labels {
        push_label(text, label)?;
    }
    Ok(())
}

/// Adds the line of a label.
fn push_label(text: &mut Vec<u8>, label: &Label) -> Result<(), NoMemory>
    ensures { OnOk result (text.new.items ≡ text.old.items ++ line_text (label_tokens label.now)) }
{
    text.extend_from_slice(b"label ")?;
    text.extend_from_slice(label.name.as_slice())?;
    push_last_number(text, label.address)
}

/// Adds a line for each entry of an image.
fn push_entries(text: &mut Vec<u8>, image: &Image) -> Result<(), NoMemory>
    ensures { OnOk result
        (text.new.items ≡ text.old.items ++ flat_map line_text (listed_entries image.now)) }
{
    push_addresses(text, entry_keys(image.class), image.entries.as_slice())
}

/// Adds a line for each of some entries and its address.
#[tactic(auto, using(crate::proofs::Rows::no_addresses))]
fn push_addresses(text: &mut Vec<u8>, entries: &[Key], addresses: &[Word]) -> Result<(), NoMemory>
    ensures { OnOk result (text.new.items ≡ text.old.items
        ++ flat_map line_text (named_entries (map key_text entries.now) addresses.now)) }
{
    let mut rest = addresses;
    for entry in entries {
        match rest.split_first() {
            Some((address, more)) => {
                push_entry(text, key_text(*entry), *address)?;
                rest = more;
            }
            None => return Ok(()),
        }
    }
    Ok(())
}

/// Adds the line of an entry.
fn push_entry(text: &mut Vec<u8>, name: &str, address: Word) -> Result<(), NoMemory>
    ensures { OnOk result
        (text.new.items ≡ text.old.items ++ line_text (entry_tokens name.now address)) }
{
    text.extend_from_slice(b"entry ")?;
    text.extend_from_slice(name.as_bytes())?;
    push_last_number(text, u64::from(address))
}

/// Adds the number that ends a line.
fn push_last_number(text: &mut Vec<u8>, number: u64) -> Result<(), NoMemory>
    ensures { OnOk result
        (text.new.items ≡ text.old.items ++ (later_token (decimal number) ++ 10 ∷ [])) }
{
    let mut digits = Buffer::new();
    text.push(b' ')?;
    text.extend_from_slice(digits.format(number).as_bytes())?;
    text.push(b'\n')?;
    Ok(())
}
