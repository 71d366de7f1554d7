//! Images as JSON.

ghost use Rattle.std.specs.Prelude.{◌≡◌, ◌<◌, ◌∷◌, ◌++◌, [], IfOk, OnOk, map, codes, string_bytes, false};
ghost use Rattle.std.specs.Fmt.{digit_glyph};
ghost use Rattle.serde_json.specs.Data.{array, member, no_members, object, string};
ghost use Rattle.serde_json.specs.View.{members_view, view};
ghost use Rattle.asm_defs.specs.ImageText.{entry_members, hex_text, image_data, image_text, word_items};
ghost use Rattle.asm_defs.specs.Keys.{entry_keys};
ghost use Rattle.driver_asm.specs.Names.{hex_data};

use asm_defs::keys::{Key, entry_keys, key_text};
use nook_data::classes::{Class, class_text};
use nook_data::lists::{Word, Words8};
use nook_data::memory::NoMemory;
use nook_data::scenario::Image;
use serde_json::{Map, Value, json, put};
use std::alloc::{AllocError, Global};
use std::fmt::Write;

/// The JSON text of an image in the compact form, with keys in byte order, words as eight lower-case digits, and a line
/// feed.
///
/// # Errors
///
/// If memory runs out.
#[tactic(auto, unfolding(asm_defs::specs::ImageText::image_text), using(crate::proofs::Floats::image_has_none))]
pub fn write_image(alloc: Global, image: &Image) -> Result<Words8, NoMemory>
    ensures { IfOk result (λ text. text ≡ image_text image.now) }
{
    let value = image_value(alloc, image)?;
    let mut text = value.to_vec(alloc)?;
    text.push(b'\n')?;
    Ok(Words8::from_vec(text))
}

/// An image as a JSON value, its keys in byte order and its words as eight lower-case digits.
///
/// # Errors
///
/// If memory runs out.
#[tactic(auto, unfolding(asm_defs::specs::ImageText::image_data))]
pub fn image_value(alloc: Global, image: &Image) -> Result<Value, NoMemory>
    ensures { IfOk result (λ value. view value ≡ image_data image.now) }
{
    let initial = words_value(alloc, image.initial.as_slice())?;
    let entries = entries_value(alloc, image.class, image.entries.as_slice())?;
    let text = words_value(alloc, image.text.as_slice())?;
    Ok(members(alloc, class_text(image.class), initial, entries, text)?)
}

/// The members of an image.
fn members(
    alloc: Global,
    class: &str,
    initial: Value,
    entries: Value,
    text: Value,
) -> Result<Value, AllocError>
    ensures { IfOk result (λ value. view value ≡ object (member (codes "class") (string class.now)
        (member (codes "data") (view initial)
        (member (codes "entries") (view entries)
        (member (codes "text") (view text) no_members))))) }
{
    let mut made = Map::new(alloc);
    put(
        &mut made,
        alloc,
        key_text(Key::Class),
        json!(in alloc; class)?,
    )?;
    put(&mut made, alloc, key_text(Key::Data), initial)?;
    put(&mut made, alloc, key_text(Key::Entries), entries)?;
    put(&mut made, alloc, key_text(Key::Text), text)?;
    Ok(Value::Object(made))
}

/// Words as strings of eight digits.
fn words_value(alloc: Global, words: &[Word]) -> Result<Value, NoMemory>
    ensures { IfOk result (λ value. view value ≡ array (word_items words.now)) }
{
    Ok(Value::Array(hex_values(alloc, words)?))
}

/// A string for each word.
fn hex_values(alloc: Global, words: &[Word]) -> Result<Vec<Value>, NoMemory>
    ensures { IfOk result (λ values. map view values.items ≡ map hex_data words.now) }
{
    let mut values = Vec::new(alloc);
    for word in words {
        values.push(hex_value(alloc, *word)?)?;
    }
    Ok(values)
}

/// The string of a word.
fn hex_value(alloc: Global, word: Word) -> Result<Value, NoMemory>
    ensures { IfOk result (λ value. view value ≡ hex_data word) }
{
    let mut text = String::new(alloc);
    push_digits(&mut text, 8, word)?;
    Ok(Value::String(text))
}

/// Adds the last hexadecimal digits of a word, in lower case.
///
/// # Errors
///
/// If memory runs out.
pub fn push_digits(text: &mut String, count: u32, word: Word) -> Result<(), NoMemory>
    ensures { OnOk result (string_bytes text.new ≡ string_bytes text.old ++ hex_text count word) }
{
    if count == 0 {
        return Ok(());
    }
    push_digits(text, count - 1, word / 16)?;
    push_digit(text, word % 16)
}

/// Adds a hexadecimal digit.
#[tactic(auto, using(std::proofs::lemmas::Fmt::hex_one_digit))]
fn push_digit(text: &mut String, digit: Word) -> Result<(), NoMemory>
    requires { digit < 16 }
    ensures { OnOk result
        (string_bytes text.new ≡ string_bytes text.old ++ digit_glyph false digit ∷ []) }
{
    write!(text, "{digit:x}")?;
    Ok(())
}

/// The entries and their addresses.
fn entries_value(alloc: Global, class: Class, addresses: &[Word]) -> Result<Value, NoMemory>
    ensures { IfOk result
        (λ value. view value ≡ object (entry_members (entry_keys class) addresses.now no_members)) }
{
    Ok(Value::Object(entries_at(alloc, entry_keys(class), addresses)?))
}

/// Some entries and their addresses.
fn entries_at(
    alloc: Global,
    entries: &[Key],
    addresses: &[Word],
) -> Result<Map<String, Value>, NoMemory>
    ensures { IfOk result
        (λ made. members_view made.entries ≡ entry_members entries.now addresses.now no_members) }
{
    let mut made = Map::new(alloc);
    let mut rest = addresses;
    for entry in entries {
        match rest.split_first() {
            Some((address, more)) => {
                put(&mut made, alloc, key_text(*entry), Value::from(*address))?;
                rest = more;
            }
            None => return Ok(made),
        }
    }
    Ok(made)
}
