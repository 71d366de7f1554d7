//! Images: driver programs as JSON.

ghost use Rattle.std.specs.Prelude.{◌≡◌, [], IfOk, length, true};
ghost use Rattle.std.specs.List.{list_all};
ghost use Rattle.std.specs.Str.Parse.{digits_value};
ghost use Rattle.serde_json.specs.View.{view};
ghost use Rattle.input_defs.specs.ImageReading.{known_class, entries_of, hex_word, image_from, image_of, addresses_from};
ghost use Rattle.input_defs.specs.ImageReading.{words_of};
ghost use Rattle.input_defs.specs.Views.Readings.{is_hex_digit, text_word};
ghost use Rattle.nook_data.specs.Valid.{IsValidImage};
ghost use Rattle.scenario_read.specs.Gives.{Gives};

use crate::fields::{check_keys, field, number_at, text_in};
use crate::lists::{ItemReader, read_list};
use crate::scenario::json_of;
use crate::stop::{ScenarioFault, at, bad_here};
use asm_defs::keys::{Key, entry_keys};
use input_defs::input::InputFault;
use nook_data::classes::{Class, class_named};
use nook_data::lists::{Items, Words};
use nook_data::memory_map::TEXT_WORDS;
use nook_data::scenario::Image;
use serde_json::Value;
use std::alloc::Global;

/// Reads the image of a JSON text, as `nooks asm` writes it. It is within the limits of images.
///
/// # Errors
///
/// `Bad` with the first input error and its path; `NoMemory` if memory runs out.
#[tactic(auto, unfolding(input_defs::specs::ImageReading::image_from), using(crate::proofs::ValidRead::valid_image))]
pub fn read_image(alloc: Global, bytes: &[u8]) -> Result<Image, ScenarioFault>
    ensures gives { Gives result (image_from bytes.now) }
    ensures valid { IfOk result IsValidImage }
{
    let value = json_of(alloc, bytes)?;
    image_of(alloc, &value)
}

/// An image: its class, initial words, entries and text.
#[tactic(auto, unfolding(input_defs::specs::ImageReading::image_of))]
pub fn image_of(alloc: Global, value: &Value) -> Result<Image, ScenarioFault>
    ensures { Gives result (image_of (view value.now)) }
{
    check_keys(
        alloc,
        value,
        &[Key::Class, Key::Data, Key::Entries, Key::Text],
    )?;
    let class = at(
        Key::Class,
        known_class(alloc, field(alloc, value, Key::Class)?),
    )?;
    let initial = at(Key::Data, words_of(alloc, field(alloc, value, Key::Data)?))?;
    let entries = at(
        Key::Entries,
        entries_of(alloc, field(alloc, value, Key::Entries)?, class),
    )?;
    let text = at(Key::Text, words_of(alloc, field(alloc, value, Key::Text)?))?;
    Ok(Image {
        class,
        entries,
        text,
        initial,
    })
}

/// A class.
pub fn known_class(alloc: Global, value: &Value) -> Result<Class, ScenarioFault>
    ensures { Gives result (known_class (view value.now)) }
{
    let name = text_in(alloc, value)?;
    match class_named(name.as_bytes()) {
        None => bad_here(alloc, InputFault::BadClass),
        Some(class) => Ok(class),
    }
}

/// Exactly the entries of a class, in the class's order, each an address in the text.
fn entries_of(alloc: Global, value: &Value, class: Class) -> Result<Words, ScenarioFault>
    ensures { Gives result (entries_of class (view value.now)) }
{
    let keys = entry_keys(class);
    check_keys(alloc, value, keys)?;
    addresses_of(alloc, value, keys)
}

/// The addresses under some keys.
fn addresses_of(alloc: Global, value: &Value, keys: &[Key]) -> Result<Words, ScenarioFault>
    ensures { Gives result (addresses_from keys.now [] (view value.now)) }
{
    let mut addresses = Words::new(alloc);
    for key in keys {
        let address = number_at(alloc, value, *key, 0, u64::from(TEXT_WORDS) - 1)?;
        addresses.push(address as u32)?;
    }
    Ok(addresses)
}

/// Up to 2,048 words.
fn words_of(alloc: Global, value: &Value) -> Result<Words, ScenarioFault>
    ensures { Gives result (words_of (view value.now)) }
{
    read_list(alloc, &HexReader, value, 0, TEXT_WORDS as usize)
}

/// Reads words of eight hexadecimal digits.
struct HexReader;

impl ItemReader for HexReader {
    type Item = u32;

    ghost item_of = { λ _. text_word };

    fn read(
        &self,
        alloc: Global,
        _earlier: &Items<u32>,
        value: &Value,
    ) -> Result<u32, ScenarioFault> {
        let digits = text_in(alloc, value)?;
        hex_word(alloc, digits)
    }
}

/// The word that exactly eight hexadecimal digits write, in either case.
#[tactic(auto, unfolding(input_defs::specs::ImageReading::hex_word))]
fn hex_word(alloc: Global, digits: &str) -> Result<u32, ScenarioFault>
    ensures { Gives result (hex_word digits.now) }
{
    if digits.len() == 8 && are_hex_digits(digits.as_bytes()) {
        Ok(word_of_digits(digits))
    } else {
        bad_here(alloc, InputFault::BadImage)
    }
}

/// The word of eight hexadecimal digits.
#[tactic(auto, using(crate::proofs::HexWords::parsed))]
fn word_of_digits(digits: &str) -> u32
    requires eight { length digits.now ≡ 8 }
    requires hex { list_all is_hex_digit digits.now ≡ true }
    ensures { result ≡ digits_value 16 digits.now }
{
    match u32::from_str_radix(digits, 16) {
        Ok(word) => word,
        Err(_) => unreachable!(),
    }
}

/// Whether each byte is a hexadecimal digit.
fn are_hex_digits(digits: &[u8]) -> bool
    ensures { result ≡ list_all is_hex_digit digits.now }
{
    for digit in digits {
        if !digit.is_ascii_hexdigit() {
            return false;
        }
    }
    true
}
