//! The members of objects: a key, and a number or a word of a table.

ghost use Rattle.std.specs.Prelude.{◌≡◌, ◌++◌, OnOk, codes, decimal, string_bytes};
ghost use Rattle.asm_defs.specs.Keys.{key_text};

use crate::lists::push_number;
use asm_defs::keys::{Key, key_text};
use nook_data::memory::NoMemory;
use std::fmt::Write;

/// Adds a key. `front` is a brace at the first key of an object, and a comma at the others.
pub fn push_key(text: &mut String, front: &str, key: Key) -> Result<(), NoMemory>
    ensures { OnOk result (string_bytes text.new
        ≡ string_bytes text.old ++ (front.now ++ (codes "\"" ++ (key_text key ++ codes "\":")))) }
{
    let key = key_text(key);
    write!(text, "{front}\"{key}\":")?;
    Ok(())
}

/// Adds a key and a number.
pub fn push_number_at(text: &mut String, front: &str, key: Key, number: u64) -> Result<(), NoMemory>
    ensures { OnOk result (string_bytes text.new ≡ string_bytes text.old
        ++ (front.now ++ (codes "\"" ++ (key_text key ++ (codes "\":" ++ decimal number))))) }
{
    push_key(text, front, key)?;
    push_number(text, number)
}

/// Adds a key and a word that needs no escapes.
pub fn push_word_at(text: &mut String, front: &str, key: Key, word: &str) -> Result<(), NoMemory>
    ensures { OnOk result (string_bytes text.new ≡ string_bytes text.old
        ++ (front.now ++ (codes "\"" ++ (key_text key
        ++ (codes "\":\"" ++ (word.now ++ codes "\"")))))) }
{
    push_key(text, front, key)?;
    write!(text, "\"{word}\"")?;
    Ok(())
}

/// Adds the end of an object.
pub fn push_end(text: &mut String) -> Result<(), NoMemory>
    ensures { OnOk result (string_bytes text.new ≡ string_bytes text.old ++ codes "}") }
{
    text.push_str("}")?;
    Ok(())
}
