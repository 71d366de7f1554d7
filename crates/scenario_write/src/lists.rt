//! Things that are written as one JSON value, and lists of them.

ghost use Rattle.std.specs.Prelude.{◌≡◌, ◌∷◌, ◌++◌, [], OnOk, decimal, string_bytes};
ghost use Rattle.json.specs.Print.{quoted};
ghost use Rattle.serde_json.specs.Written.{comma_if, compact_text};
ghost use Rattle.scenario_write.specs.ScenarioText.{list_data, number_data, numbers_data};

use nook_data::lists::{Word, Words};
use nook_data::memory::NoMemory;
use nook_data::name::Name;
use serde_json::Value;
use std::alloc::Global;
use std::fmt::Write;

/// A thing that is written as one JSON value.
pub trait Written {
    ghost use Rattle.serde_json.specs.Data.{Data};

    // the value
    ghost json: { Self → Data };

    /// Adds the compact text of the value.
    fn push(&self, alloc: Global, text: &mut String) -> Result<(), NoMemory>
        ensures { OnOk result
            (string_bytes text.new ≡ string_bytes text.old ++ compact_text (json self.now)) };
}

impl Written for u16 {
    ghost json = { number_data };

    fn push(&self, _alloc: Global, text: &mut String) -> Result<(), NoMemory> {
        push_number(text, u64::from(*self))
    }
}

impl Written for Word {
    ghost json = { number_data };

    fn push(&self, _alloc: Global, text: &mut String) -> Result<(), NoMemory> {
        push_number(text, u64::from(*self))
    }
}

impl Written for Words {
    ghost json = { numbers_data };

    fn push(&self, alloc: Global, text: &mut String) -> Result<(), NoMemory> {
        push_list(alloc, text, self.as_slice())
    }
}

/// Adds a list.
pub fn push_list<T: Written>(alloc: Global, text: &mut String, items: &[T]) -> Result<(), NoMemory>
    ensures { OnOk result
        (string_bytes text.new ≡ string_bytes text.old
        ++ compact_text (list_data T.json items.now)) }
{
    text.push_str("[")?;
    let mut later = false;
    for item in items {
        push_comma(text, later)?;
        item.push(alloc, text)?;
        later = true;
    }
    text.push_str("]")?;
    Ok(())
}

/// Adds a comma if an item comes before.
fn push_comma(text: &mut String, later: bool) -> Result<(), NoMemory>
    ensures { OnOk result (string_bytes text.new ≡ string_bytes text.old ++ comma_if later) }
{
    if later {
        text.push_str(",")?;
    }
    Ok(())
}

/// Adds a number.
pub fn push_number(text: &mut String, number: u64) -> Result<(), NoMemory>
    ensures { OnOk result (string_bytes text.new ≡ string_bytes text.old ++ decimal number) }
{
    write!(text, "{number}")?;
    Ok(())
}

/// Adds a name as a JSON string.
pub fn push_name(alloc: Global, text: &mut String, name: &Name) -> Result<(), NoMemory>
    ensures { OnOk result (string_bytes text.new ≡ string_bytes text.old ++ quoted name.now) }
{
    let value = Value::String(String::from_str(alloc, name.as_str())?);
    let written = value.to_string(alloc)?;
    text.push_str(written.as_str())?;
    Ok(())
}
