//! Lists of JSON values, and readers of plain numbers.

ghost use Rattle.std.specs.Prelude.{◌≡◌, ◌≤◌, [], length, IfOk, Result};
ghost use Rattle.serde_json.specs.View.{view, items_view};
ghost use Rattle.input_defs.specs.Reading.{items_from, list_of, whole_number, numbers_of};
ghost use Rattle.scenario_read.specs.Gives.{Gives};

use crate::fields::number_in;
use crate::stop::{ScenarioFault, bad_here, within};
use input_defs::input::{InputFault, PathStep};
use nook_data::lists::{Items, Words};
use nook_data::memory::NoMemory;
use serde_json::Value;
use std::alloc::Global;

/// Reads the items of a list. The reader of an item also sees the items before it.
pub trait ItemReader {
    ghost use Rattle.std.specs.Prelude.{List, Result};
    ghost use Rattle.serde_json.specs.Data.{Data};
    ghost use Rattle.serde_json.specs.View.{view};
    ghost use Rattle.input_defs.specs.declared.input.Refusal.{Refusal};
    ghost use Rattle.scenario_read.specs.Gives.{Gives};

    /// The type that an item is read as.
    type Item: Drop;

    ghost item_of: { Self → List Self.Item → Data → Result Self.Item Refusal };

    /// Reads one item, after the earlier ones.
    fn read(
        &self,
        alloc: Global,
        earlier: &Items<Self::Item>,
        value: &Value,
    ) -> Result<Self::Item, ScenarioFault>
        ensures { Gives result (item_of self.now earlier.now (view value.now)) };
}

/// A list of `least` to `most` items.
#[tactic(auto, using(crate::proofs::Counts::count_items))]
pub fn read_list<R: ItemReader>(
    alloc: Global,
    reader: &R,
    value: &Value,
    least: usize,
    most: usize,
) -> Result<Items<R::Item>, ScenarioFault>
    requires { most ≤ 65536 }
    ensures { Gives result (list_of (R.item_of reader.now) least most (view value.now)) }
{
    let Some(values) = value.as_array() else {
        return bad_here(alloc, InputFault::WrongKind);
    };
    if values.len() > most {
        return bad_here(alloc, InputFault::TooMany);
    }
    if values.len() < least {
        return bad_here(alloc, InputFault::NumberRange);
    }
    read_items(alloc, reader, values.as_slice())
}

/// Reads the items in order.
fn read_items<R: ItemReader>(
    alloc: Global,
    reader: &R,
    values: &[Value],
) -> Result<Items<R::Item>, ScenarioFault>
    requires { length values.now ≤ 65536 }
    ensures { Gives result (items_from (R.item_of reader.now) [] 0 (items_view values.now)) }
{
    let mut items = list_for(alloc, values.len())?;
    let mut index = 0;
    for value in values {
        let read = reader.read(alloc, &items, value);
        items.push(within(PathStep::Position(index), read)?)?;
        index += 1;
    }
    Ok(items)
}

/// An empty list with room for a number of items.
fn list_for<T>(alloc: Global, count: usize) -> Result<Items<T>, NoMemory>
    ensures { IfOk result (λ made. made ≡ []) }
{
    Ok(Items::from_vec(Vec::with_capacity(alloc, count)?))
}

/// Reads words of 32 bits.
pub struct WordReader;

impl ItemReader for WordReader {
    type Item = u32;

    ghost item_of = { λ _ earlier. whole_number 0 4294967295 };

    fn read(
        &self,
        alloc: Global,
        _earlier: &Items<u32>,
        value: &Value,
    ) -> Result<u32, ScenarioFault> {
        let number = number_in(alloc, value, 0, 4_294_967_295)?;
        Ok(number as u32)
    }
}

/// Reads picks of 16 bits.
pub struct PickReader;

impl ItemReader for PickReader {
    type Item = u16;

    ghost item_of = { λ _ earlier. whole_number 0 65535 };

    fn read(
        &self,
        alloc: Global,
        _earlier: &Items<u16>,
        value: &Value,
    ) -> Result<u16, ScenarioFault> {
        let number = number_in(alloc, value, 0, 65_535)?;
        Ok(number as u16)
    }
}

/// A list of `least` to `most` words.
pub fn read_words(
    alloc: Global,
    value: &Value,
    least: usize,
    most: usize,
) -> Result<Words, ScenarioFault>
    requires { most ≤ 65536 }
    ensures { Gives result (numbers_of least most 4294967295 (view value.now)) }
{
    read_list(alloc, &WordReader, value, least, most)
}
