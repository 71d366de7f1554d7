//! Parts: a driver and its device.

ghost use Rattle.std.specs.Prelude.{◌≡◌, [], Ok};
ghost use Rattle.serde_json.specs.View.{view};
ghost use Rattle.input_defs.specs.Reading.{optional};
ghost use Rattle.input_defs.specs.PartReading.{part_arrivals, part_bad, part_blocks, part_of};
ghost use Rattle.input_defs.specs.Views.Readings.{frame_of, frames_of, faults_of};
ghost use Rattle.input_defs.specs.Views.Readings.{parts_of};
ghost use Rattle.asm_defs.specs.declared.keys.Key.TheVariants as key;
ghost use Rattle.scenario_read.specs.Gives.{Gives};

use crate::driver::driver_of;
use crate::faults::{bad_blocks_of, faults_of};
use crate::fields::{check_keys, check_object, field, number_at, number_or};
use crate::image::known_class;
use crate::keys::part_keys;
use crate::lists::{ItemReader, read_list, read_words};
use crate::names::part_name;
use crate::stop::{ScenarioFault, at};
use asm_defs::keys::{Key, key_text};
use nook_data::classes::Class;
use nook_data::limits::{
    MOST_ARRIVALS, MOST_DISK_BLOCKS, MOST_FAILURES, MOST_FRAME_WORDS, MOST_PARTS,
};
use nook_data::lists::{Frames, Words};
use nook_data::scenario::{BadBlocks, Faults, PartSpec, Parts};
use serde_json::Value;
use std::alloc::Global;

/// 1 to 8 parts of a scenario of a version.
pub fn parts_of(alloc: Global, value: &Value, version: u32) -> Result<Parts, ScenarioFault>
    ensures { Gives result (parts_of version (view value.now)) }
{
    read_list(alloc, &PartReader { version }, value, 1, MOST_PARTS)
}

/// Reads the parts of a scenario of a version.
#[derive(Drop)]
struct PartReader {
    version: u32,
}

impl ItemReader for PartReader {
    type Item = PartSpec;

    ghost item_of = { λ reader. part_of reader.version };

    fn read(
        &self,
        alloc: Global,
        earlier: &Parts,
        value: &Value,
    ) -> Result<PartSpec, ScenarioFault> {
        part_of(alloc, value, self.version, earlier)
    }
}

/// A part, after the earlier parts.
#[tactic(auto, unfolding(input_defs::specs::PartReading::part_of))]
fn part_of(
    alloc: Global,
    value: &Value,
    version: u32,
    earlier: &Parts,
) -> Result<PartSpec, ScenarioFault>
    ensures { Gives result (part_of version earlier.now (view value.now)) }
{
    check_object(alloc, value)?;
    let class = at(
        Key::Class,
        known_class(alloc, field(alloc, value, Key::Class)?),
    )?;
    check_keys(alloc, value, part_keys(version, class))?;
    let inside = field(alloc, value, Key::Name)?;
    let name = at(Key::Name, part_name(alloc, earlier.as_slice(), inside))?;
    let blocks = part_blocks(alloc, value, class)?;
    let bad = part_bad(alloc, value, class, blocks)?;
    let limit = number_or(alloc, value, Key::Limit, 0, u64::from(MOST_FAILURES), 0)? as u32;
    let inside = field(alloc, value, Key::Driver)?;
    let image = at(Key::Driver, driver_of(alloc, inside, class))?;
    let faults = part_faults(alloc, value)?;
    let arrivals = part_arrivals(alloc, value, class)?;
    Ok(PartSpec {
        name,
        class,
        blocks,
        bad,
        limit,
        image,
        faults,
        arrivals,
    })
}

/// The blocks of a disk; other classes have none.
fn part_blocks(alloc: Global, value: &Value, class: Class) -> Result<u32, ScenarioFault>
    ensures { Gives result (part_blocks class (view value.now)) }
{
    match class {
        Class::Block => {
            let blocks = number_at(alloc, value, Key::Blocks, 1, u64::from(MOST_DISK_BLOCKS))?;
            Ok(blocks as u32)
        }
        Class::Net | Class::Sound => Ok(0),
    }
}

/// The bad blocks of a disk; other classes have none.
fn part_bad(
    alloc: Global,
    value: &Value,
    class: Class,
    blocks: u32,
) -> Result<BadBlocks, ScenarioFault>
    ensures { Gives result (part_bad class blocks (view value.now)) }
{
    match (class, value.get(key_text(Key::Bad))) {
        (Class::Block, Some(inside)) => at(Key::Bad, bad_blocks_of(alloc, inside, blocks)),
        _ => Ok(BadBlocks::new(alloc)),
    }
}

/// The faults of a part, if any are given.
fn part_faults(alloc: Global, value: &Value) -> Result<Faults, ScenarioFault>
    ensures { Gives result (optional key.Faults faults_of [] (view value.now)) }
{
    match value.get(key_text(Key::Faults)) {
        None => Ok(Faults::new(alloc)),
        Some(inside) => at(Key::Faults, faults_of(alloc, inside)),
    }
}

/// The arrivals of a net part; other classes have none.
fn part_arrivals(alloc: Global, value: &Value, class: Class) -> Result<Frames, ScenarioFault>
    ensures { Gives result (part_arrivals class (view value.now)) }
{
    match (class, value.get(key_text(Key::Arrivals))) {
        (Class::Net, Some(inside)) => at(Key::Arrivals, frames_of(alloc, inside)),
        _ => Ok(Frames::new(alloc)),
    }
}

/// Up to 256 frames.
fn frames_of(alloc: Global, value: &Value) -> Result<Frames, ScenarioFault>
    ensures { Gives result (frames_of (view value.now)) }
{
    read_list(alloc, &FrameReader, value, 0, MOST_ARRIVALS)
}

/// Reads frames of 1 to 64 words.
struct FrameReader;

impl ItemReader for FrameReader {
    type Item = Words;

    ghost item_of = { λ _. frame_of };

    fn read(
        &self,
        alloc: Global,
        _earlier: &Frames,
        value: &Value,
    ) -> Result<Words, ScenarioFault> {
        read_words(alloc, value, 1, MOST_FRAME_WORDS)
    }
}
