//! Parts with their faults, bad blocks and drivers.

ghost use Rattle.std.specs.Prelude.{◌≡◌, ◌++◌, OnOk, codes, decimal, string_bytes, true};
ghost use Rattle.serde_json.specs.Data.{Members};
ghost use Rattle.serde_json.specs.Written.{compact_text, members_text};
ghost use Rattle.asm_defs.specs.ImageText.{image_data};
ghost use Rattle.scenario_write.specs.ScenarioText.{arrival_members, bad_block_data, bad_members, disk_members, driver_data};
ghost use Rattle.scenario_write.specs.ScenarioText.{fault_data, kind_details, kind_members, part_data, part_members};

use crate::lists::{Written, push_list, push_name};
use crate::members::{push_end, push_key, push_number_at, push_word_at};
use asm_defs::keys::Key;
use driver_asm::image_value;
use nook_data::classes::{Class, class_text};
use nook_data::memory::NoMemory;
use nook_data::scenario::{BadBlock, Fault, FaultKind, Image, PartSpec, fault_name, fault_word};
use std::alloc::Global;

impl Written for BadBlock {
    ghost json = { bad_block_data };

    #[tactic(auto, unfolding(crate::specs::ScenarioText::bad_block_data, json::specs::Print::escape_byte))]
    fn push(&self, _alloc: Global, text: &mut String) -> Result<(), NoMemory> {
        push_number_at(text, "{", Key::Block, u64::from(self.block))?;
        push_number_at(text, ",", Key::After, u64::from(self.after))?;
        push_end(text)
    }
}

impl Written for Fault {
    ghost json = { fault_data };

    #[tactic(auto, unfolding(crate::specs::ScenarioText::fault_data, json::specs::Print::escape_byte))]
    fn push(&self, _alloc: Global, text: &mut String) -> Result<(), NoMemory> {
        push_number_at(text, "{", Key::Burst, u64::from(self.burst))?;
        push_number_at(text, ",", Key::After, u64::from(self.after))?;
        push_kind(text, self.kind)
    }
}

/// Adds the members of a fault's kind after others, and the end of the object.
#[tactic(auto, unfolding(json::specs::Print::escape_byte), using(crate::proofs::FaultsBack::fault_quoted))]
fn push_kind(text: &mut String, kind: FaultKind) -> Result<(), NoMemory>
    ensures { OnOk result
        (string_bytes text.new ≡ string_bytes text.old ++ members_text true (kind_members kind)) }
{
    push_word_at(text, ",", Key::Kind, fault_word(fault_name(kind)))?;
    push_kind_details(text, kind)
}

/// Adds what only faults of a kind have, and the end of the object.
#[tactic(auto, unfolding(json::specs::Print::escape_byte))]
fn push_kind_details(text: &mut String, kind: FaultKind) -> Result<(), NoMemory>
    ensures { OnOk result
        (string_bytes text.new ≡ string_bytes text.old ++ members_text true (kind_details kind)) }
{
    match kind {
        FaultKind::Trap | FaultKind::Hang => push_end(text),
        FaultKind::Poke { address, value } => push_address(text, address, value),
        FaultKind::Code { address, value } => push_address(text, address, value),
        FaultKind::Reg { register, value } => {
            push_number_at(text, ",", Key::Register, u64::from(register))?;
            push_value(text, value)
        }
    }
}

/// Adds the address and the value that a fault writes, and the end of the object.
fn push_address(text: &mut String, address: u32, value: u32) -> Result<(), NoMemory>
    ensures { OnOk result (string_bytes text.new ≡ string_bytes text.old
        ++ (codes ",\"address\":" ++ (decimal address
        ++ (codes ",\"value\":" ++ (decimal value ++ codes "}"))))) }
{
    push_number_at(text, ",", Key::Address, u64::from(address))?;
    push_value(text, value)
}

/// Adds the value that a fault writes, and the end of the object.
fn push_value(text: &mut String, value: u32) -> Result<(), NoMemory>
    ensures { OnOk result (string_bytes text.new
        ≡ string_bytes text.old ++ (codes ",\"value\":" ++ (decimal value ++ codes "}"))) }
{
    push_number_at(text, ",", Key::Value, u64::from(value))?;
    push_end(text)
}

impl Written for PartSpec {
    ghost json = { part_data };

    fn push(&self, alloc: Global, text: &mut String) -> Result<(), NoMemory> {
        push_key(text, "{", Key::Name)?;
        push_name(alloc, text, &self.name)?;
        push_word_at(text, ",", Key::Class, class_text(self.class))?;
        push_disk(alloc, text, self)?;
        push_members(alloc, text, self)?;
        Ok(())
    }
}

/// Adds the members that follow a disk's own, and the end of the object.
#[tactic(auto, unfolding(json::specs::Print::escape_byte))]
fn push_members(alloc: Global, text: &mut String, part: &PartSpec) -> Result<(), NoMemory>
    ensures { OnOk result
        (string_bytes text.new ≡ string_bytes text.old
        ++ members_text true (part_members part.now)) }
{
    push_number_at(text, ",", Key::Limit, u64::from(part.limit))?;
    push_key(text, ",", Key::Driver)?;
    push_driver(alloc, text, &part.image)?;
    push_key(text, ",", Key::Faults)?;
    push_list(alloc, text, part.faults.as_slice())?;
    push_arrivals(alloc, text, part)?;
    Ok(())
}

/// Adds what only disks have.
#[tactic(auto, unfolding(json::specs::Print::escape_byte))]
fn push_disk(alloc: Global, text: &mut String, part: &PartSpec) -> Result<(), NoMemory>
    ensures { OnOk result ((more : Members) → string_bytes text.new ++ members_text true more
        ≡ string_bytes text.old ++ members_text true (disk_members part.now.class part.now more)) }
{
    match part.class {
        Class::Block => {
            push_number_at(text, ",", Key::Blocks, u64::from(part.blocks))?;
            push_bad(alloc, text, part.bad.as_slice())
        }
        Class::Net | Class::Sound => Ok(()),
    }
}

/// Adds the bad blocks, if there are any.
#[tactic(auto, unfolding(json::specs::Print::escape_byte))]
fn push_bad(alloc: Global, text: &mut String, bad: &[BadBlock]) -> Result<(), NoMemory>
    ensures { OnOk result ((more : Members) → string_bytes text.new ++ members_text true more
        ≡ string_bytes text.old ++ members_text true (bad_members bad.now more)) }
{
    if bad.is_empty() {
        return Ok(());
    }
    push_key(text, ",", Key::Bad)?;
    push_list(alloc, text, bad)
}

/// Adds a driver, given as its image.
#[tactic(auto, unfolding(json::specs::Print::escape_byte))]
fn push_driver(alloc: Global, text: &mut String, image: &Image) -> Result<(), NoMemory>
    ensures { OnOk result
        (string_bytes text.new ≡ string_bytes text.old ++ compact_text (driver_data image.now)) }
{
    push_key(text, "{", Key::Image)?;
    push_image(alloc, text, image)?;
    push_end(text)
}

/// Adds an image.
#[tactic(auto, using(driver_asm::proofs::Floats::image_has_none))]
fn push_image(alloc: Global, text: &mut String, image: &Image) -> Result<(), NoMemory>
    ensures { OnOk result
        (string_bytes text.new ≡ string_bytes text.old ++ compact_text (image_data image.now)) }
{
    let value = image_value(alloc, image)?;
    let written = value.to_string(alloc)?;
    text.push_str(written.as_str())?;
    Ok(())
}

/// Adds what only net parts have, and the end of the object.
#[tactic(auto, unfolding(json::specs::Print::escape_byte))]
fn push_arrivals(alloc: Global, text: &mut String, part: &PartSpec) -> Result<(), NoMemory>
    ensures { OnOk result (string_bytes text.new
        ≡ string_bytes text.old ++ members_text true (arrival_members part.now.class part.now)) }
{
    match part.class {
        Class::Net => {
            push_key(text, ",", Key::Arrivals)?;
            push_list(alloc, text, part.arrivals.as_slice())?;
            push_end(text)
        }
        Class::Block | Class::Sound => push_end(text),
    }
}
