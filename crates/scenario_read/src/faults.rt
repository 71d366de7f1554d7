//! Injected faults, and bad blocks of a disk.

ghost use Rattle.std.specs.Prelude.{◌≡◌, ◌∷◌};
ghost use Rattle.serde_json.specs.View.{view};
ghost use Rattle.input_defs.specs.CampaignReading.{member_faults_of};
ghost use Rattle.input_defs.specs.Reading.{named_of, required};
ghost use Rattle.input_defs.specs.PartReading.{bad_block_of, fault_keys, fault_kind, fault_of};
ghost use Rattle.input_defs.specs.Views.Readings.{bad_blocks_of, faults_of};
ghost use Rattle.nook_data.specs.FaultNames.{fault_named};
ghost use Rattle.asm_defs.specs.declared.keys.Key.TheVariants as key;
ghost use Rattle.scenario_read.specs.Gives.{Gives};

use crate::fields::{check_keys, check_object, field, number_at, word_at};
use crate::lists::{ItemReader, read_list};
use crate::stop::{ScenarioFault, at, bad_here};
use asm_defs::keys::Key;
use input_defs::input::InputFault;
use nook_data::limits::{MOST_BAD_BLOCKS, MOST_CAMPAIGN_FAULTS, MOST_FAULTS, MOST_INSTRUCTIONS};
use nook_data::scenario::{BadBlock, BadBlocks, Fault, FaultKind, FaultName, Faults, fault_named};
use serde_json::Value;
use std::alloc::Global;

/// Up to 64 faults.
pub fn faults_of(alloc: Global, value: &Value) -> Result<Faults, ScenarioFault>
    ensures { Gives result (faults_of (view value.now)) }
{
    read_list(alloc, &FaultReader, value, 0, MOST_FAULTS)
}

/// 1 to 4,096 faults, one for each member of a campaign.
pub fn member_faults_of(alloc: Global, value: &Value) -> Result<Faults, ScenarioFault>
    ensures { Gives result (member_faults_of (view value.now)) }
{
    read_list(alloc, &FaultReader, value, 1, MOST_CAMPAIGN_FAULTS)
}

/// Reads faults.
pub struct FaultReader;

impl ItemReader for FaultReader {
    type Item = Fault;

    ghost item_of = { λ _ earlier. fault_of };

    fn read(
        &self,
        alloc: Global,
        _earlier: &Faults,
        value: &Value,
    ) -> Result<Fault, ScenarioFault> {
        fault_of(alloc, value)
    }
}

/// A fault: the burst, the instructions before it, its kind and the keys of that kind.
#[tactic(auto, unfolding(input_defs::specs::PartReading::fault_of))]
fn fault_of(alloc: Global, value: &Value) -> Result<Fault, ScenarioFault>
    ensures { Gives result (fault_of (view value.now)) }
{
    check_object(alloc, value)?;
    let name = at(
        Key::Kind,
        fault_name(alloc, field(alloc, value, Key::Kind)?),
    )?;
    check_keys(alloc, value, fault_keys(name))?;
    let burst = number_at(alloc, value, Key::Burst, 1, 4_294_967_295)? as u32;
    let after = number_at(
        alloc,
        value,
        Key::After,
        0,
        u64::from(MOST_INSTRUCTIONS) - 1,
    )? as u32;
    let kind = fault_kind(alloc, value, name)?;
    Ok(Fault { burst, after, kind })
}

/// The keys of a fault of a kind.
fn fault_keys(name: FaultName) -> &'static [Key]
    ensures { result.now ≡ key.Burst ∷ key.After ∷ key.Kind ∷ fault_keys name }
{
    match name {
        FaultName::Trap | FaultName::Hang => &[Key::Burst, Key::After, Key::Kind],
        FaultName::Poke | FaultName::Code => {
            &[Key::Burst, Key::After, Key::Kind, Key::Address, Key::Value]
        }
        FaultName::Reg => &[Key::Burst, Key::After, Key::Kind, Key::Register, Key::Value],
    }
}

/// The keys of a fault of a kind, without the burst and the instructions before it.
pub fn kind_keys(name: FaultName) -> &'static [Key]
    ensures { result.now ≡ key.Kind ∷ fault_keys name }
{
    &fault_keys(name)[2..]
}

/// The name of a kind of fault.
pub fn fault_name(alloc: Global, value: &Value) -> Result<FaultName, ScenarioFault>
    ensures { Gives result (named_of fault_named (view value.now)) }
{
    match value.as_str().and_then(fault_named) {
        None => bad_here(alloc, InputFault::WrongKind),
        Some(name) => Ok(name),
    }
}

/// What a fault of a kind does.
#[tactic(auto, unfolding(input_defs::specs::PartReading::fault_kind))]
pub fn fault_kind(alloc: Global, value: &Value, name: FaultName) -> Result<FaultKind, ScenarioFault>
    ensures { Gives result (fault_kind name (view value.now)) }
{
    match name {
        FaultName::Trap => Ok(FaultKind::Trap),
        FaultName::Hang => Ok(FaultKind::Hang),
        FaultName::Poke => {
            let address = word_at(alloc, value, Key::Address)?;
            let value = word_at(alloc, value, Key::Value)?;
            Ok(FaultKind::Poke { address, value })
        }
        FaultName::Code => {
            let address = word_at(alloc, value, Key::Address)?;
            let value = word_at(alloc, value, Key::Value)?;
            Ok(FaultKind::Code { address, value })
        }
        FaultName::Reg => {
            let register = number_at(alloc, value, Key::Register, 0, 15)? as u8;
            let value = word_at(alloc, value, Key::Value)?;
            Ok(FaultKind::Reg { register, value })
        }
    }
}

/// Up to 64 bad blocks of a disk with `blocks` blocks.
pub fn bad_blocks_of(alloc: Global, value: &Value, blocks: u32) -> Result<BadBlocks, ScenarioFault>
    ensures { Gives result (bad_blocks_of blocks (view value.now)) }
{
    read_list(alloc, &BadBlockReader { blocks }, value, 0, MOST_BAD_BLOCKS)
}

/// Reads bad blocks of a disk with this many blocks.
#[derive(Drop)]
struct BadBlockReader {
    blocks: u32,
}

impl ItemReader for BadBlockReader {
    type Item = BadBlock;

    ghost item_of = { λ reader earlier. bad_block_of reader.blocks };

    fn read(
        &self,
        alloc: Global,
        _earlier: &BadBlocks,
        value: &Value,
    ) -> Result<BadBlock, ScenarioFault> {
        bad_block_of(alloc, value, self.blocks)
    }
}

/// A bad block: its number, and how many commands it still executes.
#[tactic(auto, unfolding(input_defs::specs::PartReading::bad_block_of))]
fn bad_block_of(alloc: Global, value: &Value, blocks: u32) -> Result<BadBlock, ScenarioFault>
    ensures { Gives result (bad_block_of blocks (view value.now)) }
{
    check_keys(alloc, value, &[Key::Block, Key::After])?;
    let last = blocks.saturating_sub(1);
    let block = number_at(alloc, value, Key::Block, 0, u64::from(last))? as u32;
    let after = word_at(alloc, value, Key::After)?;
    Ok(BadBlock { block, after })
}
