//! Operations of threads.

ghost use Rattle.std.specs.Prelude.{◌≡◌};
ghost use Rattle.serde_json.specs.View.{view};
ghost use Rattle.input_defs.specs.Reading.{named_of};
ghost use Rattle.input_defs.specs.ScenarioReading.{op_by, op_of, op_words_of};
ghost use Rattle.input_defs.specs.Views.Readings.{ops_of};
ghost use Rattle.nook_data.specs.OpNames.{op_named};
ghost use Rattle.scenario_read.specs.Gives.{Gives};

use crate::fields::{check_keys, check_object, field, number_at, word_at};
use crate::keys::op_keys;
use crate::lists::{ItemReader, read_list, read_words};
use crate::stop::{ScenarioFault, at, bad_here};
use asm_defs::keys::Key;
use input_defs::input::InputFault;
use nook_data::calls::{Op, OpName, PartOps, op_named};
use nook_data::limits::MOST_OPS;
use nook_data::lists::Words;
use serde_json::Value;
use std::alloc::Global;

/// Up to 256 operations on parts with indexes below `parts`.
pub fn ops_of(alloc: Global, value: &Value, parts: u32) -> Result<PartOps, ScenarioFault>
    ensures { Gives result (ops_of parts (view value.now)) }
{
    read_list(alloc, &OpReader { parts }, value, 0, MOST_OPS)
}

/// Reads operations on parts with indexes below `parts`.
#[derive(Drop)]
struct OpReader {
    parts: u32,
}

impl ItemReader for OpReader {
    type Item = (u32, Op);

    ghost item_of = { λ reader earlier. op_of reader.parts };

    fn read(
        &self,
        alloc: Global,
        _earlier: &PartOps,
        value: &Value,
    ) -> Result<(u32, Op), ScenarioFault> {
        op_of(alloc, value, self.parts)
    }
}

/// An operation and its part. This does not check it against the part's class.
#[tactic(auto, unfolding(input_defs::specs::ScenarioReading::op_of))]
fn op_of(alloc: Global, value: &Value, parts: u32) -> Result<(u32, Op), ScenarioFault>
    ensures { Gives result (op_of parts (view value.now)) }
{
    check_object(alloc, value)?;
    let name = at(Key::Op, op_name(alloc, field(alloc, value, Key::Op)?))?;
    check_keys(alloc, value, op_keys(name))?;
    let last = parts.saturating_sub(1);
    let part = number_at(alloc, value, Key::Part, 0, u64::from(last))? as u32;
    let op = op_by(alloc, value, name)?;
    Ok((part, op))
}

/// The name of an operation.
fn op_name(alloc: Global, value: &Value) -> Result<OpName, ScenarioFault>
    ensures { Gives result (named_of op_named (view value.now)) }
{
    match value.as_str().and_then(op_named) {
        None => bad_here(alloc, InputFault::WrongKind),
        Some(name) => Ok(name),
    }
}

/// What an operation asks for.
#[tactic(auto, unfolding(input_defs::specs::ScenarioReading::op_by))]
fn op_by(alloc: Global, value: &Value, name: OpName) -> Result<Op, ScenarioFault>
    ensures { Gives result (op_by name (view value.now)) }
{
    match name {
        OpName::Read => {
            let first = word_at(alloc, value, Key::First)?;
            let count = word_at(alloc, value, Key::Count)?;
            Ok(Op::Read { first, count })
        }
        OpName::Write => {
            let first = word_at(alloc, value, Key::First)?;
            let words = at(
                Key::Data,
                op_words_of(alloc, field(alloc, value, Key::Data)?),
            )?;
            Ok(Op::Write { first, words })
        }
        OpName::Send => {
            let frame = at(
                Key::Frame,
                op_words_of(alloc, field(alloc, value, Key::Frame)?),
            )?;
            Ok(Op::Send { frame })
        }
        OpName::Recv => Ok(Op::Recv),
        OpName::Open => Ok(Op::Open),
        OpName::Play => {
            let inside = field(alloc, value, Key::Samples)?;
            let samples = at(Key::Samples, op_words_of(alloc, inside))?;
            Ok(Op::Play { samples })
        }
        OpName::Close => Ok(Op::Close),
        OpName::Get => {
            let key = word_at(alloc, value, Key::Key)?;
            Ok(Op::Get { key })
        }
        OpName::Set => {
            let key = word_at(alloc, value, Key::Key)?;
            let value = word_at(alloc, value, Key::Value)?;
            Ok(Op::Set { key, value })
        }
    }
}

/// Up to 256 words.
fn op_words_of(alloc: Global, value: &Value) -> Result<Words, ScenarioFault>
    ensures { Gives result (op_words_of (view value.now)) }
{
    read_words(alloc, value, 0, 256)
}
