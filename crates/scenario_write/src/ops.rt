//! Operations and schedules.

ghost use Rattle.std.specs.Prelude.{◌≡◌, ◌++◌, OnOk, codes, string_bytes, true};
ghost use Rattle.serde_json.specs.Written.{compact_text, members_text};
ghost use Rattle.asm_defs.specs.Keys.{key_text};
ghost use Rattle.scenario_write.specs.ScenarioText.{numbers_data, op_details, op_members, schedule_data, schedule_details};
ghost use Rattle.scenario_write.specs.ScenarioText.{step_data, thread_data};

use crate::lists::{Written, push_list, push_name};
use crate::members::{push_end, push_key, push_number_at, push_word_at};
use asm_defs::keys::Key;
use input_defs::schedules::{schedule_name, schedule_word};
use nook_data::calls::{Op, op_name, op_word};
use nook_data::lists::Words;
use nook_data::memory::NoMemory;
use nook_data::scenario::{ScheduleSpec, ThreadSpec};
use std::alloc::Global;

impl Written for ScheduleSpec {
    ghost json = { schedule_data };

    #[tactic(auto, unfolding(crate::specs::ScenarioText::schedule_data, json::specs::Print::escape_byte), using(crate::proofs::Words::schedule_quoted))]
    fn push(&self, alloc: Global, text: &mut String) -> Result<(), NoMemory> {
        let word = schedule_word(schedule_name(self));
        push_word_at(text, "{", Key::Kind, word)?;
        push_schedule_details(alloc, text, self)
    }
}

/// Adds what only schedules of a kind have, and the end of the object.
#[tactic(auto, unfolding(json::specs::Print::escape_byte))]
fn push_schedule_details(
    alloc: Global,
    text: &mut String,
    schedule: &ScheduleSpec,
) -> Result<(), NoMemory>
    ensures { OnOk result (string_bytes text.new
        ≡ string_bytes text.old ++ members_text true (schedule_details schedule.now)) }
{
    match schedule {
        ScheduleSpec::RoundRobin => push_end(text),
        ScheduleSpec::Drawn { start } => {
            push_number_at(text, ",", Key::Start, *start)?;
            push_end(text)
        }
        ScheduleSpec::Listed { picks } => {
            push_key(text, ",", Key::Picks)?;
            push_list(alloc, text, picks.as_slice())?;
            push_end(text)
        }
    }
}

impl Written for ThreadSpec {
    ghost json = { thread_data };

    #[tactic(auto, unfolding(crate::specs::ScenarioText::thread_data, json::specs::Print::escape_byte))]
    fn push(&self, alloc: Global, text: &mut String) -> Result<(), NoMemory> {
        push_key(text, "{", Key::Name)?;
        push_name(alloc, text, &self.name)?;
        push_key(text, ",", Key::Ops)?;
        push_list(alloc, text, self.ops.as_slice())?;
        push_end(text)
    }
}

impl Written for (u32, Op) {
    ghost json = { step_data };

    #[tactic(auto, unfolding(crate::specs::ScenarioText::step_data, json::specs::Print::escape_byte))]
    fn push(&self, alloc: Global, text: &mut String) -> Result<(), NoMemory> {
        push_number_at(text, "{", Key::Part, u64::from(self.0))?;
        push_op(alloc, text, &self.1)
    }
}

/// Adds the members of an operation after others, and the end of the object.
#[tactic(auto, unfolding(json::specs::Print::escape_byte), using(crate::proofs::Words::op_quoted))]
fn push_op(alloc: Global, text: &mut String, op: &Op) -> Result<(), NoMemory>
    ensures { OnOk result
        (string_bytes text.new ≡ string_bytes text.old ++ members_text true (op_members op.now)) }
{
    push_word_at(text, ",", Key::Op, op_word(op_name(op)))?;
    push_op_details(alloc, text, op)
}

/// Adds what only some operations have, and the end of the object.
#[tactic(auto, unfolding(json::specs::Print::escape_byte))]
fn push_op_details(alloc: Global, text: &mut String, op: &Op) -> Result<(), NoMemory>
    ensures { OnOk result
        (string_bytes text.new ≡ string_bytes text.old ++ members_text true (op_details op.now)) }
{
    match op {
        Op::Read { first, count } => {
            push_number_at(text, ",", Key::First, u64::from(*first))?;
            push_number_at(text, ",", Key::Count, u64::from(*count))?;
            push_end(text)
        }
        Op::Write { first, words } => {
            push_number_at(text, ",", Key::First, u64::from(*first))?;
            push_words(alloc, text, Key::Data, words)
        }
        Op::Send { frame } => push_words(alloc, text, Key::Frame, frame),
        Op::Recv | Op::Open | Op::Close => push_end(text),
        Op::Play { samples } => push_words(alloc, text, Key::Samples, samples),
        Op::Get { key } => {
            push_number_at(text, ",", Key::Key, u64::from(*key))?;
            push_end(text)
        }
        Op::Set { key, value } => {
            push_number_at(text, ",", Key::Key, u64::from(*key))?;
            push_number_at(text, ",", Key::Value, u64::from(*value))?;
            push_end(text)
        }
    }
}

/// Adds words at a key, and the end of the object.
fn push_words(alloc: Global, text: &mut String, key: Key, words: &Words) -> Result<(), NoMemory>
    ensures { OnOk result (string_bytes text.new ≡ string_bytes text.old
        ++ (codes ",\"" ++ (key_text key
        ++ (codes "\":" ++ (compact_text (numbers_data words.now) ++ codes "}"))))) }
{
    push_key(text, ",", key)?;
    push_list(alloc, text, words.as_slice())?;
    push_end(text)
}
