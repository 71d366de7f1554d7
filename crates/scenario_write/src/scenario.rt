//! Whole scenarios.

ghost use Rattle.std.specs.Prelude.{◌≡◌, ◌++◌, IfOk, Ok, OnOk, string_bytes};
ghost use Rattle.input_defs.specs.ScenarioReading.{scenario_from};
ghost use Rattle.nook_data.specs.Valid.{IsValidScenario};
ghost use Rattle.serde_json.specs.Written.{compact_text};
ghost use Rattle.scenario_write.specs.ScenarioText.{has_bad, scenario_data, scenario_json, scenario_line, version_of};

use crate::lists::{Written, push_list};
use crate::members::{push_end, push_key, push_number_at};
use asm_defs::keys::Key;
use nook_data::lists::Words8;
use nook_data::memory::NoMemory;
use nook_data::scenario::{PartSpec, Scenario};
use std::alloc::Global;

/// A scenario as compact JSON on one line, without a line feed. The keys are in the order in which the format lists
/// them. The version is 2 if a part has a bad block, else 1, and a driver is written as its image. Schedule, limits,
/// faults and the arrivals of a net part are always written; bad blocks only if there are any. The text of a valid
/// scenario is read as that scenario.
///
/// # Errors
///
/// If memory runs out.
#[tactic(auto, unfolding(crate::specs::ScenarioText::scenario_json), using(crate::proofs::ComesBack::text_back))]
pub fn write_scenario(alloc: Global, scenario: &Scenario) -> Result<Words8, NoMemory>
    ensures text { IfOk result (λ text. text ≡ scenario_json scenario.now) }
    ensures back { IsValidScenario scenario.now
        → IfOk result (λ text. scenario_from text ≡ Ok scenario.now) }
{
    let mut text = String::new(alloc);
    scenario.push(alloc, &mut text)?;
    Ok(Words8::from_vec(text.into_bytes()))
}

/// The same with a line feed at the end.
///
/// # Errors
///
/// If memory runs out.
#[tactic(auto, unfolding(crate::specs::ScenarioText::scenario_json), using(crate::proofs::ComesBack::line_back))]
pub fn write_scenario_line(alloc: Global, scenario: &Scenario) -> Result<Words8, NoMemory>
    ensures text { IfOk result (λ text. text ≡ scenario_line scenario.now) }
    ensures back { IsValidScenario scenario.now
        → IfOk result (λ text. scenario_from text ≡ Ok scenario.now) }
{
    let mut text = String::new(alloc);
    scenario.push(alloc, &mut text)?;
    text.push_str("\n")?;
    Ok(Words8::from_vec(text.into_bytes()))
}

impl Written for Scenario {
    ghost json = { scenario_data };

    fn push(&self, alloc: Global, text: &mut String) -> Result<(), NoMemory> {
        push_number_at(text, "{", Key::Version, version_of(self.parts.as_slice()))?;
        push_key(text, ",", Key::Schedule)?;
        self.schedule.push(alloc, text)?;
        push_key(text, ",", Key::Parts)?;
        push_list(alloc, text, self.parts.as_slice())?;
        push_key(text, ",", Key::Threads)?;
        push_list(alloc, text, self.threads.as_slice())?;
        push_end(text)?;
        Ok(())
    }
}

/// The version of the format that has everything the parts use.
fn version_of(parts: &[PartSpec]) -> u64
    ensures { result ≡ version_of parts.now }
{
    if has_bad(parts) { 2 } else { 1 }
}

/// Whether a part has a bad block.
fn has_bad(parts: &[PartSpec]) -> bool
    ensures { result ≡ has_bad parts.now }
{
    for part in parts {
        if !part.bad.is_empty() {
            return true;
        }
    }
    false
}
