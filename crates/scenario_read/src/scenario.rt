//! Scenarios.

ghost use Rattle.std.specs.Prelude.{◌≡◌, IfOk, IfErr, Ok, length};
ghost use Rattle.serde_json.specs.View.{view};
ghost use Rattle.input_defs.specs.Reading.{json_of, optional};
ghost use Rattle.input_defs.specs.ScenarioReading.{scenario_from, scenario_of, schedule_of};
ghost use Rattle.nook_data.specs.Valid.{IsValidScenario};
ghost use Rattle.nook_data.specs.declared.scenario.ScheduleSpec.TheVariants as schedule;
ghost use Rattle.asm_defs.specs.declared.keys.Key.TheVariants as key;
ghost use Rattle.scenario_read.specs.Gives.{Fails, Gives};

use crate::fields::{check_keys, field, number_at};
use crate::parts::parts_of;
use crate::schedule::schedule_of;
use crate::stop::{ScenarioFault, at, bad_here};
use crate::threads::threads_of;
use asm_defs::keys::{Key, key_text};
use input_defs::input::InputFault;
use nook_data::scenario::{Scenario, ScheduleSpec};
use serde_json::Value;
use std::alloc::Global;

/// Reads the scenario of a JSON text, of version 1 or 2. It is within every limit.
///
/// # Errors
///
/// `Bad` with the first input error and its path; `NoMemory` if memory runs out.
#[tactic(auto, unfolding(input_defs::specs::ScenarioReading::scenario_from), using(crate::proofs::ValidRead::valid_scenario))]
pub fn read_scenario(alloc: Global, bytes: &[u8]) -> Result<Scenario, ScenarioFault>
    ensures gives { Gives result (scenario_from bytes.now) }
    ensures valid { IfOk result IsValidScenario }
{
    let value = json_of(alloc, bytes)?;
    scenario_of(alloc, &value)
}

/// The JSON value of some bytes.
#[tactic(auto, using(crate::proofs::JsonText::is_json, crate::proofs::JsonText::is_no_json))]
pub fn json_of(alloc: Global, bytes: &[u8]) -> Result<Value, ScenarioFault>
    ensures ok { IfOk result (λ value. json_of bytes.now ≡ Ok (view value)) }
    ensures err { IfErr result (λ stop. Fails stop (json_of bytes.now)) }
{
    match Value::from_slice(alloc, bytes) {
        Ok(value) => Ok(value),
        Err(error) if error.is_memory() => Err(ScenarioFault::NoMemory),
        Err(_) => bad_here(alloc, InputFault::NotJson),
    }
}

/// A scenario: its version, schedule, parts and threads.
#[tactic(auto, unfolding(input_defs::specs::ScenarioReading::scenario_of))]
pub fn scenario_of(alloc: Global, value: &Value) -> Result<Scenario, ScenarioFault>
    ensures { Gives result (scenario_of (view value.now)) }
{
    check_keys(
        alloc,
        value,
        &[Key::Version, Key::Schedule, Key::Parts, Key::Threads],
    )?;
    let version = number_at(alloc, value, Key::Version, 1, 2)? as u32;
    let schedule = schedule_or_default(alloc, value)?;
    let parts = at(
        Key::Parts,
        parts_of(alloc, field(alloc, value, Key::Parts)?, version),
    )?;
    let Ok(count) = u32::try_from(parts.len()) else {
        return Err(ScenarioFault::NoMemory);
    };
    let inside = field(alloc, value, Key::Threads)?;
    let threads = at(Key::Threads, threads_of(alloc, inside, count))?;
    Ok(Scenario {
        schedule,
        parts,
        threads,
    })
}

/// The schedule, or round robin if none is given.
fn schedule_or_default(alloc: Global, value: &Value) -> Result<ScheduleSpec, ScenarioFault>
    ensures { Gives result
        (optional key.Schedule schedule_of schedule.RoundRobin (view value.now)) }
{
    match value.get(key_text(Key::Schedule)) {
        None => Ok(ScheduleSpec::RoundRobin),
        Some(inside) => at(Key::Schedule, schedule_of(alloc, inside)),
    }
}
