//! Schedules.

ghost use Rattle.std.specs.Prelude.{◌≡◌};
ghost use Rattle.serde_json.specs.View.{view};
ghost use Rattle.input_defs.specs.Reading.{named_of};
ghost use Rattle.input_defs.specs.ScenarioReading.{schedule_by, schedule_of};
ghost use Rattle.input_defs.specs.ScheduleNames.{schedule_named};
ghost use Rattle.input_defs.specs.Views.Readings.{picks_of};
ghost use Rattle.scenario_read.specs.Gives.{Gives};

use crate::fields::{check_keys, check_object, field, number_at};
use crate::keys::schedule_keys;
use crate::lists::{PickReader, read_list};
use crate::stop::{ScenarioFault, at, bad_here};
use asm_defs::keys::Key;
use input_defs::input::InputFault;
use input_defs::schedules::{ScheduleName, schedule_named};
use nook_data::lists::Picks;
use nook_data::scenario::ScheduleSpec;
use serde_json::Value;
use std::alloc::Global;

/// A schedule: its kind and the keys of that kind.
#[tactic(auto, unfolding(input_defs::specs::ScenarioReading::schedule_of))]
pub fn schedule_of(alloc: Global, value: &Value) -> Result<ScheduleSpec, ScenarioFault>
    ensures { Gives result (schedule_of (view value.now)) }
{
    check_object(alloc, value)?;
    let name = at(
        Key::Kind,
        schedule_name(alloc, field(alloc, value, Key::Kind)?),
    )?;
    check_keys(alloc, value, schedule_keys(name))?;
    schedule_by(alloc, value, name)
}

/// The name of a kind of schedule.
fn schedule_name(alloc: Global, value: &Value) -> Result<ScheduleName, ScenarioFault>
    ensures { Gives result (named_of schedule_named (view value.now)) }
{
    match value.as_str().and_then(schedule_named) {
        None => bad_here(alloc, InputFault::WrongKind),
        Some(name) => Ok(name),
    }
}

/// A schedule of a kind.
#[tactic(auto, unfolding(input_defs::specs::ScenarioReading::schedule_by))]
fn schedule_by(
    alloc: Global,
    value: &Value,
    name: ScheduleName,
) -> Result<ScheduleSpec, ScenarioFault>
    ensures { Gives result (schedule_by name (view value.now)) }
{
    match name {
        ScheduleName::RoundRobin => Ok(ScheduleSpec::RoundRobin),
        ScheduleName::Drawn => {
            let start = number_at(alloc, value, Key::Start, 0, u64::MAX)?;
            Ok(ScheduleSpec::Drawn { start })
        }
        ScheduleName::Listed => {
            let picks = at(
                Key::Picks,
                picks_of(alloc, field(alloc, value, Key::Picks)?),
            )?;
            Ok(ScheduleSpec::Listed { picks })
        }
    }
}

/// Up to 65,536 picks.
fn picks_of(alloc: Global, value: &Value) -> Result<Picks, ScenarioFault>
    ensures { Gives result (picks_of (view value.now)) }
{
    read_list(alloc, &PickReader, value, 0, 65_536)
}
