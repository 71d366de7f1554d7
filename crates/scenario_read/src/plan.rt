//! Campaigns with members, kinds of fault, a guard and details.

ghost use Rattle.std.specs.Prelude.{◌≡◌, ◌+◌, ◌<◌, ◌^◌, IfOk, length, nat_lt};
ghost use Rattle.serde_json.specs.View.{view};
ghost use Rattle.asm_defs.specs.declared.keys.Key.TheVariants as key;
ghost use Rattle.input_defs.specs.PlanReading.{check_base, check_choice, check_count, check_guard, check_traps};
ghost use Rattle.input_defs.specs.PlanReading.{has_key, plan_from, plan_of};
ghost use Rattle.plan_defs.specs.Plans.{IsValidPlan, more_faults};
ghost use Rattle.scenario_read.specs.Gives.{Gives};

use crate::campaign::{base_of, check_faults, check_ops, own_fault_count, struck_part};
use crate::fields::{check_keys, flag_or, has_key};
use crate::scenario::json_of;
use crate::stop::{ScenarioFault, at, bad_here};
use crate::strikes::{most_faults, strikes_of};
use asm_defs::keys::Key;
use input_defs::input::InputFault;
use nook_data::limits::MOST_FAULTS;
use nook_data::scenario::{PartSpec, Scenario};
use plan_defs::plan::Plan;
use serde_json::Value;
use std::alloc::Global;

/// Reads a campaign from JSON that may have the keys `members`, `every`, `guard` and `detail`. It is within its limits.
///
/// # Errors
///
/// `Bad` with the first input error and its path; `NoMemory` if memory runs out. An unknown key comes first, then the
/// second of the keys `faults`, `members` and `every`, then the scenario, the part, what strikes, `guard` and `detail`.
/// After these come the operations of all threads together, then the faults of the struck part with those of the
/// longest member, and with a guard the first part without room for its traps.
#[tactic(auto, unfolding(input_defs::specs::PlanReading::plan_from), using(crate::proofs::ValidRead::valid_plan))]
pub fn read_plan(alloc: Global, bytes: &[u8]) -> Result<Plan, ScenarioFault>
    ensures gives { Gives result (plan_from bytes.now) }
    ensures valid { IfOk result IsValidPlan }
{
    let value = json_of(alloc, bytes)?;
    plan_of(alloc, &value)
}

/// A campaign: its scenario, the index of the struck part, what strikes it and the options, followed by the limits.
#[tactic(auto, unfolding(input_defs::specs::PlanReading::plan_of))]
fn plan_of(alloc: Global, value: &Value) -> Result<Plan, ScenarioFault>
    ensures { Gives result (plan_of (view value.now)) }
{
    check_keys(
        alloc,
        value,
        &[
            Key::Base,
            Key::Part,
            Key::Faults,
            Key::Members,
            Key::Every,
            Key::Guard,
            Key::Detail,
        ],
    )?;
    check_choice(alloc, value)?;
    let base = base_of(alloc, value)?;
    let part = struck_part(alloc, value, &base)?;
    let strikes = strikes_of(alloc, value)?;
    let guard = flag_or(alloc, value, Key::Guard, false)?;
    let detail = flag_or(alloc, value, Key::Detail, false)?;
    check_base(alloc, &base, part, most_faults(&strikes), guard)?;
    Ok(Plan {
        base,
        part,
        strikes,
        guard,
        detail,
    })
}

/// Checks that at most one of the keys `faults`, `members` and `every` occurs.
fn check_choice(alloc: Global, value: &Value) -> Result<(), ScenarioFault>
    ensures { let d = view value.now in
        Gives result (check_choice (has_key key.Faults d) (has_key key.Members d)
        (has_key key.Every d)) }
{
    let faults = has_key(value, Key::Faults);
    let members = has_key(value, Key::Members);
    if faults && members {
        return at(Key::Members, bad_here(alloc, InputFault::UnknownKey));
    }
    if (faults || members) && has_key(value, Key::Every) {
        return at(Key::Every, bad_here(alloc, InputFault::UnknownKey));
    }
    Ok(())
}

/// Checks that a campaign may run all operations, and that the part with this index has room for `more` faults. With a
/// guard, each part must have room for its traps too.
fn check_base(
    alloc: Global,
    base: &Scenario,
    part: u32,
    more: usize,
    guard: bool,
) -> Result<(), ScenarioFault>
    requires { length base.now.parts < 2 ^ 32 }
    ensures { Gives result (check_base base.now part more guard) }
{
    check_ops(alloc, base.threads.as_slice())?;
    let own = own_fault_count(base.parts.as_slice(), part as usize);
    check_faults(alloc, part, are_many(own, more, 0))?;
    check_guard(alloc, base.parts.as_slice(), part, more, guard)
}

/// Checks, if there is a guard, that each part has room for the faults that it gets and for its traps.
fn check_guard(
    alloc: Global,
    parts: &[PartSpec],
    struck: u32,
    more: usize,
    guard: bool,
) -> Result<(), ScenarioFault>
    requires { length parts.now < 2 ^ 32 }
    ensures { Gives result (check_guard guard struck more parts.now) }
{
    if guard {
        check_traps(alloc, parts, struck, more)
    } else {
        Ok(())
    }
}

/// Checks that each part has room for the faults that it gets and for its traps.
#[tactic(auto, using(crate::proofs::Rooms::one_part))]
fn check_traps(
    alloc: Global,
    parts: &[PartSpec],
    struck: u32,
    more: usize,
) -> Result<(), ScenarioFault>
    requires { length parts.now < 2 ^ 32 }
    ensures { Gives result (check_traps struck more 0 parts.now) }
{
    let mut index = 0;
    for part in parts {
        let gets = more_faults(struck, more, index);
        check_room(alloc, part, index, gets)?;
        index += 1;
    }
    Ok(())
}

/// How many faults a part gets: `more` if it is the struck one, else 0.
fn more_faults(struck: u32, more: usize, index: u32) -> usize
    ensures { result ≡ more_faults struck more index }
{
    if index == struck { more } else { 0 }
}

/// Checks that the part with this index has room for `more` faults and for its traps.
fn check_room(alloc: Global, part: &PartSpec, index: u32, more: usize) -> Result<(), ScenarioFault>
    ensures { Gives result
        (check_count index (length part.now.faults + more + (part.now.limit + 1))) }
{
    let traps = part.limit as usize + 1;
    check_faults(alloc, index, are_many(part.faults.len(), more, traps))
}

/// Whether a part's own faults, those that it gets and its traps exceed 64.
#[tactic(auto, using(crate::proofs::Rooms::many))]
fn are_many(own: usize, more: usize, traps: usize) -> bool
    ensures { result ≡ nat_lt MOST_FAULTS (own + more + traps) }
{
    own.saturating_add(more).saturating_add(traps) > MOST_FAULTS
}
