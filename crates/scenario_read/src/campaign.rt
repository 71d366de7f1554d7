//! Campaigns: a scenario, one of its parts, and the faults that strike that part.

ghost use Rattle.std.specs.Prelude.{◌≡◌, ℕ, ◌-◌, ◌<◌, ◌^◌, List, IfOk, length, nat_lt};
ghost use Rattle.serde_json.specs.View.{view};
ghost use Rattle.input_defs.specs.CampaignReading.{campaign_from, campaign_of, check_base, check_ops, check_own_faults};
ghost use Rattle.input_defs.specs.PlanReading.{check_count};
ghost use Rattle.nook_data.specs.Members.{IsValidCampaign, faults_at, ops_count};
ghost use Rattle.input_defs.specs.Reading.{number_at, refuse_if, required};
ghost use Rattle.input_defs.specs.ScenarioReading.{scenario_of};
ghost use Rattle.nook_data.specs.declared.scenario.Fault.{Fault};
ghost use Rattle.asm_defs.specs.declared.keys.Key.TheVariants as key;
ghost use Rattle.input_defs.specs.declared.input.InputFault.TheVariants as fault;
ghost use Rattle.scenario_read.specs.Gives.{Gives};

use crate::faults::member_faults_of;
use crate::fields::{check_keys, field, number_at};
use crate::scenario::{json_of, scenario_of};
use crate::stop::{ScenarioFault, at, bad_here, within};
use asm_defs::keys::Key;
use input_defs::input::{InputFault, PathStep};
use nook_data::campaign::Campaign;
use nook_data::limits::{MOST_CAMPAIGN_OPS, MOST_FAULTS};
use nook_data::scenario::{PartSpec, Scenario, ThreadSpec};
use serde_json::Value;
use std::alloc::Global;

/// Reads the campaign of a JSON text. It is within its limits.
///
/// # Errors
///
/// `Bad` with the first input error and its path; `NoMemory` if memory runs out. Errors in the scenario come first,
/// then the part, the faults, the number of operations of all threads, and the number of the part's own faults.
#[tactic(auto, unfolding(input_defs::specs::CampaignReading::campaign_from), using(crate::proofs::ValidRead::valid_campaign))]
pub fn read_campaign(alloc: Global, bytes: &[u8]) -> Result<Campaign, ScenarioFault>
    ensures gives { Gives result (campaign_from bytes.now) }
    ensures valid { IfOk result IsValidCampaign }
{
    let value = json_of(alloc, bytes)?;
    campaign_of(alloc, &value)
}

/// A campaign: its scenario, the index of the struck part and the faults, followed by the scenario's limits.
#[tactic(auto, unfolding(input_defs::specs::CampaignReading::campaign_of))]
fn campaign_of(alloc: Global, value: &Value) -> Result<Campaign, ScenarioFault>
    ensures { Gives result (campaign_of (view value.now)) }
{
    check_keys(alloc, value, &[Key::Base, Key::Part, Key::Faults])?;
    let base = base_of(alloc, value)?;
    let part = struck_part(alloc, value, &base)?;
    let inside = field(alloc, value, Key::Faults)?;
    let faults = at(Key::Faults, member_faults_of(alloc, inside))?;
    check_base(alloc, &base, part)?;
    Ok(Campaign { base, part, faults })
}

/// The scenario of a campaign.
pub fn base_of(alloc: Global, value: &Value) -> Result<Scenario, ScenarioFault>
    ensures { Gives result (required key.Base scenario_of (view value.now)) }
{
    let inside = field(alloc, value, Key::Base)?;
    at(Key::Base, scenario_of(alloc, inside))
}

/// The index of the struck part in a campaign's scenario.
pub fn struck_part(alloc: Global, value: &Value, base: &Scenario) -> Result<u32, ScenarioFault>
    ensures gives { Gives result
        (number_at key.Part 0 (length base.now.parts - 1) (view value.now)) }
    ensures few_parts { IfOk result (λ _. length base.now.parts < 2 ^ 32) }
{
    let Ok(count) = u32::try_from(base.parts.len()) else {
        return Err(ScenarioFault::NoMemory);
    };
    let last = count.saturating_sub(1);
    let part = number_at(alloc, value, Key::Part, 0, u64::from(last))?;
    Ok(part as u32)
}

/// Checks that a campaign may run all operations, and that the part with this index has room for one more fault.
fn check_base(alloc: Global, base: &Scenario, part: u32) -> Result<(), ScenarioFault>
    ensures { Gives result (check_base base.now part) }
{
    check_ops(alloc, base.threads.as_slice())?;
    let own = own_fault_count(base.parts.as_slice(), part as usize);
    check_faults(alloc, part, own >= MOST_FAULTS)
}

/// Checks that the threads have at most 64 operations in all.
pub fn check_ops(alloc: Global, threads: &[ThreadSpec]) -> Result<(), ScenarioFault>
    ensures { Gives result (check_ops threads.now) }
{
    let checked = refuse_if(alloc, has_many_ops(threads));
    at(Key::Base, at(Key::Threads, checked))
}

/// Refuses too many faults of the part with this index.
pub fn check_faults(alloc: Global, part: u32, too_many: bool) -> Result<(), ScenarioFault>
    ensures own { (own : List Fault) → too_many ≡ nat_lt (MOST_FAULTS - 1) (length own)
        → Gives result (check_own_faults part own) }
    ensures count { (count : ℕ) → too_many ≡ nat_lt MOST_FAULTS count
        → Gives result (check_count part count) }
{
    let checked = at(Key::Faults, refuse_if(alloc, too_many));
    at(
        Key::Base,
        at(Key::Parts, within(PathStep::Position(part), checked)),
    )
}

/// Refuses what is too long.
fn refuse_if(alloc: Global, too_long: bool) -> Result<(), ScenarioFault>
    ensures { Gives result (refuse_if too_long fault.TooMany) }
{
    if too_long {
        return bad_here(alloc, InputFault::TooMany);
    }
    Ok(())
}

/// Whether the threads have more than 64 operations in all.
#[tactic(auto, using(crate::proofs::OpCounts::one_thread, crate::proofs::OpCounts::fewer_left, crate::proofs::OpCounts::none_left))]
fn has_many_ops(threads: &[ThreadSpec]) -> bool
    ensures { result ≡ nat_lt MOST_CAMPAIGN_OPS (ops_count threads.now) }
{
    let mut left = MOST_CAMPAIGN_OPS;
    for thread in threads {
        let count = thread.ops.len();
        if left < count {
            return true;
        }
        left -= count;
    }
    false
}

/// The number of own faults of the part with this index, or 0 if there is no such part.
pub fn own_fault_count(parts: &[PartSpec], index: usize) -> usize
    ensures { result ≡ length (faults_at parts.now index) }
{
    match parts.get(index) {
        None => 0,
        Some(part) => part.faults.len(),
    }
}
