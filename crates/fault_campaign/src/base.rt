//! The run of the base: the members' runs are compared with it, and it determines where more faults strike.

ghost use Rattle.std.specs.Prelude.{◌≡◌, IfOk, drop};
ghost use Rattle.fault_campaign.specs.Bases.{IsBaseOf, ArePointsOf};
ghost use Rattle.fault_campaign.specs.Outcomes.{IsOutcomeOf};
ghost use Rattle.nook_data.specs.Members.{faults_at};
ghost use Rattle.plan_defs.specs.Plans.{IsValidPlan};

use crate::outcome::{Outcome, run_under};
use campaign_defs::row::Row;
use campaign_rows::{Shown, plan_row, shown_of};
use fault_points::{BurstPoints, points_of};
use nook_data::lists::Items;
use nook_data::memory::NoMemory;
use nook_data::scenario::{Fault, PartSpec};
use part_core::LeftRooms;
use plan_defs::plan::Plan;
use std::alloc::Global;

/// The base's run: its answers and final states, its row, and the bursts of the struck part with the instructions
/// before which one more fault strikes.
#[derive(Drop)]
pub struct Base {
    pub shown: Shown,
    pub row: Row,
    pub points: Items<BurstPoints>,
}

/// Runs the base of a campaign.
///
/// # Errors
///
/// Out of memory.
pub fn base_of(alloc: Global, plan: &Plan) -> Result<Base, NoMemory>
    requires { IsValidPlan plan.now }
    ensures { IfOk result (IsBaseOf plan.now) }
{
    let mut left = LeftRooms::none(alloc);
    let outcome = run_under(alloc, plan.guard, &plan.base, &mut left)?;
    let scenario = outcome.scenario(&plan.base);
    let shown = shown_of(alloc, scenario, &outcome.report)?;
    let traps = outcome.trap_count();
    let row = plan_row(alloc, plan, &shown, scenario, &outcome.report, traps)?;
    let points = struck_points(alloc, plan, &outcome)?;
    Ok(Base { shown, row, points })
}

/// Where one more fault strikes in the struck part's run.
fn struck_points(
    alloc: Global,
    plan: &Plan,
    outcome: &Outcome,
) -> Result<Items<BurstPoints>, NoMemory>
    requires valid { IsValidPlan plan.now }
    requires outcome { IsOutcomeOf plan.now.guard plan.now.base outcome.now }
    ensures { IfOk result (ArePointsOf plan.now) }
{
    let index = plan.part as usize;
    let spec = plan.base.parts.get(index);
    let journal = outcome.report.run.journals.get(index);
    let run = outcome.scenario(&plan.base).parts.as_slice();
    let traps = from(faults_at(run, index), spec.faults.len());
    points_of(alloc, spec, journal.as_slice(), traps)
}

/// The faults of part `index`.
fn faults_at(parts: &[PartSpec], index: usize) -> &[Fault]
    ensures { result.now ≡ faults_at parts.now index }
{
    match parts.get(index) {
        Some(part) => part.faults.as_slice(),
        None => &[],
    }
}

/// The faults from an index on.
fn from(faults: &[Fault], index: usize) -> &[Fault]
    ensures { result.now ≡ drop index faults.now }
{
    if index < faults.len() {
        &faults[index..]
    } else {
        &[]
    }
}
