//! Runs members concurrently.

ghost use Rattle.std.specs.Prelude.{All, IfOk};
ghost use Rattle.campaign_defs.specs.Members.{CanRunMember, CanRunUnder};
ghost use Rattle.fault_campaign.specs.Known.{IsRight};
ghost use Rattle.fault_campaign.specs.Members.{IsBaseButStruck};
ghost use Rattle.fault_campaign.specs.Outcomes.{IsRowOver};
ghost use Rattle.fault_campaign.specs.NumberedRows.{AreRowsFor, AreSlots, IsRowFor, IsShare, IsSlotOf};
ghost use Rattle.plan_defs.specs.Plans.{IsValidPlan};

use crate::known::{Known, known_row, needs_run};
use crate::member::strike;
use crate::outcome::run_under;
use crate::placing::{NumberedRow, Share, put_all};
use campaign_defs::row::{Row, Rows};
use campaign_rows::{Shown, plan_row};
use nook_data::lists::{Items, TryCopy};
use nook_data::memory::NoMemory;
use nook_data::scenario::{Faults, Scenario};
use part_core::LeftRooms;
use plan_defs::plan::Plan;
use rayon::current_num_threads;
use std::alloc::{AllocError, Global};
use std::sync::atomic::{AtomicUsize, Ordering};
use std::thread::{Threads, map_indices};

/// What the base's run showed, and what is therefore known of the members.
#[derive(Clone, Copy)]
pub struct Seen<'a> {
    pub shown: &'a Shown,
    pub known: &'a Known<'a>,
}

/// Runs members, each given by its faults, and returns their rows in the same order. `shown` is what the base's run
/// showed. Members whose rows are known are not run. The members run concurrently; the rows are the same as with one
/// thread, for any number of processors.
///
/// # Errors
///
/// Out of memory.
pub fn run_members<R: Threads + Sync>(
    rt: &R,
    alloc: Global,
    plan: &Plan,
    seen: Seen<'_>,
    members: &[Faults],
) -> Result<Rows, NoMemory>
    requires valid { IsValidPlan plan.now }
    requires right { IsRight plan.now seen.shown.now seen.known.now }
    requires can_run { All (CanRunMember plan.now) members.now }
    ensures { IfOk result (AreRowsFor plan.now seen.entry.shown.now members.now) }
{
    let shares = share_members(rt, alloc, plan, seen, members)?;
    let slots = put_all(alloc, members.len(), shares.as_slice())?;
    let rows = fill_rows(alloc, plan, seen, members, slots.as_slice())?;
    Ok(Items::from_vec(rows))
}

/// Runs members with a worker for each processor. A worker that has ended a member takes the next, so no processor is
/// idle while members remain.
fn share_members<R: Threads + Sync>(
    rt: &R,
    alloc: Global,
    plan: &Plan,
    seen: Seen<'_>,
    members: &[Faults],
) -> Result<Vec<Share>, AllocError>
    requires valid { IsValidPlan plan.now }
    requires can_run { All (CanRunMember plan.now) members.now }
    ensures { IfOk result
        (λ shares. All (IsShare plan.now seen.entry.shown.now members.now) shares.items) }
{
    let next = AtomicUsize::new(0);
    let workers = current_num_threads(rt).min(members.len());
    map_indices(
        rt,
        alloc,
        workers,
        &|_worker: usize| -> Share
            requires { IsValidPlan plan.now × All (CanRunMember plan.now) members.now }
            ensures { IsShare plan.entry.now seen.entry.shown.now members.entry.now result }
        { work(alloc, plan, seen, members, &next) },
    )
}

/// Takes the next member and runs it if its row is not known, until none remains.
fn work(alloc: Global, plan: &Plan, seen: Seen<'_>, members: &[Faults], next: &AtomicUsize) -> Share
    requires valid { IsValidPlan plan.now }
    requires can_run { All (CanRunMember plan.now) members.now }
    ensures { IsShare plan.now seen.entry.shown.now members.now result }
{
    let mut scenario = plan.base.copy(alloc)?;
    let mut left = LeftRooms::none(alloc);
    let mut rows = Items::new(alloc);
    for _ in 0..members.len() {
        let index = next.fetch_add(1, Ordering::Relaxed);
        if index >= members.len() {
            break;
        }
        if !needs_run(seen.known, members, index) {
            continue;
        }
        let faults = &members[index];
        let row = run_member(alloc, plan, seen.shown, faults, &mut scenario, &mut left)?;
        rows.push(NumberedRow { index, row })?;
    }
    Ok(rows)
}

/// The rows of the members: those that are known, and those in the slots that the workers filled.
fn fill_rows(
    alloc: Global,
    plan: &Plan,
    seen: Seen<'_>,
    members: &[Faults],
    slots: &[Option<Row>],
) -> Result<Vec<Row>, NoMemory>
    requires valid { IsValidPlan plan.now }
    requires right { IsRight plan.now seen.shown.now seen.known.now }
    requires can_run { All (CanRunMember plan.now) members.now }
    requires slots { AreSlots plan.now seen.shown.now members.now slots.now }
    ensures { IfOk result
        (λ rows. AreRowsFor plan.now seen.entry.shown.now members.now rows.items) }
{
    let mut rows = Vec::with_capacity(alloc, members.len())?;
    for index in 0..members.len() {
        let known = known_row(seen.known, members, rows.as_slice(), index).or(slots[index]);
        let row = fill_row(alloc, plan, seen.shown, &members[index], known)?;
        rows.push(row)?;
    }
    Ok(rows)
}

/// The row of the member with these faults, which is mostly known by now; a member that no worker took would be run
/// here.
fn fill_row(
    alloc: Global,
    plan: &Plan,
    shown: &Shown,
    faults: &Faults,
    known: Option<Row>,
) -> Result<Row, NoMemory>
    requires valid { IsValidPlan plan.now }
    requires can_run { CanRunMember plan.now faults.now }
    requires known { IsSlotOf plan.now shown.now faults.now known }
    ensures { IfOk result (IsRowFor plan.now shown.now faults.now) }
{
    match known {
        Some(row) => Ok(row),
        None => {
            let mut scenario = plan.base.copy(alloc)?;
            let mut left = LeftRooms::none(alloc);
            run_member(alloc, plan, shown, faults, &mut scenario, &mut left)
        }
    }
}

/// The row of the member with these faults. The scenario, which is the base or another member's, becomes this member's.
fn run_member(
    alloc: Global,
    plan: &Plan,
    shown: &Shown,
    faults: &Faults,
    scenario: &mut Scenario,
    left: &mut LeftRooms,
) -> Result<Row, NoMemory>
    requires valid { IsValidPlan plan.now }
    requires can_run { CanRunMember plan.now faults.now }
    requires scenario { IsBaseButStruck plan.now scenario.old }
    ensures row { IfOk result (IsRowFor plan.now shown.now faults.now) }
    ensures scenario { IsBaseButStruck plan.now scenario.new }
{
    strike(alloc, plan, faults.as_slice(), scenario)?;
    run_row(alloc, plan, shown, scenario, left)
}

/// The row of the run that a campaign makes of a scenario.
fn run_row(
    alloc: Global,
    plan: &Plan,
    shown: &Shown,
    scenario: &Scenario,
    left: &mut LeftRooms,
) -> Result<Row, NoMemory>
    requires { CanRunUnder plan.now.guard scenario.now }
    ensures { IfOk result (IsRowOver plan.now shown.now scenario.now) }
{
    let outcome = run_under(alloc, plan.guard, scenario, left)?;
    plan_row(
        alloc,
        plan,
        shown,
        outcome.scenario(scenario),
        &outcome.report,
        outcome.trap_count(),
    )
}
