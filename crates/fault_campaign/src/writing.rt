//! Runs a campaign and writes its table, batch by batch.

ghost use Rattle.std.specs.Prelude.{◌≡◌, ◌+◌, ◌^◌, ◌<◌, All, IfOk, List, map};
ghost use Rattle.campaign_defs.specs.Members.{CanRunMember, IsBaseRun, Ran, alone, members, runs_every};
ghost use Rattle.campaign_defs.specs.Rows.{IsPlanTable};
ghost use Rattle.campaign_defs.specs.TableText.{base_line, plan_table_text};
ghost use Rattle.campaign_defs.specs.Types.{Row};
ghost use Rattle.campaign_rows.specs.Shown.{IsShown};
ghost use Rattle.fault_campaign.specs.Bases.{ArePointsOf};
ghost use Rattle.fault_campaign.specs.Given.{GivesRows, GivesRowsOver};
ghost use Rattle.fault_campaign.specs.Known.{AreInstrsOf, IsBaseSeen, IsRight};
ghost use Rattle.fault_points.specs.Points.{faults_at};
ghost use Rattle.guard_defs.specs.Every.{faults_in};
ghost use Rattle.plan_defs.specs.Plans.{IsValidPlan};
ghost use Rattle.nook_io.specs.Changes.{change};
ghost use Rattle.report_text.specs.Writing.{Wrote};

use crate::base::base_of;
use crate::every::{each_alone, faults_in};
use crate::known::{Known, nothing_known};
use crate::running::{Seen, run_members};
use campaign_defs::row::Row;
use campaign_rows::{CampaignCounts, Shown, write_base_row, write_counts, write_rows};
use fault_points::BurstPoints;
use nook_data::lists::Items;
use nook_data::machine::Instr;
use nook_data::memory::NoMemory;
use nook_data::scenario::{Fault, FaultKind, Faults};
use nook_io::outside::Sink;
use plan_defs::plan::{Plan, Strikes};
use register_points::instrs_of_burst;
use report_text::WriteStop;
use std::alloc::Global;
use std::thread::Threads;

/// The members of a batch: their rows are stored until all of them have ended. Each batch starts its threads again,
/// so using small batches would cost more.
const BATCH: usize = 1024;

/// What is needed to run the members of a campaign.
#[derive(Drop)]
struct Runner<'a, R> {
    rt: &'a R,
    alloc: Global,
    plan: &'a Plan,
    /// The answers and final states of the base's run.
    shown: &'a Shown,
    /// The row of the base's run.
    base: &'a Row,
}

/// Consecutive instructions of a burst: `count` of them after the first `after` ones.
#[derive(Clone, Copy)]
struct Turns {
    burst: u32,
    after: u32,
    count: u32,
}

/// Runs a campaign and writes its table. The rows of a batch of up to 1,024 members are written as soon as these have
/// ended, and are then dropped: memory does not grow with the number of members.
///
/// # Errors
///
/// The sink failed, or memory ran out. The sink has then received a prefix of the table's text. A table whose numbers
/// do not fit in 64 bits ends as if memory had run out.
pub fn write_campaign<R: Threads + Sync, K: Sink>(
    rt: &R,
    alloc: Global,
    plan: &Plan,
    sink: &mut K,
) -> Result<(), WriteStop>
    requires { IsValidPlan plan.now }
    ensures { (base : Ran) (rows : List Row) → IsPlanTable plan.now base rows
        → Wrote (change K.held K.count sink.old sink.new) result
        (plan_table_text plan.now base rows) }
{
    let base = base_of(alloc, plan)?;
    write_first(alloc, plan, &base.row, sink)?;
    let run = Runner {
        rt,
        alloc,
        plan,
        shown: &base.shown,
        base: &base.row,
    };
    let mut totals = CampaignCounts::new();
    write_members(&run, base.points.as_slice(), &mut totals, sink)?;
    write_counts(alloc, sink, plan.guard, totals)
}

/// Writes the base's row, if every fault of some kinds is run.
fn write_first<K: Sink>(
    alloc: Global,
    plan: &Plan,
    row: &Row,
    sink: &mut K,
) -> Result<(), WriteStop>
    ensures { Wrote (change K.held K.count sink.old sink.new) result
        (base_line (runs_every plan.now.strikes) row.now) }
{
    match &plan.strikes {
        Strikes::Every(_) => write_base_row(alloc, sink, row),
        Strikes::Faults(_) | Strikes::Members(_) => Ok(()),
    }
}

/// Writes the rows of all members, and counts them.
fn write_members<R: Threads + Sync, K: Sink>(
    run: &Runner<'_, R>,
    points: &[BurstPoints],
    totals: &mut CampaignCounts,
    sink: &mut K,
) -> Result<(), WriteStop>
    requires valid { IsValidPlan run.now.plan.now }
    requires points { ArePointsOf run.now.plan.now points.now }
    requires base { IsBaseSeen run.now.plan.now run.now.shown.now run.now.base.now }
    ensures { (own : Ran) → IsBaseRun run.now.plan.now own → IsShown own run.now.shown.now
        → GivesRows run.now.plan.now own (members run.now.plan.now own)
        (change K.held K.count sink.old sink.new) totals.old totals.new result }
{
    match &run.plan.strikes {
        Strikes::Faults(faults) => {
            write_alone(
                run,
                faults.as_slice(),
                &nothing_known(run.base),
                totals,
                sink,
            )
        }
        Strikes::Members(members) => write_lists(run, members.as_slice(), totals, sink),
        Strikes::Every(kinds) => write_bursts(run, kinds.as_slice(), points, totals, sink),
    }
}

/// Writes the rows of the members with each fault of the given kinds in the given bursts, and counts them.
fn write_bursts<R: Threads + Sync, K: Sink>(
    run: &Runner<'_, R>,
    kinds: &[FaultKind],
    points: &[BurstPoints],
    totals: &mut CampaignCounts,
    sink: &mut K,
) -> Result<(), WriteStop>
    requires valid { IsValidPlan run.now.plan.now }
    requires base { IsBaseSeen run.now.plan.now run.now.shown.now run.now.base.now }
    requires can_run { All (CanRunMember run.now.plan.now)
        (map alone (faults_at kinds.now points.now)) }
    ensures { GivesRowsOver run.now.plan.now run.now.shown.now
        (map alone (faults_at kinds.now points.now))
        (change K.held K.count sink.old sink.new) totals.old totals.new result }
{
    let Some((first, more)) = points.split_first() else {
        return Ok(());
    };
    let turns = all_turns(first.burst, first.points);
    let instrs = instrs_in(run, first.burst)?;
    let known = Known {
        burst: first.burst,
        instrs: instrs.as_slice(),
        kinds: kinds.len(),
        base: run.base,
    };
    write_burst(run, kinds, turns, &known, totals, sink)?;
    write_bursts(run, kinds, more, totals, sink)
}

/// The instructions of a burst of the base's run, if the campaign has no guard.
fn instrs_in<R>(run: &Runner<'_, R>, burst: u32) -> Result<Items<Option<Instr>>, NoMemory>
    requires { IsValidPlan run.now.plan.now }
    ensures { IfOk result (AreInstrsOf run.now.plan.now burst) }
{
    if run.plan.guard {
        return Ok(Items::new(run.alloc));
    }
    instrs_of_burst(run.alloc, &run.plan.base, run.plan.part, burst)
}

/// The instructions of a burst, from the first on.
fn all_turns(burst: u32, count: u32) -> Turns
    ensures burst { result.burst ≡ burst }
    ensures after { result.after ≡ 0 }
    ensures count { result.count ≡ count }
    ensures few { result.after + result.count < 2 ^ 32 }
{
    Turns {
        burst,
        after: 0,
        count,
    }
}

/// Writes the rows of the members with each fault of the given kinds in a burst, before each of these instructions, and
/// counts them.
fn write_burst<R: Threads + Sync, K: Sink>(
    run: &Runner<'_, R>,
    kinds: &[FaultKind],
    turns: Turns,
    known: &Known<'_>,
    totals: &mut CampaignCounts,
    sink: &mut K,
) -> Result<(), WriteStop>
    requires valid { IsValidPlan run.now.plan.now }
    requires right { IsRight run.now.plan.now run.now.shown.now known.now }
    requires few { turns.after + turns.count < 2 ^ 32 }
    requires can_run { All (CanRunMember run.now.plan.now)
        (map alone (faults_in kinds.now turns.burst turns.after turns.count)) }
    ensures { GivesRowsOver run.now.plan.now run.now.shown.now
        (map alone (faults_in kinds.now turns.burst turns.after turns.count))
        (change K.held K.count sink.old sink.new) totals.old totals.new result }
{
    if turns.count == 0 {
        return Ok(());
    }
    let count = turns.count.min(turns_at_once(kinds.len()));
    let faults = faults_in(run.alloc, kinds, turns.burst, turns.after, count)?;
    write_alone(run, faults.as_slice(), known, totals, sink)?;
    let later = Turns {
        after: turns.after + count,
        count: turns.count - count,
        ..turns
    };
    write_burst(run, kinds, later, known, totals, sink)
}

/// How many instructions of a burst fit into a batch with this many kinds of fault: at least one.
fn turns_at_once(kinds: usize) -> u32
    ensures { 0 < result }
{
    if kinds == 0 || kinds > BATCH {
        return 1;
    }
    ((BATCH / kinds) as u32).max(1)
}

/// Writes the rows of the members with one fault each, and counts them.
fn write_alone<R: Threads + Sync, K: Sink>(
    run: &Runner<'_, R>,
    faults: &[Fault],
    known: &Known<'_>,
    totals: &mut CampaignCounts,
    sink: &mut K,
) -> Result<(), WriteStop>
    requires valid { IsValidPlan run.now.plan.now }
    requires right { IsRight run.now.plan.now run.now.shown.now known.now }
    requires can_run { All (CanRunMember run.now.plan.now) (map alone faults.now) }
    ensures { GivesRowsOver run.now.plan.now run.now.shown.now (map alone faults.now)
        (change K.held K.count sink.old sink.new) totals.old totals.new result }
{
    if faults.is_empty() {
        return Ok(());
    }
    let (batch, more) = faults.split_at(faults.len().min(BATCH));
    let members = each_alone(run.alloc, batch)?;
    write_batch(run, members.as_slice(), known, totals, sink)?;
    write_alone(run, more, known, totals, sink)
}

/// Writes the rows of members, each given by its faults, and counts them.
fn write_lists<R: Threads + Sync, K: Sink>(
    run: &Runner<'_, R>,
    members: &[Faults],
    totals: &mut CampaignCounts,
    sink: &mut K,
) -> Result<(), WriteStop>
    requires valid { IsValidPlan run.now.plan.now }
    requires can_run { All (CanRunMember run.now.plan.now) members.now }
    ensures { GivesRowsOver run.now.plan.now run.now.shown.now members.now
        (change K.held K.count sink.old sink.new) totals.old totals.new result }
{
    if members.is_empty() {
        return Ok(());
    }
    let (batch, more) = members.split_at(members.len().min(BATCH));
    write_batch(run, batch, &nothing_known(run.base), totals, sink)?;
    write_lists(run, more, totals, sink)
}

/// Runs a batch of members, writes their rows, and counts them.
fn write_batch<R: Threads + Sync, K: Sink>(
    run: &Runner<'_, R>,
    members: &[Faults],
    known: &Known<'_>,
    totals: &mut CampaignCounts,
    sink: &mut K,
) -> Result<(), WriteStop>
    requires valid { IsValidPlan run.now.plan.now }
    requires right { IsRight run.now.plan.now run.now.shown.now known.now }
    requires can_run { All (CanRunMember run.now.plan.now) members.now }
    ensures { GivesRowsOver run.now.plan.now run.now.shown.now members.now
        (change K.held K.count sink.old sink.new) totals.old totals.new result }
{
    let seen = Seen {
        shown: run.shown,
        known,
    };
    let rows = run_members(run.rt, run.alloc, run.plan, seen, members)?;
    let before = totals.members;
    totals.count_all(rows.as_slice())?;
    write_rows(run.alloc, sink, before + 1, rows.as_slice())
}
