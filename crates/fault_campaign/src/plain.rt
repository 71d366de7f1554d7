//! Plain campaigns: one fault for each member, without guard and detail.

ghost use Rattle.std.specs.Prelude.{◌≡◌, IfOk};
ghost use Rattle.campaign_defs.specs.TableText.{counts_of};
ghost use Rattle.fault_campaign.specs.Plain.{plain_plan};
ghost use Rattle.nook_data.specs.Members.{IsValidCampaign};
ghost use Rattle.report_defs.specs.Campaigns.{IsTable};

use crate::base::base_of;
use crate::every::each_alone;
use crate::known::nothing_known;
use crate::running::{Seen, run_members};
use campaign_defs::row::Row;
use nook_data::campaign::{Campaign, Table};
use nook_data::lists::{Items, TryCopy};
use nook_data::memory::NoMemory;
use plan_defs::plan::{Plan, Strikes};
use std::alloc::Global;
use std::thread::Threads;

/// Runs a campaign and returns its table, which has one row for each fault, in order: that of the scheduled run of the
/// base with this fault after the struck part's own. The members run concurrently; the table is the same as with one
/// thread, for any number of processors.
///
/// # Errors
///
/// Out of memory.
pub fn run_campaign<R: Threads + Sync>(
    rt: &R,
    alloc: Global,
    campaign: &Campaign,
) -> Result<Table, NoMemory>
    requires { IsValidCampaign campaign.now }
    ensures { IfOk result (IsTable campaign.now) }
{
    let plan = plain_plan(alloc, campaign)?;
    let base = base_of(alloc, &plan)?;
    let members = each_alone(alloc, campaign.faults.as_slice())?;
    let known = nothing_known(&base.row);
    let seen = Seen {
        shown: &base.shown,
        known: &known,
    };
    let rows = run_members(rt, alloc, &plan, seen, members.as_slice())?;
    counts_of(alloc, rows.as_slice())
}

/// A plain campaign as a plan.
fn plain_plan(alloc: Global, campaign: &Campaign) -> Result<Plan, NoMemory>
    ensures { IfOk result (λ plan. plan ≡ plain_plan campaign.now) }
{
    Ok(Plan {
        base: campaign.base.copy(alloc)?,
        part: campaign.part,
        strikes: Strikes::Faults(campaign.faults.copied(alloc)?),
        guard: false,
        detail: false,
    })
}

/// The counts of rows.
fn counts_of(alloc: Global, rows: &[Row]) -> Result<Table, NoMemory>
    ensures { IfOk result (λ table. table ≡ counts_of rows.now) }
{
    let mut table = Items::new(alloc);
    for row in rows {
        table.push(row.counts)?;
    }
    Ok(table)
}
