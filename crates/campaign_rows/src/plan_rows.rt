//! The row of a run of a campaign, from the report of the run.

ghost use Rattle.std.specs.Prelude.{◌≡◌, IfOk};
ghost use Rattle.campaign_defs.specs.Members.{Ran};
ghost use Rattle.campaign_defs.specs.Rows.{detail_of, if_asked, plan_row};
ghost use Rattle.campaign_rows.specs.Shown.{IsShown, Shows};

use crate::detail::detail_of;
use crate::shown::Shown;
use campaign_defs::row::{Detail, Row};
use nook_data::memory::NoMemory;
use nook_data::scenario::Scenario;
use plan_defs::plan::Plan;
use run_results::{Report, row_of};
use std::alloc::Global;

/// The row of a report's run. `base` has the answers and final states of the base's run; the guard set `traps` traps.
pub fn plan_row(
    alloc: Global,
    plan: &Plan,
    base: &Shown,
    scenario: &Scenario,
    report: &Report,
    traps: u64,
) -> Result<Row, NoMemory>
    ensures { (own ran : Ran) → IsShown own base.now → Shows ran scenario.now report.now
        → traps ≡ ran.traps
        → IfOk result (λ row. row ≡ plan_row plan.now own ran) }
{
    let counts = row_of(report)?;
    let detail = detail_asked(alloc, plan, base, scenario, report)?;
    Ok(Row {
        counts,
        detail,
        traps: plan.guard.then_some(traps),
    })
}

/// The detail, if the campaign asks for it.
fn detail_asked(
    alloc: Global,
    plan: &Plan,
    base: &Shown,
    scenario: &Scenario,
    report: &Report,
) -> Result<Option<Detail>, NoMemory>
    ensures { (own ran : Ran) → IsShown own base.now → Shows ran scenario.now report.now
        → IfOk result (λ detail. detail ≡ if_asked plan.now.detail
        (detail_of plan.now.part own ran)) }
{
    if !plan.detail {
        return Ok(None);
    }
    let detail = detail_of(alloc, plan.part as usize, base, scenario, report)?;
    Ok(Some(detail))
}
