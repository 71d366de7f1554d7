//! The row of a member, from the report of its run.

ghost use Rattle.std.specs.Prelude.{◌≡◌, ◌+◌, IfOk, map};
ghost use Rattle.run_results.specs.Sums.{lost_in};
ghost use Rattle.report_defs.specs.Campaigns.{gone_count, gone_in, is_gone_answer, row_of};
ghost use Rattle.run_defs.specs.Simulation.{events_count};
ghost use Rattle.nook_data.specs.declared.scenario.Scenario.{Scenario};
ghost use Rattle.run_results.specs.Reports.{IsReport, failures_in};
ghost use Rattle.run_results.specs.Journals.{AreRuns, events_in};

use crate::report::{PartReport, Report};
use crate::sums::add;
use nook_data::calls::{Answer, PartAnswers};
use nook_data::campaign::MemberRow;
use nook_data::journal::Journal;
use nook_data::memory::NoMemory;

/// The row of a run's report: its status, and the sums over its parts and threads. A sum that does not fit in 64 bits
/// is refused as if memory had run out; no run that fits in memory has such a sum.
pub fn row_of(report: &Report) -> Result<MemberRow, NoMemory>
    ensures { (scenario : Scenario) → IsReport scenario report.now
        → AreRuns scenario.parts (map events_in report.now.run.journals)
        → IfOk result (λ row. row ≡ row_of scenario.parts
        (map events_in report.now.run.journals) report.now.run.answers) }
{
    let events = count_events(report.run.journals.as_slice())?;
    let failures = count_failures(report.parts.as_slice())?;
    let gone = count_gone(report.run.answers.as_slice())?;
    let lost = count_lost(report.parts.as_slice())?;
    Ok(MemberRow {
        status: report.status,
        events,
        failures,
        gone,
        lost,
    })
}

/// The number of events in journals.
fn count_events(journals: &[Journal]) -> Result<u64, NoMemory>
    ensures { IfOk result (λ count. count ≡ events_count (map events_in journals.now)) }
{
    let mut count = 0;
    for journal in journals {
        count = add(count, journal.len() as u64)?;
    }
    Ok(count)
}

/// The number of failures of parts.
fn count_failures(parts: &[PartReport]) -> Result<u64, NoMemory>
    ensures { IfOk result (λ count. count ≡ failures_in parts.now) }
{
    let mut count = 0;
    for part in parts {
        count = add(count, u64::from(part.failures))?;
    }
    Ok(count)
}

/// The number of answers Gone of all threads.
pub fn count_gone(answers: &[PartAnswers]) -> Result<u64, NoMemory>
    ensures { IfOk result (λ count. count ≡ gone_count answers.now) }
{
    let mut count = 0;
    for own in answers {
        count = add(count, count_own_gone(own.as_slice())?)?;
    }
    Ok(count)
}

/// The number of answers Gone of a thread.
fn count_own_gone(answers: &[(u32, Answer)]) -> Result<u64, NoMemory>
    ensures { IfOk result (λ count. count ≡ gone_in answers.now) }
{
    let mut count = 0;
    for reported in answers {
        if is_gone(&reported.1) {
            count = add(count, 1)?;
        }
    }
    Ok(count)
}

/// Whether an answer is Gone.
fn is_gone(answer: &Answer) -> bool
    ensures { result ≡ is_gone_answer answer.now }
{
    matches!(answer, Answer::Gone { .. })
}

/// The number of sends and samples that parts lost, and of their answers Busy.
fn count_lost(parts: &[PartReport]) -> Result<u64, NoMemory>
    ensures { IfOk result (λ count. count ≡ lost_in parts.now) }
{
    let mut count = 0;
    for part in parts {
        let lost = add(
            add(part.losses.sends, part.losses.samples)?,
            part.losses.busy,
        )?;
        count = add(count, lost)?;
    }
    Ok(count)
}
