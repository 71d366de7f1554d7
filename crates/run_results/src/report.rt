//! What a run produced, with the final state of its parts and a summary of each.

ghost use Rattle.std.specs.Prelude.{◌≡◌, ◌++◌, IfOk, OnOk};
ghost use Rattle.promise_defs.specs.Contract.{first_break};
ghost use Rattle.promise_defs.specs.Losses.{losses};
ghost use Rattle.run_results.specs.Statuses.{status_number};
ghost use Rattle.run_results.specs.Reports.{HaveEnds, IsReport, is_broken, is_gone, status_in, summaries, summary};

use crate::run::Run;
use crate::status::ReportStatus;
use contract_monitor::Monitor;
use nook_data::journal::Journal;
use nook_data::lists::{Frames, Items};
use nook_data::memory::NoMemory;
use nook_data::scenario::{PartSpec, Scenario};
use nook_data::steps::Event;
use nook_data::verdicts::{Break, Losses};
use std::alloc::Global;

/// The final state of a part: kernel objects 1 to 12, the medium, the last acknowledged configuration, the failures.
#[derive(Drop)]
pub struct PartEnd {
    pub objects: Frames,
    pub medium: Frames,
    pub config: [u32; 4],
    pub failures: u32,
}

/// The summary of a part.
#[derive(Clone, Copy)]
pub struct PartReport {
    pub losses: Losses,
    pub first_break: Option<Break>,
    pub failures: u32,
}

/// The final state of each part.
pub type PartEnds = Items<PartEnd>;
/// The summary of each part.
pub type PartReports = Items<PartReport>;

/// A run, the final states and summaries of its parts, and the status.
pub struct Report {
    pub run: Run,
    pub ends: PartEnds,
    pub parts: PartReports,
    pub status: u32,
}

impl Drop for Report {
    /// Written by hand, so that it is proved once and not in each function that owns a report.
    fn drop(self) {
        let Report {
            run: _,
            ends: _,
            parts: _,
            status: _,
        } = self;
    }
}

/// Summarizes a run: the losses, the first break and the failures of each part; and the status, which is 7 if a part
/// broke its contract, else 1 if a part was given up, else 0. It is the report of the run if each part ends in the
/// state that its journal leads to.
pub fn report_of(
    alloc: Global,
    scenario: &Scenario,
    run: Run,
    ends: PartEnds,
) -> Result<Report, NoMemory>
    ensures run { IfOk result (λ report. report.run ≡ run) }
    ensures ends { IfOk result (λ report. report.ends ≡ ends) }
    ensures parts { IfOk result
        (λ report. report.parts ≡ summaries scenario.now.parts run.journals ends) }
    ensures status { IfOk result
        (λ report. report.status ≡ status_in scenario.now.parts report.parts) }
    ensures whole { HaveEnds scenario.now.parts run.journals ends
        → IfOk result (λ report. IsReport scenario.now report) }
{
    let specs = scenario.parts.as_slice();
    let mut parts = Items::new(alloc);
    sum_up(
        alloc,
        specs,
        run.journals.as_slice(),
        ends.as_slice(),
        &mut parts,
    )?;
    let status = status_in(specs, parts.as_slice()).number();
    Ok(Report {
        run,
        ends,
        parts,
        status,
    })
}

/// Adds the summary of each part.
fn sum_up(
    alloc: Global,
    specs: &[PartSpec],
    journals: &[Journal],
    ends: &[PartEnd],
    parts: &mut PartReports,
) -> Result<(), NoMemory>
    ensures { OnOk result (parts.new ≡ parts.old ++ summaries specs.now journals.now ends.now) }
{
    let Some((spec, more_specs)) = specs.split_first() else {
        return Ok(());
    };
    let Some((journal, more_journals)) = journals.split_first() else {
        return Ok(());
    };
    let Some((end, more_ends)) = ends.split_first() else {
        return Ok(());
    };
    parts.push(sum_part(alloc, spec, journal.as_slice(), end)?)?;
    sum_up(alloc, more_specs, more_journals, more_ends, parts)
}

/// The summary of a part.
fn sum_part(
    alloc: Global,
    spec: &PartSpec,
    events: &[Event],
    end: &PartEnd,
) -> Result<PartReport, NoMemory>
    ensures { IfOk result (λ part. part ≡ summary spec.now events.now end.now) }
{
    let judged = judge(alloc, spec, events)?;
    Ok(PartReport {
        losses: judged.0,
        first_break: judged.1,
        failures: end.failures,
    })
}

/// The losses in some events of a part, and the first break.
fn judge(
    alloc: Global,
    spec: &PartSpec,
    events: &[Event],
) -> Result<(Losses, Option<Break>), NoMemory>
    ensures { IfOk result (λ judged. judged
        ≡ (losses events.now, first_break spec.now.class spec.now.blocks events.now)) }
{
    let monitor = Monitor::of_events(alloc, spec.class, spec.blocks, events)?;
    Ok((monitor.losses(), monitor.first_break()))
}

/// The status of a run.
fn status_in(specs: &[PartSpec], parts: &[PartReport]) -> ReportStatus
    ensures { status_number result ≡ status_in specs.now parts.now }
{
    ReportStatus::of(is_broken(parts), is_gone(specs, parts))
}

/// Whether a part broke its contract.
fn is_broken(parts: &[PartReport]) -> bool
    ensures { result ≡ is_broken parts.now }
{
    for part in parts {
        if part.first_break.is_some() {
            return true;
        }
    }
    false
}

/// Whether a part was given up.
fn is_gone(specs: &[PartSpec], parts: &[PartReport]) -> bool
    ensures { result ≡ is_gone specs.now parts.now }
{
    for i in 0..specs.len() {
        if parts.len() <= i {
            return false;
        }
        if specs[i].limit < parts[i].failures {
            return true;
        }
    }
    false
}
