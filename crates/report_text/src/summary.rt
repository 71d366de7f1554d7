//! The one line of a generated scenario.

ghost use Rattle.report_defs.specs.ReportText.{gen_line};
ghost use Rattle.std.specs.Prelude.{◌≡◌, ◌++◌, OnOk};
ghost use Rattle.nook_io.specs.Changes.{change};
ghost use Rattle.run_results.specs.Statuses.{status_number};
ghost use Rattle.report_text.specs.Writing.{Wrote};

use crate::line::Line;
use crate::write::WriteStop;
use nook_data::memory::NoMemory;
use nook_io::outside::Sink;
use nook_io::whole::write_all;
use run_results::ReportStatus;
use std::alloc::Global;

/// What the line of a generated scenario reports: its number, the events and failures of all its parts, and the status
/// that its report would have.
#[derive(Clone, Copy)]
pub struct Summary {
    pub number: u32,
    pub events: u64,
    pub failures: u64,
    pub status: ReportStatus,
}

/// Writes the line of a generated scenario. `Fault` is returned only if the sink counted an I/O error; the sink has
/// then received a prefix of the line.
pub fn write_summary<K: Sink>(
    alloc: Global,
    sink: &mut K,
    summary: Summary,
) -> Result<(), WriteStop>
    ensures { Wrote (change K.held K.count sink.old sink.new) result
        (gen_line summary.number summary.events summary.failures (status_number summary.status)) }
{
    let mut line = Line::new(alloc);
    push_summary(&mut line, summary)?;
    write_all(sink, line.as_bytes())?;
    Ok(())
}

/// The line of a generated scenario.
fn push_summary(line: &mut Line, summary: Summary) -> Result<(), NoMemory>
    ensures { OnOk result (line.new ≡ line.old
        ++ gen_line summary.number summary.events summary.failures (status_number summary.status)) }
{
    line.push("gen ")?;
    line.number(u64::from(summary.number))?;
    line.push(" events ")?;
    line.number(summary.events)?;
    line.push(" failures ")?;
    line.number(summary.failures)?;
    line.push(" status ")?;
    line.number(u64::from(summary.status.number()))?;
    line.push("\n")
}
