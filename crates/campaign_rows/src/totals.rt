//! The last line of a table: the number of members, the number with each status, and the guard's traps.

ghost use Rattle.std.specs.Prelude.{◌≡◌, ◌+◌, ◌^◌, ◌<◌, [], ◌∷◌, ◌++◌, List, IfOk, OnOk, length};
ghost use Rattle.campaign_defs.specs.TableText.{traps_in};
ghost use Rattle.campaign_defs.specs.Types.{Row};
ghost use Rattle.campaign_rows.specs.CampaignCounts.{campaign_counts_of, campaign_counts_text};
ghost use Rattle.campaign_rows.specs.Counting.{with_row, with_status};
ghost use Rattle.nook_io.specs.Changes.{change};
ghost use Rattle.report_text.specs.Writing.{Wrote};

use crate::lines::push_traps;
use campaign_defs::row::Row;
use nook_data::memory::NoMemory;
use nook_io::outside::Sink;
use report_text::{Line, WriteStop, push_number, write_text};
use run_results::{ReportStatus, add};
use std::alloc::Global;

/// The number of rows, the number of rows with each status, and the traps of all rows.
#[derive(Clone, Copy)]
pub struct CampaignCounts {
    pub members: u64,
    pub kept: u64,
    pub given_up: u64,
    pub broken: u64,
    pub traps: u64,
}

impl CampaignCounts {
    /// The counts of no rows.
    pub fn new() -> CampaignCounts
        ensures { result ≡ campaign_counts_of [] }
    {
        CampaignCounts {
            members: 0,
            kept: 0,
            given_up: 0,
            broken: 0,
            traps: 0,
        }
    }

    /// Counts more rows after those already counted. A sum that does not fit in 64 bits is refused as if memory had run
    /// out. After success, the number of one more row still fits.
    pub fn count_all(&mut self, rows: &[Row]) -> Result<(), NoMemory>
        ensures counted { OnOk result ((done : List Row) → self.old ≡ campaign_counts_of done
            → self.new ≡ campaign_counts_of (done ++ rows.now)) }
        ensures members { OnOk result (self.new.members ≡ self.old.members + length rows.now) }
        ensures room { OnOk result (self.new.members + 1 < 2 ^ 64) }
    {
        for row in rows {
            self.count(row)?;
        }
        if self.members == u64::MAX {
            return Err(NoMemory);
        }
        Ok(())
    }

    /// Counts one more row.
    #[tactic(auto, unfolding(crate::specs::Counting::with_row))]
    fn count(&mut self, row: &Row) -> Result<(), NoMemory>
        ensures counted { OnOk result (self.new ≡ with_row row.now self.old) }
        ensures members { OnOk result (self.new.members ≡ self.old.members + 1) }
    {
        self.members = add(self.members, 1)?;
        self.traps = add(self.traps, traps_in(row.traps))?;
        self.count_status(row.counts.status)
    }

    /// Counts the status of a row.
    fn count_status(&mut self, status: u32) -> Result<(), NoMemory>
        ensures { OnOk result (self.new ≡ with_status status self.old) }
    {
        match ReportStatus::of_number(status) {
            Some(ReportStatus::Kept) => self.kept = add(self.kept, 1)?,
            Some(ReportStatus::GivenUp) => self.given_up = add(self.given_up, 1)?,
            Some(ReportStatus::Broken) => self.broken = add(self.broken, 1)?,
            None => {}
        }
        Ok(())
    }
}

/// The traps of a row.
fn traps_in(traps: Option<u64>) -> u64
    ensures { result ≡ traps_in traps }
{
    traps.unwrap_or(0)
}

/// Writes the last line of a table.
pub fn write_counts<K: Sink>(
    alloc: Global,
    sink: &mut K,
    guard: bool,
    totals: CampaignCounts,
) -> Result<(), WriteStop>
    ensures { Wrote (change K.held K.count sink.old sink.new) result
        (campaign_counts_text guard totals) }
{
    let mut line = Line::new(alloc);
    push_campaign_counts(&mut line, guard, totals)?;
    write_text(sink, &line)
}

/// Appends the last line of a table.
#[tactic(auto, using(crate::proofs::Asked::guarded_is))]
fn push_campaign_counts(
    line: &mut Line,
    guard: bool,
    totals: CampaignCounts,
) -> Result<(), NoMemory>
    ensures { OnOk result (line.new ≡ line.old ++ campaign_counts_text guard totals) }
{
    push_number(line, "campaign ", totals.members)?;
    push_number(line, " kept ", totals.kept)?;
    push_number(line, " given_up ", totals.given_up)?;
    push_number(line, " broken ", totals.broken)?;
    push_traps(line, guard.then_some(totals.traps))?;
    line.push("\n")
}
