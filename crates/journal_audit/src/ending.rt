//! The lines after a section's events.

ghost use Rattle.std.specs.Prelude.{◌≡◌, ◌<◌, ◌++◌, ◌∷◌, [], List, true, IfOk, OnOk, length};
ghost use Rattle.run_laws.specs.Audit.{Done, done_of, is_complete, section_end};
ghost use Rattle.journal_audit.specs.Found.{between, found_from, inside};
ghost use Rattle.journal_audit.specs.Position.{Departs, Follows, IsEnding};
ghost use Rattle.journal_audit.specs.Stopping.{Checks, OnUnfit};
ghost use Rattle.journal_audit.specs.PastSections.{SumsUp, judged_in};
ghost use Rattle.nook_data.specs.declared.scenario.PartSpec.{PartSpec as Spec};
ghost use Rattle.nook_data.specs.declared.scenario.Scenario.{Scenario};

use crate::comparing::Comparing;
use crate::cursor::Cursor;
use crate::past::PastSections;
use crate::section::Section;
use crate::stop::Stop;
use contract_monitor::Monitor;
use nook_data::memory::NoMemory;
use report_text::write_final;
use run_ends::end_of;
use run_results::PartReport;
use std::alloc::Global;

/// Checks the lines after a section's events; then the section is over.
pub fn check_ending(
    alloc: Global,
    cursor: &mut Cursor,
    section: Section,
    past: &mut PastSections,
) -> Result<(), Stop>
    requires { section.index < 256 }
    ensures checks { (scenario : Scenario) (sections : List Done) (coming : List Spec)
        → IsEnding cursor.old
        → Checks result (found_from scenario (inside sections section.entry coming) cursor.old)
        (found_from scenario (between (sections ++ done_of section.entry ∷ []) coming) cursor.new) }
    ensures complete { OnOk result (is_complete section.entry ≡ true) }
    ensures text { OnOk result (Follows (section_end section.entry) cursor.old cursor.new) }
    ensures ends { OnOk result (past.new.ends ≡ past.old.ends ++ cursor.old.number ∷ []) }
    ensures sums { (specs : List Spec) (sections : List Done) → length specs ≡ section.entry.index
        → SumsUp specs sections past.old
        → OnOk result (SumsUp (specs ++ section.entry.spec ∷ [])
        (sections ++ done_of section.entry ∷ []) past.new) }
{
    let end = cursor.number();
    let judged = judge_ending(alloc, cursor, &section)?;
    past.add(alloc, section, &judged, end)?;
    Ok(())
}

/// Checks the lines after a section's events against what is summed up of its part.
fn judge_ending(alloc: Global, cursor: &mut Cursor, section: &Section) -> Result<PartReport, Stop>
    ensures checks { (scenario : Scenario) (sections : List Done) (coming : List Spec)
        → IsEnding cursor.old
        → Checks result (found_from scenario (inside sections section.now coming) cursor.old)
        (found_from scenario (between (sections ++ done_of section.now ∷ []) coming) cursor.new) }
    ensures complete { OnOk result (is_complete section.now ≡ true) }
    ensures text { OnOk result (Follows (section_end section.now) cursor.old cursor.new) }
    ensures judged { IfOk result (λ judged. judged ≡ judged_in section.now) }
{
    if !section.is_complete() {
        return Err(Stop::Unfit {
            line: cursor.number(),
        });
    }
    let judged = judge(alloc, section)?;
    compare_ending(alloc, cursor, section, &judged)?;
    Ok(judged)
}

/// Compares the lines after a section's events.
fn compare_ending(
    alloc: Global,
    cursor: &mut Cursor,
    section: &Section,
    judged: &PartReport,
) -> Result<(), Stop>
    requires { judged.now ≡ judged_in section.now }
    ensures ok { OnOk result (Follows (section_end section.now) cursor.old cursor.new) }
    ensures unfit { OnUnfit result (Departs (section_end section.now) cursor.old) }
{
    let end = end_of(alloc, section.part())?;
    let mut compared = Comparing::new(cursor.rest());
    let written = write_final(
        alloc,
        &mut compared,
        section.spec(),
        section.events(),
        judged,
        &end,
    );
    cursor.settle(&compared, written)
}

/// What is summed up of a section's part.
fn judge(alloc: Global, section: &Section) -> Result<PartReport, NoMemory>
    ensures { IfOk result (λ judged. judged ≡ judged_in section.now) }
{
    let spec = section.spec();
    let monitor = Monitor::of_events(alloc, spec.class, spec.blocks, section.events())?;
    Ok(PartReport {
        losses: monitor.losses(),
        first_break: monitor.first_break(),
        failures: section.part().failures(),
    })
}
