//! The audit of a report, line by line.

ghost use Rattle.std.specs.Prelude.{◌≡◌, ◌<◌, ◌++◌, ◌∷◌, [], ℕ, List, None, Option, true, false, IfOk, OnOk, bytes_eq};
ghost use Rattle.std.specs.Prelude.{length};
ghost use Rattle.order_defs.specs.OutOfOrder.{Finds};
ghost use Rattle.run_laws.specs.Audit.{Done, is_numbered, opening_audit, opening_section};
ghost use Rattle.journal_audit.specs.Found.{ArePast, FitsByItself, at_last, between, found_from, inside};
ghost use Rattle.journal_audit.specs.Position.{IsEnding, PassesLine, Position};
ghost use Rattle.journal_audit.specs.Readings.{Reads};
ghost use Rattle.journal_audit.specs.Stopping.{Checks, Leads};
ghost use Rattle.journal_audit.specs.PastSections.{SumsUp};
ghost use Rattle.report_defs.specs.ReportText.{part_line};
ghost use Rattle.nook_data.specs.Valid.{IsValidPart, IsValidScenario};
ghost use Rattle.nook_data.specs.declared.scenario.PartSpec.{PartSpec as Spec};
ghost use Rattle.nook_data.specs.declared.scenario.Scenario.{Scenario as Given};

use crate::comparing::Comparing;
use crate::cursor::Cursor;
use crate::ending::check_ending;
use crate::last::check_last;
use crate::past::PastSections;
use crate::section::Section;
use crate::stop::Stop;
use nook_data::memory::NoMemory;
use nook_data::scenario::{PartSpec, Scenario};
use report_text::{WriteStop, write_part_line};
use std::alloc::Global;

/// Checks a printed report line by line, along the steps that its lines name, with no trust in the run that printed it.
/// Returns none if every line fits and none is missing; else the number of the first line that does not fit, from 1, or
/// one more than the number of lines if lines are missing. A line fits if it is that of a step which its part may take,
/// or one of those after the events; a last line without a line feed does not fit. If each line fits by itself, but the
/// parts' journals are not one run, it is the line of the first event that no order of steps reaches. The journals stay
/// in memory, the text does not.
pub fn audit(alloc: Global, scenario: &Scenario, report: &[u8]) -> Result<Option<u64>, NoMemory>
    requires { IsValidScenario scenario.now }
    ensures exact { IfOk result (Finds scenario.now report.now) }
{
    let mut cursor = Cursor::new(report);
    let mut past = PastSections::new(alloc)?;
    match check(alloc, scenario, &mut cursor, &mut past) {
        Ok(()) => past.first_left(alloc, scenario.threads.as_slice()),
        Err(Stop::Unfit { line }) => Ok(Some(line)),
        Err(Stop::NoMemory) => Err(NoMemory),
    }
}

/// Checks a whole report, each line by itself.
fn check(
    alloc: Global,
    scenario: &Scenario,
    cursor: &mut Cursor,
    past: &mut PastSections,
) -> Result<(), Stop>
    requires valid { IsValidScenario scenario.now }
    requires none { SumsUp [] [] past.old }
    requires no_ends { past.old.ends ≡ [] }
    ensures { Leads result (found_from scenario.now (opening_audit scenario.now) cursor.old)
        (FitsByItself scenario.now cursor.old past.new) }
{
    check_parts(alloc, scenario, cursor, past)?;
    check_last(alloc, cursor, scenario.threads.as_slice(), past)?;
    check_end(cursor)
}

/// Checks the sections.
fn check_parts(
    alloc: Global,
    scenario: &Scenario,
    cursor: &mut Cursor,
    past: &mut PastSections,
) -> Result<(), Stop>
    requires valid { IsValidScenario scenario.now }
    requires none { SumsUp [] [] past.old }
    requires no_ends { past.old.ends ≡ [] }
    ensures { Leads result (found_from scenario.now (opening_audit scenario.now) cursor.old)
        (ArePast scenario.now cursor.old scenario.now.parts [] cursor.new past.new) }
{
    let specs = scenario.parts.as_slice();
    for index in 0..specs.len() {
        check_part(alloc, scenario, index as u32, &specs[index], cursor, past)?;
    }
    Ok(())
}

/// Checks the section of a part.
fn check_part(
    alloc: Global,
    scenario: &Scenario,
    index: u32,
    spec: &PartSpec,
    cursor: &mut Cursor,
    past: &mut PastSections,
) -> Result<(), Stop>
    requires index { index < 256 }
    requires scenario { IsValidScenario scenario.now }
    requires spec { IsValidPart spec.now }
    ensures { (first : Position) (specs coming : List Spec) → length specs ≡ index
        → ArePast scenario.now first specs (spec.now ∷ coming) cursor.old past.old
        → Leads result (found_from scenario.now (opening_audit scenario.now) first)
        (ArePast scenario.now first (specs ++ spec.now ∷ []) coming cursor.new past.new) }
{
    check_part_line(alloc, index, spec, cursor)?;
    let mut section = Section::new(alloc, scenario.threads.as_slice(), index, spec)?;
    check_events(alloc, cursor, &mut section)?;
    check_ending(alloc, cursor, section, past)
}

/// Checks the first line of a section.
fn check_part_line(
    alloc: Global,
    index: u32,
    spec: &PartSpec,
    cursor: &mut Cursor,
) -> Result<(), Stop>
    ensures checks { (scenario : Given) (sections : List Done) (coming : List Spec)
        → length sections ≡ index
        → Checks result (found_from scenario (between sections (spec.now ∷ coming)) cursor.old)
        (found_from scenario
        (inside sections (opening_section scenario.threads index spec.now) coming) cursor.new) }
    ensures text { OnOk result (PassesLine (part_line index spec.now) cursor.old cursor.new) }
{
    let line = cursor.line()?;
    if !is_part_line(alloc, index, spec, line)? {
        return Err(Stop::Unfit {
            line: cursor.number(),
        });
    }
    cursor.skip(line.len());
    Ok(())
}

/// Whether a line is the first of a part's section.
fn is_part_line(alloc: Global, index: u32, spec: &PartSpec, line: &[u8]) -> Result<bool, NoMemory>
    ensures { IfOk result (λ same. same ≡ bytes_eq line.now (part_line index spec.now)) }
{
    let mut compared = Comparing::new(line);
    let written = write_part_line(alloc, &mut compared, u64::from(index), spec);
    if written == Err(WriteStop::NoMemory) {
        return Err(NoMemory);
    }
    Ok(compared.wrong().is_none() && compared.matched() == line.len())
}

/// Checks the lines of a section's events, up to the first line that does not begin with a digit.
fn check_events(alloc: Global, cursor: &mut Cursor, section: &mut Section) -> Result<(), Stop>
    ensures checks { (scenario : Given) (sections : List Done) (coming : List Spec)
        → Checks result (found_from scenario (inside sections section.old coming) cursor.old)
        (found_from scenario (inside sections section.new coming) cursor.new) }
    ensures ending { OnOk result (IsEnding cursor.new) }
    ensures reads { OnOk result (Reads section.old section.new cursor.old cursor.new) }
{
    'events: while check_event(alloc, cursor, section)? {}
    Ok(())
}

/// Checks the next line if it begins with a digit, and returns whether it does.
fn check_event(alloc: Global, cursor: &mut Cursor, section: &mut Section) -> Result<bool, Stop>
    ensures checks { (scenario : Given) (sections : List Done) (coming : List Spec)
        → Checks result (found_from scenario (inside sections section.old coming) cursor.old)
        (found_from scenario (inside sections section.new coming) cursor.new) }
    ensures more { IfOk result
        (λ more. more ≡ true → length cursor.new.rest < length cursor.old.rest) }
    ensures ending { IfOk result (λ more. more ≡ false → IsEnding cursor.new) }
    ensures reads { OnOk result (Reads section.old section.new cursor.old cursor.new) }
{
    let line = cursor.line()?;
    if !is_numbered(line) {
        return Ok(false);
    }
    if !section.after_event(alloc, line)? {
        return Err(Stop::Unfit {
            line: cursor.number(),
        });
    }
    cursor.skip(line.len());
    Ok(true)
}

/// Whether a line begins with a digit.
fn is_numbered(line: &[u8]) -> bool
    ensures { result ≡ is_numbered line.now }
{
    match line.first() {
        Some(byte) => byte.is_ascii_digit(),
        None => false,
    }
}

/// Checks that nothing follows the last line.
fn check_end(cursor: &Cursor) -> Result<(), Stop>
    ensures checks { (scenario : Given) (sections : List Done)
        → Checks result (found_from scenario (at_last sections []) cursor.now) None }
    ensures over { OnOk result (cursor.now.rest ≡ []) }
{
    if cursor.rest().is_empty() {
        return Ok(());
    }
    Err(Stop::Unfit {
        line: cursor.number(),
    })
}
