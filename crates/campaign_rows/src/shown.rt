//! The answers of a run's threads and the final states of its parts, as text.

ghost use Rattle.std.specs.Prelude.{◌≡◌, ◌++◌, IfOk, OnOk};
ghost use Rattle.campaign_defs.specs.Members.{Ran};
ghost use Rattle.campaign_defs.specs.Rows.{answer_texts};
ghost use Rattle.campaign_rows.specs.Reported.{left_parts};
ghost use Rattle.campaign_rows.specs.Shown.{IsShown, Shows};
ghost use Rattle.report_defs.specs.ReportText.{answer_lines};
ghost use Rattle.report_text.specs.Whole.{left_rows};

use nook_data::calls::{Answer, PartAnswers};
use nook_data::journal::Journal;
use nook_data::lists::{Items, Words8};
use nook_data::memory::NoMemory;
use nook_data::scenario::{PartSpec, Scenario};
use report_text::{Line, push_answers, push_left};
use run_results::{PartEnd, PartReport, Report};
use std::alloc::Global;

/// The answers of a run's threads and the final states of its parts, as text. A member's run is compared with them.
#[derive(Drop)]
pub struct Shown {
    /// The answers of each thread.
    pub answers: Items<Words8>,
    /// The final state of each part.
    pub left: Items<Words8>,
}

/// The answers and final states of a report's run.
pub fn shown_of(alloc: Global, scenario: &Scenario, report: &Report) -> Result<Shown, NoMemory>
    ensures { (ran : Ran) → Shows ran scenario.now report.now → IfOk result (IsShown ran) }
{
    let answers = answer_texts(alloc, report.run.answers.as_slice())?;
    let mut left = Items::new(alloc);
    push_parts(
        alloc,
        scenario.parts.as_slice(),
        report.run.journals.as_slice(),
        report.parts.as_slice(),
        report.ends.as_slice(),
        &mut left,
    )?;
    Ok(Shown { answers, left })
}

/// The answers of each thread.
fn answer_texts(alloc: Global, answers: &[PartAnswers]) -> Result<Items<Words8>, NoMemory>
    ensures { IfOk result (λ texts. texts ≡ answer_texts answers.now) }
{
    let mut texts = Items::new(alloc);
    for own in answers {
        texts.push(answer_text(alloc, own.as_slice())?)?;
    }
    Ok(texts)
}

/// The answers of a thread.
fn answer_text(alloc: Global, answers: &[(u32, Answer)]) -> Result<Words8, NoMemory>
    ensures { IfOk result (λ text. text ≡ answer_lines 1 answers.now) }
{
    let mut line = Line::new(alloc);
    push_answers(&mut line, answers)?;
    Ok(line.into_words())
}

/// Appends the final state of each part.
fn push_parts(
    alloc: Global,
    specs: &[PartSpec],
    journals: &[Journal],
    parts: &[PartReport],
    ends: &[PartEnd],
    texts: &mut Items<Words8>,
) -> Result<(), NoMemory>
    ensures { OnOk result
        (texts.new ≡ texts.old ++ left_parts specs.now journals.now parts.now ends.now) }
{
    let Some((spec, more_specs)) = specs.split_first() else {
        return Ok(());
    };
    let Some((journal, more_journals)) = journals.split_first() else {
        return Ok(());
    };
    let Some((part, more_parts)) = parts.split_first() else {
        return Ok(());
    };
    let Some((end, more_ends)) = ends.split_first() else {
        return Ok(());
    };
    texts.push(left_text(alloc, spec, journal, part, end)?)?;
    push_parts(
        alloc,
        more_specs,
        more_journals,
        more_parts,
        more_ends,
        texts,
    )
}

/// The final state of a part.
fn left_text(
    alloc: Global,
    spec: &PartSpec,
    journal: &Journal,
    part: &PartReport,
    end: &PartEnd,
) -> Result<Words8, NoMemory>
    ensures { IfOk result
        (λ text. text ≡ left_rows spec.now.class journal.now.list part.now.losses end.now) }
{
    let mut line = Line::new(alloc);
    push_left(&mut line, spec.class, journal.as_slice(), &part.losses, end)?;
    Ok(line.into_words())
}
