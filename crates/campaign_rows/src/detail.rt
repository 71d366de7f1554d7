//! How a member's run compares with the base's, and what its struck part did.

ghost use Rattle.std.specs.Prelude.{◌≡◌, IfOk, map, slice_get};
ghost use Rattle.campaign_defs.specs.Members.{Ran};
ghost use Rattle.campaign_defs.specs.Rows.{cause_at, cause_of, detail_of, first_cause, texts_eq};
ghost use Rattle.campaign_rows.specs.Reported.{clause_in};
ghost use Rattle.campaign_rows.specs.Shown.{IsShown, Shows};
ghost use Rattle.run_results.specs.Journals.{events_in};

use crate::shown::{Shown, shown_of};
use campaign_defs::row::Detail;
use nook_data::journal::Journal;
use nook_data::lists::Words8;
use nook_data::memory::NoMemory;
use nook_data::scenario::Scenario;
use nook_data::steps::{Event, FailCause};
use run_results::{PartReport, Report};
use std::alloc::Global;

/// How the run of a report compares with the base's run, whose answers and final states are `base`, and what part
/// `index`, counted from 0, did in it.
pub fn detail_of(
    alloc: Global,
    index: usize,
    base: &Shown,
    scenario: &Scenario,
    report: &Report,
) -> Result<Detail, NoMemory>
    ensures { (own ran : Ran) → IsShown own base.now → Shows ran scenario.now report.now
        → IfOk result (λ detail. detail ≡ detail_of index own ran) }
{
    let shown = shown_of(alloc, scenario, report)?;
    let same_answers = same_texts(base.answers.as_slice(), shown.answers.as_slice());
    let same_left = same_texts(base.left.as_slice(), shown.left.as_slice());
    Ok(Detail {
        same_answers,
        same_left,
        clause: clause_at(report.parts.as_slice(), index),
        cause: cause_at(report.run.journals.as_slice(), index),
    })
}

/// Whether two lists of texts are the same.
fn same_texts(texts: &[Words8], others: &[Words8]) -> bool
    ensures { result ≡ texts_eq texts.now others.now }
{
    let Some((text, more_texts)) = texts.split_first() else {
        return others.is_empty();
    };
    let Some((other, more_others)) = others.split_first() else {
        return false;
    };
    text.as_slice() == other.as_slice() && same_texts(more_texts, more_others)
}

/// The number of the first clause that part `index` broke.
fn clause_at(parts: &[PartReport], index: usize) -> Option<u8>
    ensures { result ≡ clause_in (slice_get parts.now index) }
{
    let broken = parts.get(index)?.first_break?;
    Some(broken.clause)
}

/// Why the part with journal `index` failed first.
fn cause_at(journals: &[Journal], index: usize) -> Option<FailCause>
    ensures { result ≡ cause_at (slice_get (map events_in journals.now) index) }
{
    first_cause(journals.get(index)?.as_slice())
}

/// Why the first failing event failed.
fn first_cause(events: &[Event]) -> Option<FailCause>
    ensures { result ≡ first_cause events.now }
{
    let mut cause = None;
    for event in events {
        cause = cause.or(cause_of(event));
    }
    cause
}

/// Why a burst failed.
fn cause_of(event: &Event) -> Option<FailCause>
    ensures { result ≡ cause_of event.now }
{
    match event {
        Event::Burst { failure, .. } => *failure,
        _ => None,
    }
}
