//! Writes a whole report into a sink.

ghost use Rattle.std.specs.Prelude.{◌≡◌, ◌+◌, ◌^◌, ◌<◌, ◌++◌, ◌∷◌, ℕ, [], List, MatchOption, OnOk};
ghost use Rattle.std.specs.Prelude.{bytes_eq, flat_map, length, replicate};
ghost use Rattle.machine_defs.specs.Pages.{opening_object};
ghost use Rattle.report_defs.specs.ReportLines.{spaced};
ghost use Rattle.report_defs.specs.ReportText.{block_lines, contract_line, final_lines, losses_lines, played_line};
ghost use Rattle.report_defs.specs.ReportText.{ending_text, report_text, taps_text, threads_text, wire_line};
ghost use Rattle.report_defs.specs.Views.Reporting.{block_line, config_line, failures_line, object_line, tap_line};
ghost use Rattle.report_defs.specs.Views.Reporting.{tap_text};
ghost use Rattle.part_defs.specs.State.{PartState};
ghost use Rattle.nook_io.specs.Changes.{change};
ghost use Rattle.report_text.specs.Mirrored.{mirror_report_rows, mirror_report_text};
ghost use Rattle.report_text.specs.Whole.{device_rows, ending_rows, event_rows, event_text};
ghost use Rattle.run_results.specs.Reports.{IsReport, ShowsState};
ghost use Rattle.report_text.specs.Whole.{final_rows, frame_counts, kept_counts, lost_counts, part_rows};
ghost use Rattle.run_results.specs.Reports.{lists_of};
ghost use Rattle.report_text.specs.Whole.{parts_rows, report_rows, sample_counts};
ghost use Rattle.report_text.specs.Writing.{Wrote, each_text};

use crate::line::Line;
use crate::pieces::{push_list, push_number};
use crate::write::{
    WriteStop, spill, write_events, write_mirror_threads, write_part_line, write_status_line,
    write_text, write_threads,
};
use nook_data::classes::Class;
use nook_data::journal::Journal;
use nook_data::limits::BLOCK_WORDS;
use nook_data::lists::Words;
use nook_data::machine::Act;
use nook_data::memory::NoMemory;
use nook_data::memory_map::OBJECT_WORDS;
use nook_data::mirror::{MirrorAnswer, MirrorAnswers};
use nook_data::scenario::{PartSpec, Scenario};
use nook_data::steps::Event;
use nook_data::verdicts::{Break, Losses};
use nook_io::outside::Sink;
use run_results::{PartEnd, PartReport, Report};
use std::alloc::Global;

/// Which acts of a device have a line each.
#[derive(Clone, Copy)]
pub enum Kind {
    /// Frames that were sent.
    Frames,
    /// Samples that were played.
    Samples,
}

/// What is written of the parts: the spec, the journal, the summary and the final state of each.
#[derive(Drop)]
struct WrittenParts<'a> {
    specs: &'a [PartSpec],
    journals: &'a [Journal],
    summed: &'a [PartReport],
    ends: &'a [PartEnd],
}

/// What is written of a part: its spec, its journal, its summary and its final state.
#[derive(Drop)]
struct WrittenPart<'a> {
    spec: &'a PartSpec,
    journal: &'a Journal,
    summed: &'a PartReport,
    end: &'a PartEnd,
}

impl<'a> WrittenParts<'a> {
    /// The first part and the others; none if one of the lists is empty.
    #[tactic(auto, using(crate::proofs::WholeLemmas::no_specs, crate::proofs::WholeLemmas::no_journals, crate::proofs::WholeLemmas::no_reports, crate::proofs::WholeLemmas::no_ends))]
    fn split_first(&self) -> Option<(WrittenPart<'a>, WrittenParts<'a>)>
        ensures { MatchOption result
            ((number : ℕ) → parts_rows number self.now.specs.now self.now.journals.now
            self.now.summed.now self.now.ends.now ≡ [])
            (λ split. (self.now.specs.now ≡ split.0.spec.now ∷ split.1.specs.now)
            × (self.now.journals.now ≡ split.0.journal.now ∷ split.1.journals.now)
            × (self.now.summed.now ≡ split.0.summed.now ∷ split.1.summed.now)
            × (self.now.ends.now ≡ split.0.end.now ∷ split.1.ends.now)) }
    {
        let (spec, specs) = self.specs.split_first()?;
        let (journal, journals) = self.journals.split_first()?;
        let (report, summed) = self.summed.split_first()?;
        let (end, ends) = self.ends.split_first()?;
        let first = WrittenPart {
            spec,
            journal,
            summed: report,
            end,
        };
        let others = WrittenParts {
            specs,
            journals,
            summed,
            ends,
        };
        Some((first, others))
    }
}

/// Whether a kernel object is as it was initially: its number, then zeros.
fn is_opening(object: u64, words: &[u32]) -> bool
    ensures { result ≡ bytes_eq words.now (opening_object object) }
{
    match words.split_first() {
        Some((first, rest)) => u64::from(*first) == object
            && rest.len() == OBJECT_WORDS as usize - 1
            && all_zeros(rest),
        None => false,
    }
}

/// Whether words are all 0.
fn all_zeros(words: &[u32]) -> bool
    ensures { result ≡ bytes_eq words.now (replicate (length words.now) 0) }
{
    for word in words {
        if *word != 0 {
            return false;
        }
    }
    true
}

/// Whether a block has 16 words, all 0.
fn is_blank(words: &[u32]) -> bool
    ensures { result ≡ bytes_eq words.now (replicate BLOCK_WORDS 0) }
{
    words.len() == BLOCK_WORDS && all_zeros(words)
}

/// A kernel object, if it differs from its initial contents.
fn push_object(line: &mut Line, object: u64, words: &Words) -> Result<(), NoMemory>
    ensures { OnOk result (line.new ≡ line.old ++ object_line object words.now) }
{
    if is_opening(object, words.as_slice()) {
        return Ok(());
    }
    push_number(line, "object ", object)?;
    push_list(line, " ", words)?;
    line.push("\n")
}

/// Kernel objects; the first has number 1.
pub fn push_objects(line: &mut Line, objects: &[Words]) -> Result<(), NoMemory>
    ensures { OnOk result (line.new ≡ line.old ++ each_text object_line 1 objects.now) }
{
    let mut object = 1_u64;
    for words in objects {
        push_object(line, object, words)?;
        object += 1;
    }
    Ok(())
}

/// A block, if one of its words is not 0.
fn push_block(line: &mut Line, block: u64, words: &Words) -> Result<(), NoMemory>
    ensures { OnOk result (line.new ≡ line.old ++ block_line block words.now) }
{
    if is_blank(words.as_slice()) {
        return Ok(());
    }
    push_number(line, "disk ", block)?;
    push_list(line, " ", words)?;
    line.push("\n")
}

/// The blocks of a medium.
pub fn push_blocks(line: &mut Line, medium: &[Words]) -> Result<(), NoMemory>
    ensures { OnOk result (line.new ≡ line.old ++ block_lines 0 medium.now) }
{
    let mut block = 0_u64;
    for words in medium {
        push_block(line, block, words)?;
        block += 1;
    }
    Ok(())
}

/// The frames that were sent.
fn push_frames(line: &mut Line, acts: &[Act]) -> Result<(), NoMemory>
    ensures { OnOk result (line.new ≡ line.old ++ flat_map wire_line acts.now) }
{
    for act in acts {
        push_frame(line, act)?;
    }
    Ok(())
}

/// An act, if it sent a frame.
fn push_frame(line: &mut Line, act: &Act) -> Result<(), NoMemory>
    ensures { OnOk result (line.new ≡ line.old ++ wire_line act.now) }
{
    match act {
        Act::Sent { frame } => {
            push_list(line, "wire ", frame)?;
            line.push("\n")
        }
        _ => Ok(()),
    }
}

/// The samples that were played.
fn push_samples(line: &mut Line, acts: &[Act]) -> Result<(), NoMemory>
    ensures { OnOk result (line.new ≡ line.old ++ flat_map played_line acts.now) }
{
    for act in acts {
        push_sample(line, act)?;
    }
    Ok(())
}

/// An act, if it played a sample.
fn push_sample(line: &mut Line, act: &Act) -> Result<(), NoMemory>
    ensures { OnOk result (line.new ≡ line.old ++ played_line act.now) }
{
    match act {
        Act::Played {
            sample,
            rate,
            volume,
        } => {
            push_number(line, "played ", u64::from(*sample))?;
            push_number(line, " ", u64::from(*rate))?;
            push_number(line, " ", u64::from(*volume))?;
            line.push("\n")
        }
        _ => Ok(()),
    }
}

/// The lines of an event's acts.
pub fn push_acts(line: &mut Line, kind: Kind, event: &Event) -> Result<(), NoMemory>
    ensures { OnOk result (line.new ≡ line.old ++ event_rows kind event.now) }
{
    match event {
        Event::Burst { acts, .. } => match kind {
            Kind::Frames => push_frames(line, acts.as_slice()),
            Kind::Samples => push_samples(line, acts.as_slice()),
        },
        _ => Ok(()),
    }
}

/// The configuration.
pub fn push_config(line: &mut Line, config: &[u32; 4]) -> Result<(), NoMemory>
    ensures { OnOk result (line.new ≡ line.old ++ config_line config.now) }
{
    line.push("config")?;
    push_spaced(line, config)?;
    line.push("\n")
}

/// Words, each after a space.
fn push_spaced(line: &mut Line, words: &[u32]) -> Result<(), NoMemory>
    ensures { OnOk result (line.new ≡ line.old ++ flat_map spaced words.now) }
{
    for word in words {
        push_number(line, " ", u64::from(*word))?;
    }
    Ok(())
}

/// The numbers of losses that are printed for a class.
pub fn push_losses(line: &mut Line, class: Class, losses: &Losses) -> Result<(), NoMemory>
    ensures { OnOk result (line.new ≡ line.old ++ losses_lines class losses.now) }
{
    match class {
        Class::Block => Ok(()),
        Class::Net => push_frame_counts(line, losses),
        Class::Sound => push_sample_counts(line, losses),
    }
}

/// What a sound part lost.
fn push_sample_counts(line: &mut Line, losses: &Losses) -> Result<(), NoMemory>
    ensures { OnOk result (line.new ≡ line.old ++ sample_counts losses.now) }
{
    push_number(line, "losses samples ", losses.samples)?;
    push_number(line, " busy ", losses.busy)?;
    line.push("\n")
}

/// What a net part lost, and where its frames went.
fn push_frame_counts(line: &mut Line, losses: &Losses) -> Result<(), NoMemory>
    ensures { OnOk result (line.new ≡ line.old ++ frame_counts losses.now) }
{
    push_number(line, "losses sends ", losses.sends)?;
    line.push("\n")?;
    push_number(line, "frames arrived ", losses.arrived)?;
    push_number(line, " received ", losses.received)?;
    push_kept_counts(line, losses)
}

/// The numbers of a net part's frames in the queue, the ring and the driver, then those of lost frames.
fn push_kept_counts(line: &mut Line, losses: &Losses) -> Result<(), NoMemory>
    ensures { OnOk result (line.new ≡ line.old ++ kept_counts losses.now) }
{
    push_number(line, " queued ", losses.queued)?;
    push_number(line, " ring ", losses.ring)?;
    push_number(line, " driver ", losses.driver)?;
    push_lost_counts(line, losses)
}

/// How many of a net part's frames were lost.
fn push_lost_counts(line: &mut Line, losses: &Losses) -> Result<(), NoMemory>
    ensures { OnOk result (line.new ≡ line.old ++ lost_counts losses.now) }
{
    push_number(line, " reset ", losses.reset)?;
    push_number(line, " full_ring ", losses.full_ring)?;
    push_number(line, " full_queue ", losses.full_queue)?;
    line.push("\n")
}

/// The verdict on the part's driver.
fn push_verdict(line: &mut Line, first_break: Option<Break>) -> Result<(), NoMemory>
    ensures { OnOk result (line.new ≡ line.old ++ contract_line first_break) }
{
    match first_break {
        Some(found) => {
            push_number(line, "contract broken event ", found.event)?;
            push_number(line, " clause ", u64::from(found.clause))?;
            line.push("\n")
        }
        None => line.push("contract kept\n"),
    }
}

/// A part's last lines.
fn push_ending(
    line: &mut Line,
    class: Class,
    summed: &PartReport,
    end: &PartEnd,
) -> Result<(), NoMemory>
    ensures { OnOk result (line.new ≡ line.old ++ ending_rows class summed.now end.now) }
{
    push_config(line, &end.config)?;
    push_losses(line, class, &summed.losses)?;
    push_number(line, "failures ", u64::from(summed.failures))?;
    line.push("\n")?;
    push_verdict(line, summed.first_break)
}

/// Listeners; the first has number 0.
#[tactic(auto, unfolding(report_defs::specs::ReportText::taps_text))]
fn push_taps(line: &mut Line, taps: &[(u64, bool)]) -> Result<(), NoMemory>
    ensures { OnOk result (line.new ≡ line.old ++ taps_text 0 taps.now) }
{
    let mut number = 0_u64;
    for tap in taps {
        push_tap(line, number, tap)?;
        number += 1;
    }
    Ok(())
}

/// A listener's total, and whether it is still attached.
fn push_tap(line: &mut Line, number: u64, tap: &(u64, bool)) -> Result<(), NoMemory>
    ensures { OnOk result (line.new ≡ line.old ++ tap_line number tap.now) }
{
    push_number(line, "tap ", number)?;
    push_number(line, " total ", tap.0)?;
    line.push(fate(tap.1))?;
    line.push("\n")
}

/// Whether a listener is still attached.
fn fate(kept: bool) -> &'static str
    ensures { result.now ≡ tap_text kept }
{
    if kept { " kept" } else { " dropped" }
}

/// Writes the lines of kernel objects.
fn write_objects<K: Sink>(alloc: Global, sink: &mut K, objects: &[Words]) -> Result<(), WriteStop>
    ensures { Wrote (change K.held K.count sink.old sink.new) result
        (each_text object_line 1 objects.now) }
{
    let mut line = Line::new(alloc);
    push_objects(&mut line, objects)?;
    write_text(sink, &line)
}

/// Writes the lines of a medium.
fn write_blocks<K: Sink>(alloc: Global, sink: &mut K, medium: &[Words]) -> Result<(), WriteStop>
    ensures { Wrote (change K.held K.count sink.old sink.new) result (block_lines 0 medium.now) }
{
    let mut line = Line::new(alloc);
    push_blocks(&mut line, medium)?;
    write_text(sink, &line)
}

/// Writes the lines of the acts of events.
fn write_acts<K: Sink>(
    alloc: Global,
    sink: &mut K,
    kind: Kind,
    events: &[Event],
) -> Result<(), WriteStop>
    ensures { Wrote (change K.held K.count sink.old sink.new) result
        (each_text (event_text kind) 0 events.now) }
{
    let mut buffer = Line::new(alloc);
    for event in events {
        push_acts(&mut buffer, kind, event)?;
        spill(sink, &mut buffer)?;
    }
    write_text(sink, &buffer)
}

/// Writes the final contents of a device, or what it produced.
fn write_device<K: Sink>(
    alloc: Global,
    sink: &mut K,
    class: Class,
    events: &[Event],
    medium: &[Words],
) -> Result<(), WriteStop>
    ensures { Wrote (change K.held K.count sink.old sink.new) result
        (device_rows class events.now medium.now) }
{
    match class {
        Class::Block => write_blocks(alloc, sink, medium),
        Class::Net => write_acts(alloc, sink, Kind::Frames, events),
        Class::Sound => write_acts(alloc, sink, Kind::Samples, events),
    }
}

/// Writes a part's last lines.
fn write_ending<K: Sink>(
    alloc: Global,
    sink: &mut K,
    class: Class,
    summed: &PartReport,
    end: &PartEnd,
) -> Result<(), WriteStop>
    ensures { Wrote (change K.held K.count sink.old sink.new) result
        (ending_rows class summed.now end.now) }
{
    let mut line = Line::new(alloc);
    push_ending(&mut line, class, summed, end)?;
    write_text(sink, &line)
}

/// Writes the lines after a part's events. If the part ends as its journal says, they are those of the journal.
pub fn write_final<K: Sink>(
    alloc: Global,
    sink: &mut K,
    spec: &PartSpec,
    events: &[Event],
    summed: &PartReport,
    end: &PartEnd,
) -> Result<(), WriteStop>
    ensures rows { Wrote (change K.held K.count sink.old sink.new) result
        (final_rows spec.now.class events.now summed.now end.now) }
    ensures text { (state : PartState) → ShowsState spec.now state end.now
        → summed.now.failures ≡ end.now.failures
        → Wrote (change K.held K.count sink.old sink.new) result
        (final_lines spec.now.class events.now summed.now.losses summed.now.first_break state) }
{
    write_final_rows(alloc, sink, spec.class, events, summed, end)
}

/// Writes the rows after a part's events.
fn write_final_rows<K: Sink>(
    alloc: Global,
    sink: &mut K,
    class: Class,
    events: &[Event],
    summed: &PartReport,
    end: &PartEnd,
) -> Result<(), WriteStop>
    ensures { Wrote (change K.held K.count sink.old sink.new) result
        (final_rows class events.now summed.now end.now) }
{
    write_objects(alloc, sink, end.objects.as_slice())?;
    write_device(alloc, sink, class, events, end.medium.as_slice())?;
    write_ending(alloc, sink, class, summed, end)
}

/// Writes a part's lines.
fn write_part<K: Sink>(
    alloc: Global,
    sink: &mut K,
    number: u64,
    part: &WrittenPart,
) -> Result<(), WriteStop>
    ensures { Wrote (change K.held K.count sink.old sink.new) result
        (part_rows number part.now.spec.now part.now.journal.now.list part.now.summed.now
        part.now.end.now) }
{
    let events = part.journal.as_slice();
    write_part_line(alloc, sink, number, part.spec)?;
    write_events(alloc, sink, events)?;
    write_final_rows(alloc, sink, part.spec.class, events, part.summed, part.end)
}

/// Writes the lines of the parts, numbered from `number` on.
fn write_parts<K: Sink>(
    alloc: Global,
    sink: &mut K,
    number: u64,
    parts: &WrittenParts,
) -> Result<(), WriteStop>
    requires { number + length parts.now.specs.now < 2 ^ 64 }
    ensures { Wrote (change K.held K.count sink.old sink.new) result
        (parts_rows number parts.now.specs.now parts.now.journals.now parts.now.summed.now
        parts.now.ends.now) }
{
    let Some((first, others)) = parts.split_first() else {
        return Ok(());
    };
    write_part(alloc, sink, number, &first)?;
    write_parts(alloc, sink, number + 1, &others)
}

/// Writes the lines after the threads: the listeners, and the status.
pub fn write_ending_text<K: Sink>(
    alloc: Global,
    sink: &mut K,
    taps: &[(u64, bool)],
    status: u32,
) -> Result<(), WriteStop>
    ensures { Wrote (change K.held K.count sink.old sink.new) result (ending_text taps.now status) }
{
    write_taps(alloc, sink, taps)?;
    write_status_line(alloc, sink, status)
}

/// Writes the listeners; the first has number 0.
fn write_taps<K: Sink>(alloc: Global, sink: &mut K, taps: &[(u64, bool)]) -> Result<(), WriteStop>
    ensures { Wrote (change K.held K.count sink.old sink.new) result (taps_text 0 taps.now) }
{
    let mut line = Line::new(alloc);
    push_taps(&mut line, taps)?;
    write_text(sink, &line)
}

/// Writes a report. After a failure the sink has received a prefix of it; `Fault` is returned only after an error of
/// the sink. The rows are those of the report; if it is the report of the scenario's run, they are the text of its
/// journals, answers and listeners.
pub fn write_report<K: Sink>(
    alloc: Global,
    scenario: &Scenario,
    report: &Report,
    sink: &mut K,
) -> Result<(), WriteStop>
    ensures rows { Wrote (change K.held K.count sink.old sink.new) result
        (report_rows scenario.now report.now) }
    ensures text { IsReport scenario.now report.now
        → Wrote (change K.held K.count sink.old sink.new) result
        (report_text scenario.now
        (lists_of report.now.run.journals) report.now.run.answers report.now.run.taps
        report.now.status) }
{
    write_rows(alloc, scenario, report, sink)
}

/// Writes a report of a mirror: what `write_report` writes, but with the mirror's answers in the thread's lines and
/// this status at the end. After a failure the sink has received a prefix; `Fault` means an error of the sink.
pub fn write_mirror_report<K: Sink>(
    alloc: Global,
    scenario: &Scenario,
    report: &Report,
    answers: &MirrorAnswers,
    status: u32,
    sink: &mut K,
) -> Result<(), WriteStop>
    ensures rows { Wrote (change K.held K.count sink.old sink.new) result
        (mirror_report_rows scenario.now report.now answers.now status) }
    ensures text { IsReport scenario.now report.now
        → Wrote (change K.held K.count sink.old sink.new) result
        (mirror_report_text scenario.now
        (lists_of report.now.run.journals) answers.now report.now.run.taps status) }
{
    write_mirror_rows(alloc, scenario, report, answers.as_slice(), status, sink)
}

/// Writes the rows of a report of a mirror.
fn write_mirror_rows<K: Sink>(
    alloc: Global,
    scenario: &Scenario,
    report: &Report,
    answers: &[MirrorAnswer],
    status: u32,
    sink: &mut K,
) -> Result<(), WriteStop>
    ensures { Wrote (change K.held K.count sink.old sink.new) result
        (mirror_report_rows scenario.now report.now answers.now status) }
{
    write_all_parts(alloc, scenario, report, sink)?;
    write_mirror_threads(alloc, sink, scenario.threads.as_slice(), answers)?;
    write_ending_text(alloc, sink, report.run.taps.as_slice(), status)
}

/// Writes the rows of a report.
fn write_rows<K: Sink>(
    alloc: Global,
    scenario: &Scenario,
    report: &Report,
    sink: &mut K,
) -> Result<(), WriteStop>
    ensures { Wrote (change K.held K.count sink.old sink.new) result
        (report_rows scenario.now report.now) }
{
    write_all_parts(alloc, scenario, report, sink)?;
    write_threads(
        alloc,
        sink,
        0,
        scenario.threads.as_slice(),
        report.run.answers.as_slice(),
    )?;
    write_ending_text(alloc, sink, report.run.taps.as_slice(), report.status)
}

/// Writes the lines of all parts.
fn write_all_parts<K: Sink>(
    alloc: Global,
    scenario: &Scenario,
    report: &Report,
    sink: &mut K,
) -> Result<(), WriteStop>
    ensures { Wrote (change K.held K.count sink.old sink.new) result
        (parts_rows 0 scenario.now.parts report.now.run.journals report.now.parts report.now.ends) }
{
    let parts = WrittenParts {
        specs: scenario.parts.as_slice(),
        journals: report.run.journals.as_slice(),
        summed: report.parts.as_slice(),
        ends: report.ends.as_slice(),
    };
    write_parts(alloc, sink, 0, &parts)
}
