//! Writes a report into a sink. Lines are collected in a buffer, which is written once it holds many bytes.

ghost use Rattle.std.specs.Prelude.{◌≡◌, ◌+◌, ◌^◌, ◌<◌, ◌++◌, ℕ, List, IfOk, OnOk, length};
ghost use Rattle.report_defs.specs.ReportLines.{event_line, event_lines};
ghost use Rattle.report_defs.specs.ReportText.{answer_lines, part_line, status_line, thread_line, threads_text};
ghost use Rattle.nook_io.specs.Changes.{change};
ghost use Rattle.report_text.specs.Answers.{answer_line};
ghost use Rattle.report_text.specs.Mirrored.{mirror_answer_line, mirror_threads_text};
ghost use Rattle.report_text.specs.Writing.{Spilled, Wrote, each_text};

use crate::line::Line;
use crate::pieces::{push_answer, push_class, push_event, push_mirror_answer, push_number};
use nook_data::calls::{Answer, PartAnswers};
use nook_data::lists::Words8;
use nook_data::memory::NoMemory;
use nook_data::mirror::MirrorAnswer;
use nook_data::scenario::{PartSpec, ThreadSpec};
use nook_data::steps::Event;
use nook_io::outside::{Failed, Sink};
use nook_io::whole::write_all;
use std::alloc::Global;

/// Why a text was not written completely. The sink has received a prefix of it.
#[derive(Clone, Copy, PartialEq, Eq)]
pub enum WriteStop {
    /// The sink failed.
    Fault,
    /// Memory ran out.
    NoMemory,
}

impl From<Failed> for WriteStop {
    ghost use Rattle.report_text.specs.declared.write.WriteStop.TheVariants.{Fault};

    ghost from_gives = { λ _ stop. stop ≡ Fault };

    fn from(_failed: Failed) -> WriteStop {
        WriteStop::Fault
    }
}

impl From<NoMemory> for WriteStop {
    ghost use Rattle.report_text.specs.declared.write.WriteStop.TheVariants as stops;

    ghost from_gives = { λ _ stop. stop ≡ stops.NoMemory };

    fn from(_no_memory: NoMemory) -> WriteStop {
        WriteStop::NoMemory
    }
}

/// A type of items that have a line each.
pub trait Lined {
    // the line of an item with this number
    ghost text: { ℕ → Self → List ℕ };

    /// Appends the item's line with its line feed.
    fn push_line(&self, number: u64, line: &mut Line) -> Result<(), NoMemory>
        ensures { OnOk result (line.new ≡ line.old ++ text number self.now) };
}

impl Lined for Event {
    ghost text = { event_line };

    #[tactic(auto, unfolding(report_defs::specs::ReportLines::event_line))]
    fn push_line(&self, number: u64, line: &mut Line) -> Result<(), NoMemory> {
        line.number(number)?;
        line.push(" ")?;
        push_event(line, self)?;
        line.push("\n")
    }
}

impl Lined for (u32, Answer) {
    ghost text = { answer_line };

    fn push_line(&self, number: u64, line: &mut Line) -> Result<(), NoMemory> {
        line.number(number)?;
        push_number(line, " p", u64::from(self.0))?;
        line.push(" ")?;
        push_answer(line, &self.1)?;
        line.push("\n")
    }
}

impl Lined for MirrorAnswer {
    ghost text = { mirror_answer_line };

    fn push_line(&self, number: u64, line: &mut Line) -> Result<(), NoMemory> {
        line.number(number)?;
        line.push(" p0 ")?;
        push_mirror_answer(line, self)?;
        line.push("\n")
    }
}

/// The line of an event with its number in the journal, from 1: the number, what happened, a line feed.
pub fn event_line(alloc: Global, number: u64, event: &Event) -> Result<Words8, NoMemory>
    ensures { IfOk result (λ line. line ≡ event_line number event.now) }
{
    let mut line = Line::new(alloc);
    event.push_line(number, &mut line)?;
    Ok(line.into_words())
}

/// How many bytes a buffer holds before they are written.
const BUFFER_SIZE: usize = 16_384;

/// Writes a buffer that holds 16,384 bytes or more, and empties it. With fewer bytes it does nothing. A buffer that was
/// not written completely stays as it was.
pub fn spill<K: Sink>(sink: &mut K, buffer: &mut Line) -> Result<(), WriteStop>
    ensures { Spilled (change K.held K.count sink.old sink.new) result buffer.old buffer.new }
{
    if buffer.as_bytes().len() < BUFFER_SIZE {
        return Ok(());
    }
    write_text(sink, buffer)?;
    buffer.clear();
    Ok(())
}

/// Writes the lines of items; the first item has number `first`.
fn write_each<K: Sink, T: Lined>(
    alloc: Global,
    sink: &mut K,
    first: u64,
    items: &[T],
) -> Result<(), WriteStop>
    requires { first + length items.now < 2 ^ 64 }
    ensures { Wrote (change K.held K.count sink.old sink.new) result
        (each_text T.text first items.now) }
{
    let mut buffer = Line::new(alloc);
    let mut number = first;
    for item in items {
        item.push_line(number, &mut buffer)?;
        spill(sink, &mut buffer)?;
        number += 1;
    }
    write_text(sink, &buffer)
}

/// Writes a line.
pub fn write_text<K: Sink>(sink: &mut K, line: &Line) -> Result<(), WriteStop>
    ensures { Wrote (change K.held K.count sink.old sink.new) result line.now }
{
    write_all(sink, line.as_bytes())?;
    Ok(())
}

/// Writes a part's first line.
pub fn write_part_line<K: Sink>(
    alloc: Global,
    sink: &mut K,
    number: u64,
    spec: &PartSpec,
) -> Result<(), WriteStop>
    ensures { Wrote (change K.held K.count sink.old sink.new) result (part_line number spec.now) }
{
    let mut line = Line::new(alloc);
    push_part_line(&mut line, number, spec)?;
    write_text(sink, &line)
}

fn push_part_line(line: &mut Line, number: u64, spec: &PartSpec) -> Result<(), NoMemory>
    ensures { OnOk result (line.new ≡ line.old ++ part_line number spec.now) }
{
    push_number(line, "part ", number)?;
    line.push(" ")?;
    line.push(spec.name.as_str())?;
    line.push(" ")?;
    push_class(line, spec.class)?;
    push_number(line, " limit ", u64::from(spec.limit))?;
    line.push("\n")
}

/// Writes the lines of a journal's events.
pub fn write_events<K: Sink>(alloc: Global, sink: &mut K, events: &[Event]) -> Result<(), WriteStop>
    ensures { Wrote (change K.held K.count sink.old sink.new) result (event_lines 1 events.now) }
{
    write_each(alloc, sink, 1, events)
}

/// Writes a thread's first line.
fn write_thread_line<K: Sink>(
    alloc: Global,
    sink: &mut K,
    number: u64,
    thread: &ThreadSpec,
) -> Result<(), WriteStop>
    ensures { Wrote (change K.held K.count sink.old sink.new) result
        (thread_line number thread.now) }
{
    let mut line = Line::new(alloc);
    push_thread_line(&mut line, number, thread)?;
    write_text(sink, &line)
}

fn push_thread_line(line: &mut Line, number: u64, thread: &ThreadSpec) -> Result<(), NoMemory>
    ensures { OnOk result (line.new ≡ line.old ++ thread_line number thread.now) }
{
    push_number(line, "thread ", number)?;
    line.push(" ")?;
    line.push(thread.name.as_str())?;
    line.push("\n")
}

/// Writes a thread's answers.
fn write_answers<K: Sink>(
    alloc: Global,
    sink: &mut K,
    answers: &[(u32, Answer)],
) -> Result<(), WriteStop>
    ensures { Wrote (change K.held K.count sink.old sink.new) result (answer_lines 1 answers.now) }
{
    write_each(alloc, sink, 1, answers)
}

/// Writes the lines of the threads, numbered from `number` on.
#[tactic(auto, unfolding(report_defs::specs::ReportText::threads_text))]
pub fn write_threads<K: Sink>(
    alloc: Global,
    sink: &mut K,
    number: u64,
    threads: &[ThreadSpec],
    answers: &[PartAnswers],
) -> Result<(), WriteStop>
    requires { number + length threads.now < 2 ^ 64 }
    ensures { Wrote (change K.held K.count sink.old sink.new) result
        (threads_text number threads.now answers.now) }
{
    let Some((thread, more_threads)) = threads.split_first() else {
        return Ok(());
    };
    let Some((own, more_answers)) = answers.split_first() else {
        return Ok(());
    };
    write_thread_line(alloc, sink, number, thread)?;
    write_answers(alloc, sink, own.as_slice())?;
    write_threads(alloc, sink, number + 1, more_threads, more_answers)
}

/// Writes the line of a mirror's thread with the mirror's answers; writes nothing if there is no thread.
#[tactic(auto, unfolding(crate::specs::Mirrored::mirror_threads_text))]
pub fn write_mirror_threads<K: Sink>(
    alloc: Global,
    sink: &mut K,
    threads: &[ThreadSpec],
    answers: &[MirrorAnswer],
) -> Result<(), WriteStop>
    ensures { Wrote (change K.held K.count sink.old sink.new) result
        (mirror_threads_text threads.now answers.now) }
{
    let Some((thread, _)) = threads.split_first() else {
        return Ok(());
    };
    write_thread_line(alloc, sink, 0, thread)?;
    write_each(alloc, sink, 1, answers)
}

/// Writes the last line.
pub fn write_status_line<K: Sink>(alloc: Global, sink: &mut K, status: u32) -> Result<(), WriteStop>
    ensures { Wrote (change K.held K.count sink.old sink.new) result (status_line status) }
{
    let mut line = Line::new(alloc);
    push_number(&mut line, "status ", u64::from(status))?;
    line.push("\n")?;
    write_text(sink, &line)
}
