//! The lines after the sections: the threads with their answers, the program's own listeners, the status.

ghost use Rattle.std.specs.Prelude.{◌≡◌, ◌≤◌, ◌++◌, [], ◌∷◌, ℕ, List, IfOk, MatchOption, OnOk, if◌then◌else◌, length};
ghost use Rattle.std.specs.Prelude.{map, slice_index_or, slice_set};
ghost use Rattle.run_laws.specs.Audit.{Done, answers_in_order, in_script_order, last_lines};
ghost use Rattle.journal_audit.specs.Found.{at_last, between, found_from};
ghost use Rattle.journal_audit.specs.Position.{Follows};
ghost use Rattle.journal_audit.specs.Stopping.{Checks};
ghost use Rattle.journal_audit.specs.PastSections.{SumsUp, answers_in};
ghost use Rattle.report_defs.specs.ReportText.{ending_text, threads_text};
ghost use Rattle.nook_data.specs.declared.calls.Answer.{Answer};
ghost use Rattle.nook_data.specs.declared.scenario.Scenario.{Scenario};
ghost use Rattle.nook_io.specs.Changes.{change};
ghost use Rattle.run_results.specs.Statuses.{status_number};
ghost use Rattle.report_text.specs.Writing.{Wrote};

use crate::comparing::Comparing;
use crate::cursor::Cursor;
use crate::past::PastSections;
use crate::stop::Stop;
use nook_data::calls::{Answer, AnswerTable, Op, PartAnswers};
use nook_data::limits::MOST_THREADS;
use nook_data::lists::{Items, TryCopy};
use nook_data::memory::NoMemory;
use nook_data::scenario::ThreadSpec;
use nook_io::listeners::TapTotals;
use nook_io::outside::Sink;
use report_text::{WriteStop, write_ending_text, write_threads};
use run_results::ReportStatus;
use std::alloc::Global;
use std::marker::Model;

/// Checks the lines after the sections, which are the last ones.
pub fn check_last(
    alloc: Global,
    cursor: &mut Cursor,
    threads: &[ThreadSpec],
    past: &PastSections,
) -> Result<(), Stop>
    requires { length threads.now ≤ MOST_THREADS }
    ensures checks { (scenario : Scenario) (sections : List Done) → scenario.threads ≡ threads.now
        → SumsUp scenario.parts sections past.now
        → Checks result (found_from scenario (between sections []) cursor.old)
        (found_from scenario (at_last sections []) cursor.new) }
    ensures text { (scenario : Scenario) (sections : List Done) → scenario.threads ≡ threads.now
        → SumsUp scenario.parts sections past.now
        → OnOk result (Follows (last_lines scenario sections) cursor.old cursor.new) }
{
    let answers = answers_in_order(alloc, threads, past.answers())?;
    let taps = past.taps(alloc)?;
    let mut compared = Comparing::new(cursor.rest());
    let written = write_last(
        alloc,
        &mut compared,
        threads,
        answers.as_slice(),
        &taps,
        past.status(),
    );
    cursor.settle(&compared, written)
}

/// Writes the lines after the sections.
fn write_last<K: Sink>(
    alloc: Global,
    sink: &mut K,
    threads: &[ThreadSpec],
    answers: &[PartAnswers],
    taps: &TapTotals,
    status: ReportStatus,
) -> Result<(), WriteStop>
    requires { length threads.now ≤ MOST_THREADS }
    ensures { Wrote (change K.held K.count sink.old sink.new) result
        (threads_text 0 threads.now answers.now
        ++ ending_text taps.now (status_number status)) }
{
    write_threads(alloc, sink, 0, threads, answers)?;
    write_ending_text(alloc, sink, taps.as_slice(), status.number())
}

/// Each thread's answers in the order of its script.
fn answers_in_order(
    alloc: Global,
    threads: &[ThreadSpec],
    sections: &[AnswerTable],
) -> Result<AnswerTable, NoMemory>
    ensures { IfOk result (λ made. (past : List Done) → map answers_in past ≡ sections.now
        → made ≡ answers_in_order 0 threads.now past) }
{
    let mut made = Items::new(alloc);
    for thread in 0..threads.len() {
        let mut given = Given::new(alloc, thread, sections)?;
        made.push(in_script_order(alloc, threads[thread].ops.as_slice(), &mut given)?)?;
    }
    Ok(made)
}

/// The answers of a script in its order: each operation takes the next answer that its part gave the thread.
fn in_script_order(
    alloc: Global,
    ops: &[(u32, Op)],
    given: &mut Given,
) -> Result<PartAnswers, NoMemory>
    ensures { IfOk result (λ made. made ≡ in_script_order ops.now given.old) }
{
    let mut made = Items::new(alloc);
    for op in ops {
        let Some(answer) = given.take(op.0) else {
            return Ok(made);
        };
        made.push(answer.copy(alloc)?)?;
    }
    Ok(made)
}

/// The answers of the sections to a thread that were not taken, one list for each part.
#[derive(Drop)]
struct Given<'a> {
    lists: Vec<&'a [(u32, Answer)]>,
}

impl<'a> Model for Given<'a> {
    ghost use Rattle.std.specs.Prelude.{ℕ, List, map};
    ghost use Rattle.nook_data.specs.declared.calls.Answer.{Answer as Answered};

    ghost Value = { List (List (ℕ × Answered)) };

    ghost view = { λ s. map (λ l. l.now) s.lists.items };
}

impl<'a> Given<'a> {
    /// What the sections answered a thread.
    fn new(alloc: Global, thread: usize, sections: &'a [AnswerTable]) -> Result<Given<'a>, NoMemory>
        ensures { IfOk result
            (λ given. given ≡ map (λ answers. slice_index_or answers thread []) sections.now) }
    {
        let mut lists = Vec::with_capacity(alloc, sections.len())?;
        for section in sections {
            lists.push(answers_to(thread, section))?;
        }
        Ok(Given { lists })
    }

    /// Takes the next answer of a part; none if no answer is left.
    fn take(&mut self, part: u32) -> Option<&'a (u32, Answer)>
        ensures { MatchOption result (slice_index_or self.old part [] ≡ [])
            (λ answer. (more : List (ℕ × Answer))
            × (slice_index_or self.old part [] ≡ answer.now ∷ more)
            × (self.new ≡ slice_set self.old part more)) }
    {
        let part = part as usize;
        if part >= self.lists.len() {
            return None;
        }
        let (answer, more) = self.lists[part].split_first()?;
        self.lists[part] = more;
        Some(answer)
    }
}

/// What a section answered a thread.
fn answers_to(thread: usize, section: &AnswerTable) -> &[(u32, Answer)]
    ensures { result.now ≡ slice_index_or section.now thread [] }
{
    match section.as_slice().get(thread) {
        Some(answers) => answers.as_slice(),
        None => &[],
    }
}
