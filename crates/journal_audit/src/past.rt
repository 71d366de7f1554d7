//! What the audit keeps of the finished sections.

ghost use Rattle.std.specs.Prelude.{◌≡◌, ◌<◌, ◌++◌, ◌∷◌, List, [], IfOk, OnOk, if◌then◌else◌, length, map};
ghost use Rattle.event_order.specs.Lefts.{events_in};
ghost use Rattle.run_laws.specs.Audit.{Done, done_of, each_of_part, own_listeners};
ghost use Rattle.part_defs.specs.Runs.{state_of};
ghost use Rattle.part_defs.specs.Stages.{is_given_up};
ghost use Rattle.nook_data.specs.declared.scenario.PartSpec.{PartSpec};
ghost use Rattle.journal_audit.specs.LinesLeft.{FirstLeftIs};
ghost use Rattle.journal_audit.specs.PastSections.{SumsUp, judged_in};
ghost use Rattle.run_results.specs.Statuses.{status_number};
ghost use Rattle.request_taps.specs.Bus.{result_of, seen, settled, after_hearing_all};

use crate::own::own_listeners;
use crate::section::Section;
use event_order::first_left;
use nook_data::calls::AnswerTable;
use nook_data::journal::Journal;
use nook_data::lists::Items;
use nook_data::memory::NoMemory;
use nook_data::scenario::ThreadSpec;
use nook_data::steps::Event;
use nook_io::listeners::{CountListener, TapTotals};
use nook_io::outside::Listener;
use request_taps::Bus;
use run_results::{PartReport, ReportStatus};
use std::alloc::Global;
use std::marker::Model;

/// What the audit keeps of the finished sections: the answers, the journals, what the program's own listeners heard,
/// and whether some part broke its contract or was given up.
#[derive(Drop)]
pub struct PastSections {
    answers: Items<AnswerTable>,
    journals: Items<Journal>,
    /// The number of the line after each section's events.
    ends: Vec<u64>,
    taps: Bus<CountListener>,
    broken: bool,
    given_up: bool,
}

impl Model for PastSections {
    ghost use Rattle.std.specs.Prelude.{map};
    ghost use Rattle.event_order.specs.Lefts.{events_in};
    ghost use Rattle.journal_audit.specs.PastSections.{Past};
    ghost use Rattle.request_taps.specs.Bus.{seen};

    ghost Value = { Past };

    ghost view = { λ s. record {
      answers = s.answers;
      journals = map events_in s.journals;
      ends = s.ends.items;
      taps = map (seen ⟦<CountListener as Listener>⟧.listening) s.taps;
      broken = s.broken;
      given_up = s.given_up;
    } };
}

impl PastSections {
    /// Starts with no section.
    pub fn new(alloc: Global) -> Result<PastSections, NoMemory>
        ensures sums { IfOk result (λ past. SumsUp [] [] past) }
        ensures ends { IfOk result (λ past. past.ends ≡ []) }
    {
        Ok(PastSections {
            answers: Items::new(alloc),
            journals: Items::new(alloc),
            ends: Vec::new(alloc),
            taps: own_taps(alloc)?,
            broken: false,
            given_up: false,
        })
    }

    /// Adds a section that is over, with what was summed up of it and the number of the line after its events.
    pub fn add(
        &mut self,
        alloc: Global,
        section: Section,
        judged: &PartReport,
        end: u64,
    ) -> Result<(), NoMemory>
        requires index { section.index < 256 }
        requires judged { judged.now ≡ judged_in section }
        ensures ends { OnOk result (self.new.ends ≡ self.old.ends ++ end ∷ []) }
        ensures sums { (specs : List PartSpec) (sections : List Done)
            → length specs ≡ section.entry.index
            → SumsUp specs sections self.old
            → OnOk result (SumsUp (specs ++ section.entry.spec ∷ [])
            (sections ++ done_of section.entry ∷ []) self.new) }
    {
        hear_all(&mut self.taps, section.index() as u8, section.events());
        self.broken |= judged.first_break.is_some();
        self.given_up |= is_given_up(&section);
        let done = section.into_done(alloc)?;
        self.answers.push(done.answers)?;
        self.journals.push(done.journal)?;
        self.ends.push(end)?;
        Ok(())
    }

    /// The line number of the first event left if the events of all sections are taken as long as one may be taken;
    /// none if every event was taken.
    pub fn first_left(&self, alloc: Global, threads: &[ThreadSpec]) -> Result<Option<u64>, NoMemory>
        requires { length self.now.ends ≡ length self.now.journals }
        ensures { IfOk result (FirstLeftIs threads.now self.now) }
    {
        match first_left(alloc, threads, self.journals.as_slice())? {
            Some(first) => Ok(Some(self.ends[first.part].saturating_sub(first.count as u64))),
            None => Ok(None),
        }
    }

    /// What each section answered each thread.
    pub fn answers(&self) -> &[AnswerTable]
        ensures { result.now ≡ self.now.answers }
    {
        self.answers.as_slice()
    }

    /// The totals of the program's own listeners, and whether each is still attached.
    pub fn taps(&self, alloc: Global) -> Result<TapTotals, NoMemory>
        ensures { IfOk result (λ taps. taps ≡ map result_of self.now.taps) }
    {
        self.taps.totals(alloc)
    }

    /// The status of a report of the sections.
    pub fn status(&self) -> ReportStatus
        ensures { status_number result
            ≡ (if self.now.broken then 7 else if self.now.given_up then 1 else 0) }
    {
        ReportStatus::of(self.broken, self.given_up)
    }
}

/// Whether a section's part was given up.
fn is_given_up(section: &Section) -> bool
    ensures { result ≡ is_given_up (state_of section.now.spec section.now.seat.run.journal) }
{
    let _events = section.events();
    section.spec().limit < section.part().failures()
}

/// The program's own listeners, before they hear anything.
fn own_taps(alloc: Global) -> Result<Bus<CountListener>, NoMemory>
    ensures { IfOk result (λ taps. map (seen ⟦<CountListener as Listener>⟧.listening) taps
        ≡ map settled own_listeners) }
{
    let listeners = own_listeners(alloc)?;
    Bus::of(alloc, listeners)
}

/// The listeners hear the events of a part.
fn hear_all<L: Listener>(taps: &mut Bus<L>, part: u8, events: &[Event])
    ensures { map (seen L.listening) taps.new
        ≡ after_hearing_all (each_of_part part events.now) (map (seen L.listening) taps.old) }
{
    for event in events {
        taps.publish(part, event);
    }
}
