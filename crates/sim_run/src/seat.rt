//! A part of a run with the frames that have not arrived.

ghost use Rattle.std.specs.Prelude.{◌≡◌, ◌-◌, ◌<◌, true, is_some, Some, length, slice_get, IfOk, OnErr, OnOk};
ghost use Rattle.part_defs.specs.Runs.{event_of, next_for, next_recovery};
ghost use Rattle.run_defs.specs.Simulation.{arrival, coming_after, invocation, opening_part, part_after};
ghost use Rattle.sim_run.specs.Bursts.{is_burst, shown_burst, shown_step};
ghost use Rattle.sim_run.specs.Ends.{end_of_seat};
ghost use Rattle.sim_run.specs.Watched.{HasSeen, IsOneAfter, first_break_of};
ghost use Rattle.part_defs.specs.Steps.{enabled};
ghost use Rattle.nook_data.specs.Valid.{IsValidPart};

use crate::whole_run::FoundBurst;
use contract_monitor::Monitor;
use nook_data::calls::Op;
use nook_data::journal::Journal;
use nook_data::lists::{TryCopy, Words};
use nook_data::memory::NoMemory;
use nook_data::scenario::PartSpec;
use nook_data::steps::{Event, Step};
use part_core::{LeftRooms, Part};
use run_ends::end_of;
use run_results::PartEnd;
use std::alloc::Global;
use std::marker::Model;

mod packed;

pub use packed::PackedSeat;

/// A part and the frames that have not arrived. Whether its actors have a step is found once after each step.
#[derive(Drop)]
pub struct SimulatedPart<'a> {
    part: Part,
    coming: &'a [Words],
    has_recovery: bool,
    has_arrival: bool,
}

impl<'a> Model for SimulatedPart<'a> {
    ghost use Rattle.std.specs.Prelude.{◌≡◌, is_some};
    ghost use Rattle.part_defs.specs.Runs.{next_recovery};
    ghost use Rattle.run_defs.specs.Simulation.{RunningPart, arrival};

    ghost Value = { RunningPart };

    ghost view = { λ s. record { run = s.part; coming = s.coming.now } };

    ghost invariant = { λ s. (s.has_recovery ≡ is_some (next_recovery s.part.state))
        × (s.has_arrival ≡ is_some (arrival s.part s.coming.now)) };
}

impl<'a> SimulatedPart<'a> {
    /// A valid part at the start of its boot; none of its frames has arrived.
    pub fn new(
        alloc: Global,
        spec: &'a PartSpec,
        left: &mut LeftRooms,
    ) -> Result<SimulatedPart<'a>, NoMemory>
        requires { IsValidPart spec.now }
        ensures { IfOk result (λ seat. seat ≡ opening_part spec.now) }
    {
        let part = Part::over(alloc, spec.copy(alloc)?, left)?;
        let coming = spec.arrivals.as_slice();
        let has_recovery = part.next_recovery().is_some();
        let has_arrival = may_arrive(&part, coming);
        Ok(SimulatedPart {
            part,
            coming,
            has_recovery,
            has_arrival,
        })
    }

    /// The part.
    pub fn part(&self) -> &Part
        ensures { result.now ≡ self.now.run }
    {
        &self.part
    }

    /// The final state of the part, if it ends now.
    pub fn end(&self, alloc: Global) -> Result<PartEnd, NoMemory>
        ensures { IfOk result (λ end. end ≡ end_of_seat self.now) }
    {
        end_of(alloc, &self.part)
    }

    /// Whether the thread may invoke an operation now.
    #[tactic(auto, unfolding(part_defs::specs::Steps::enabled))]
    pub fn can_invoke(&self, thread: u8, op: &Op) -> bool
        ensures { result ≡ is_some (invocation thread op.now (Some self.now)) }
    {
        let _op = op;
        self.part.can_invoke(thread)
    }

    /// The next step of the thread's open call, if it may be taken.
    pub fn going_on(&self, thread: u8) -> Option<Step>
        ensures { result ≡ next_for self.now.run.state thread }
    {
        self.part.next_for(thread)
    }

    /// The next step of the boot or of a recovery, if it may be taken.
    pub fn recovery(&self) -> Option<Step>
        ensures { result ≡ next_recovery self.now.run.state }
    {
        self.part.next_recovery()
    }

    /// Whether the boot or a recovery has a step.
    pub fn has_recovery(&self) -> bool
        ensures { result ≡ is_some (next_recovery self.now.run.state) }
    {
        self.has_recovery
    }

    /// Whether a frame remains and may arrive now.
    pub fn has_arrival(&self) -> bool
        ensures { result ≡ is_some (arrival self.now.run self.now.coming) }
    {
        self.has_arrival
    }

    /// The arrival of the next frame, if one remains and may arrive now.
    #[tactic(auto, unfolding(part_defs::specs::Steps::enabled))]
    pub fn arrival(&self, alloc: Global) -> Result<Option<Step>, NoMemory>
        ensures { IfOk result (λ step. step ≡ arrival self.now.run self.now.coming) }
    {
        let Some((frame, _)) = self.coming.split_first() else {
            return Ok(None);
        };
        if !self.part.can_arrive(frame) {
            return Ok(None);
        }
        let frame = frame.copy(alloc)?;
        Ok(Some(Step::Arrive { frame }))
    }

    /// Takes a step that may be taken now. An arrival brings the next frame.
    pub fn take(&mut self, step: Step) -> Result<(), NoMemory>
        requires { enabled self.old.run.state step ≡ true }
        ensures ok { OnOk result (self.new ≡ part_after step self.old) }
        ensures err { OnErr result (self.new ≡ self.old) }
    {
        let coming = frames_after(&step, self.coming);
        self.part.take(step)?;
        self.coming = coming;
        self.has_recovery = self.part.next_recovery().is_some();
        self.has_arrival = may_arrive(&self.part, coming);
        Ok(())
    }

    /// The newest event.
    pub fn newest(&self) -> &Event
        requires { 0 < length self.now.run.journal }
        ensures { slice_get self.now.run.journal (length self.now.run.journal - 1)
            ≡ Some result.now }
    {
        let journal = self.part.journal();
        journal.get(journal.len() - 1)
    }

    /// Whether a step of the part is its burst `number`.
    #[tactic(auto, using(crate::proofs::Seeking::burst_numbered, crate::proofs::Seeking::none_numbered))]
    pub fn is_burst(&self, step: &Step, number: u32) -> bool
        ensures { result ≡ is_burst number (event_of self.now.run.state step.now) }
    {
        match step {
            Step::Burst { .. } => self.part.bursts() + 1 == number,
            _ => false,
        }
    }

    /// Takes a step that may be taken now, as the part's last one. Returns the domain before it, and the step's event.
    pub fn take_last(&mut self, alloc: Global, step: Step) -> Result<FoundBurst, NoMemory>
        requires { enabled self.old.run.state step ≡ true }
        ensures { IfOk result (λ found. shown_burst found ≡ shown_step self.old.run.state step) }
    {
        let domain = self.part.domain().copy(alloc)?;
        self.take(step)?;
        let event = self.newest().copy(alloc)?;
        Ok(FoundBurst { domain, event })
    }

    /// A monitor of the part that has seen its journal.
    pub fn monitor(&self, alloc: Global) -> Result<Monitor, NoMemory>
        ensures { IfOk result (HasSeen self.now) }
    {
        let spec = self.part.spec();
        let events = self.part.journal().as_slice();
        Monitor::of_events(alloc, spec.class, spec.blocks, events)
    }

    /// Shows the part's monitor the newest event, which it has not seen. Returns whether the part has broken a clause.
    /// After `NoMemory` the monitor is useless.
    pub fn judge_newest(&self, monitor: &mut Monitor) -> Result<bool, NoMemory>
        requires { IsOneAfter self.now monitor.old }
        ensures seen { OnOk result (HasSeen self.now monitor.new) }
        ensures broken { IfOk result (λ broken. broken ≡ is_some (first_break_of self.now)) }
    {
        monitor.see_or_give_up(self.newest())?;
        Ok(monitor.first_break().is_some())
    }

    /// The journal. The part leaves its other memory in `left`.
    pub fn into_journal(self, left: &mut LeftRooms) -> Journal
        ensures { result.list ≡ self.entry.run.journal }
    {
        self.part.into_journal_leaving(left)
    }
}

/// Whether a frame remains and may arrive now.
#[tactic(auto, unfolding(part_defs::specs::Steps::enabled))]
fn may_arrive(part: &Part, coming: &[Words]) -> bool
    ensures { result ≡ is_some (arrival part.now coming.now) }
{
    match coming.split_first() {
        Some((frame, _)) => part.can_arrive(frame),
        None => false,
    }
}

/// The frames that remain after a step.
fn frames_after<'a>(step: &Step, coming: &'a [Words]) -> &'a [Words]
    ensures { result.now ≡ coming_after step.now coming.now }
{
    match (step, coming.split_first()) {
        (Step::Arrive { .. }, Some((_, rest))) => rest,
        _ => coming,
    }
}
