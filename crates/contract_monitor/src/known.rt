//! What is known of a part after some of its events.

ghost use Rattle.std.specs.Prelude.{◌≡◌, ◌-◌, IfOk, OnOk};
ghost use Rattle.promise_defs.specs.Contract.{deeds_of};
ghost use Rattle.contract_monitor.specs.Judging.{event_broken, first_broken};
ghost use Rattle.contract_monitor.specs.Keeping.{kept_after, kept_burst, kept_first, losses_of};

use crate::blocks::{blank_blocks, copy_blocks, copy_queue};
use crate::calls::{Call, copy_calls};
use crate::clauses::smaller;
use class_table::defaults_of;
use nook_data::calls::Answer;
use nook_data::classes::Class;
use nook_data::clause::Clause;
use nook_data::lists::{TryCopy, Words};
use nook_data::machine::Act;
use nook_data::memory::NoMemory;
use nook_data::steps::{End, Event, FailCause};
use nook_data::verdicts::Losses;
use std::alloc::Global;
use std::collections::VecDeque;
use std::marker::Model;

/// The counts other than those of each call. `kept`, `popped` and `cleared` count frames that the ring took, that the
/// driver took from it and that Resets cleared; `popped_since` and `handed_since` count since the last Reset.
#[derive(Clone, Copy)]
pub struct LossCounts {
    pub sends: u64,
    pub samples: u64,
    pub busy: u64,
    pub arrived: u64,
    pub received: u64,
    pub taken: u64,
    pub refused: u64,
    pub kept: u64,
    pub lost: u64,
    pub popped: u64,
    pub cleared: u64,
    pub popped_since: u64,
    pub handed_since: u64,
    pub reset: u64,
}

/// The medium, ring and registers after the events, the frames popped since the last Load and not handed up, the open
/// calls, and the counts. Contracts see what is kept of the state that the definitions of the contract and of the
/// losses describe.
pub struct Known {
    pub alloc: Global,
    pub class: Class,
    pub medium: Vec<Words>,
    pub ring: VecDeque<Words>,
    pub registers: [u32; 4],
    /// The frames popped since the last Load, without as many as were handed up.
    pub pending: VecDeque<Words>,
    pub calls: Vec<Call>,
    pub replay: Option<(u32, u32)>,
    pub effects: LossCounts,
}

impl Model for Known {
    ghost use Rattle.std.specs.Prelude.{[], map};
    ghost use Rattle.contract_monitor.specs.Calls.{open_of, effects_of};
    ghost use Rattle.contract_monitor.specs.Keeping.{MonitorState};

    ghost Value = { MonitorState };

    ghost view = { λ s. record {
      known = record {
        class = s.class;
        medium = s.medium.items;
        ring = s.ring.items;
        registers = s.registers;
        popped = s.pending.items;
        handed = [];
        calls = map open_of s.calls.items;
        replay = s.replay;
      };
      call_effects = map effects_of s.calls.items;
      counts = record {
        sends = s.effects.sends;
        samples = s.effects.samples;
        busy = s.effects.busy;
        arrived = s.effects.arrived;
        received = s.effects.received;
        taken = s.effects.taken;
        refused = s.effects.refused;
        lost = s.effects.lost;
        locations = record {
          kept = s.effects.kept;
          popped = s.effects.popped;
          cleared = s.effects.cleared;
          popped_since = s.effects.popped_since;
          handed_since = s.effects.handed_since;
          reset = s.effects.reset;
        };
      };
    } };
}

impl Drop for Known {
    /// Written by hand, so that it is proved once and not in each function that owns a value.
    fn drop(self) {
        let Known {
            alloc: _,
            class: _,
            medium: _,
            ring: _,
            registers: _,
            pending: _,
            calls: _,
            replay: _,
            effects: _,
        } = self;
    }
}

impl Known {
    /// What is known before the first event, with a disk of this many blocks.
    pub fn new(alloc: Global, class: Class, blocks: u32) -> Result<Known, NoMemory>
        ensures { IfOk result (λ known. known ≡ kept_first class blocks) }
    {
        Ok(Known {
            alloc,
            class,
            medium: blank_blocks(alloc, class, blocks)?,
            ring: VecDeque::new(alloc),
            registers: defaults_of(class),
            pending: VecDeque::new(alloc),
            calls: Vec::new(alloc),
            replay: None,
            effects: LossCounts {
                sends: 0,
                samples: 0,
                busy: 0,
                arrived: 0,
                received: 0,
                taken: 0,
                refused: 0,
                kept: 0,
                lost: 0,
                popped: 0,
                cleared: 0,
                popped_since: 0,
                handed_since: 0,
                reset: 0,
            },
        })
    }

    /// The numbers of losses and frames.
    pub fn losses(&self) -> Losses
        ensures { result ≡ losses_of self.now.counts }
    {
        let effects = &self.effects;
        Losses {
            sends: effects.sends,
            samples: effects.samples,
            busy: effects.busy,
            arrived: effects.arrived,
            received: effects.received,
            queued: effects.taken.saturating_sub(effects.received),
            ring: in_ring(effects),
            driver: in_driver(effects),
            reset: effects.reset,
            full_ring: effects.lost,
            full_queue: effects.refused,
        }
    }

    /// Takes one more event, and returns the smallest clause that it breaks.
    pub fn see(&mut self, event: &Event) -> Result<Option<Clause>, NoMemory>
        ensures kept { OnOk result (self.new ≡ kept_after self.old event.now) }
        ensures broken { IfOk result (λ clause. clause ≡ event_broken self.old.known event.now) }
    {
        match event {
            Event::Invoke {
                call,
                op,
                answer,
                ..
            } => {
                self.add(*call, op)?;
                self.answer_one(*call, answer)?;
                Ok(None)
            }
            Event::Enter { call, answer, .. } => {
                self.enter(*call)?;
                self.answer_one(*call, answer)?;
                Ok(None)
            }
            Event::Burst {
                call,
                end,
                acts,
                answer,
                failure,
                ..
            } => {
                let broken = self.see_burst(*call, acts.as_slice(), end, answer, failure)?;
                self.answer_one(*call, answer)?;
                Ok(broken)
            }
            Event::Stage { stage, answers, .. } => {
                self.see_stage(*stage)?;
                self.answer_all(answers.as_slice())?;
                Ok(None)
            }
            Event::Arrive { frame, kept } => {
                self.see_arrival(frame, *kept)?;
                Ok(None)
            }
        }
    }

    /// Takes a burst of a call, and returns the smallest clause that it breaks; the call is still open.
    fn see_burst(
        &mut self,
        call: u32,
        acts: &[Act],
        end: &End,
        answer: &Option<Answer>,
        failure: &Option<FailCause>,
    ) -> Result<Option<Clause>, NoMemory>
        ensures kept { OnOk result
            (self.new ≡ kept_burst call acts.now end.now answer.now failure.now self.old) }
        ensures broken { IfOk result (λ clause. clause
            ≡ first_broken call self.old.known (deeds_of acts.now end.now answer.now failure.now)) }
    {
        let at_acts = self.see_acts(call, acts)?;
        let at_crossing = self.see_crossing(call, end, answer, failure)?;
        Ok(smaller(at_acts, at_crossing))
    }
}

impl TryCopy for Known {
    fn copy(&self, alloc: Global) -> Result<Known, NoMemory> {
        Ok(Known {
            alloc,
            class: self.class,
            medium: copy_blocks(alloc, &self.medium)?,
            ring: copy_queue(alloc, &self.ring)?,
            registers: self.registers,
            pending: copy_queue(alloc, &self.pending)?,
            calls: copy_calls(alloc, &self.calls)?,
            replay: self.replay,
            effects: self.effects,
        })
    }
}

/// The frames in the ring.
pub fn in_ring(effects: &LossCounts) -> u64
    ensures { result ≡ effects.now.kept - effects.now.popped - effects.now.cleared }
{
    effects
        .kept
        .saturating_sub(effects.popped)
        .saturating_sub(effects.cleared)
}

/// The frames that the driver popped and did not hand up.
pub fn in_driver(effects: &LossCounts) -> u64
    ensures { result ≡ effects.now.popped_since - effects.now.handed_since }
{
    effects.popped_since.saturating_sub(effects.handed_since)
}
