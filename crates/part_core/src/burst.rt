//! The step Burst: a context runs to its crossing, and what the crossing requests is done.

ghost use Rattle.std.specs.Prelude.{◌≡◌, ◌+◌, ◌^◌, ◌<◌};
ghost use Rattle.part_defs.specs.Domain.{attempt_bursts};
ghost use Rattle.part_defs.specs.Steps.{burst_stepped, served_number};
ghost use Rattle.machine_defs.specs.BurstFaults.{faults_of_burst};
ghost use Rattle.part_core.specs.Crossings.{IsCrossable};
ghost use Rattle.part_core.specs.Turning.{IsStepOf};

use crate::crossing::Outcome;
use crate::rooms::Rooms;
use crate::state::State;
use domain_call::BurstDone;
use nook_data::limits::{MOST_BURSTS, SHADOW};
use nook_data::machine::Acts;
use nook_data::memory::NoMemory;
use nook_data::scenario::Fault;
use nook_data::steps::Event;
use std::mem;

impl State {
    /// Runs one burst of a context, with the faults of its number. It allocates its memory first.
    #[tactic(auto, unfolding(part_defs::specs::Steps::burst_stepped))]
    pub fn burst(&mut self, context: u8, faults: &[Fault]) -> Result<Event, NoMemory>
        requires crossable { IsCrossable context self.old }
        requires attempt { attempt_bursts context self.old.domain < MOST_BURSTS }
        requires few { self.old.bursts < 2 ^ 31 }
        requires faults { faults.now ≡ faults_of_burst (self.old.bursts + 1) self.old.spec.faults }
        ensures { IsStepOf (burst_stepped context self.old) self.old result self.new }
    {
        self.rooms.fill(self.alloc)?;
        let mut acts = self.spare.open_log()?;
        let mut rooms = mem::replace(&mut self.rooms, Rooms::none());
        let call = self.served_number(context);
        let done = self.domain.burst(context, faults, &mut acts);
        self.bursts += 1;
        let burst = self.bursts;
        let outcome = self.cross(context, done.end, &mut rooms);
        self.rooms = rooms;
        let acts = self.spare.close_log(acts);
        Ok(bursted(context, call, burst, &done, acts, outcome))
    }

    /// The number of the call that a context serves; 0 for the shadow's own.
    fn served_number(&self, context: u8) -> u32
        ensures { result ≡ served_number context self.now }
    {
        if context == SHADOW {
            return 0;
        }
        match self.log.call_of_thread(context) {
            Some(entry) => entry.call,
            None => 0,
        }
    }
}

/// The event of a burst.
fn bursted(
    context: u8,
    call: u32,
    burst: u32,
    done: &BurstDone,
    acts: Acts,
    outcome: Outcome,
) -> Event
    ensures { result ≡ Event.Burst context call burst done.now.count outcome.end acts outcome.answer
        outcome.failure }
{
    Event::Burst {
        context,
        call,
        burst,
        count: done.count,
        end: outcome.end,
        acts,
        answer: outcome.answer,
        failure: outcome.failure,
    }
}
