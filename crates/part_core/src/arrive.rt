//! The step Arrive: a frame comes to the device.

ghost use Rattle.std.specs.Prelude.{◌≡◌, true};
ghost use Rattle.part_defs.specs.Steps.{after_arrival, enabled};
ghost use Rattle.part_core.specs.Turning.{IsStepOf};

use crate::state::State;
use nook_data::lists::Words;
use nook_data::memory::NoMemory;
use nook_data::steps::{Event, Step};

impl State {
    /// The frame goes to the ring, or is lost if that is full. The event has a copy.
    #[tactic(auto, unfolding(part_defs::specs::Steps::after_arrival, part_defs::specs::Steps::enabled))]
    pub fn arrive(&mut self, frame: Words) -> Result<Event, NoMemory>
        requires { enabled self.old (Step.Arrive frame) ≡ true }
        ensures { IsStepOf (after_arrival frame self.old) self.old result self.new }
    {
        let shown = frame.copied(self.alloc)?;
        self.arrived += 1;
        let kept = self.domain.arrive(frame);
        Ok(Event::Arrive { frame: shown, kept })
    }
}
