//! The state of a part, without its journal.

ghost use Rattle.std.specs.Prelude.{◌≡◌, true, IfOk};
ghost use Rattle.part_defs.specs.Steps.{enabled, opening, stepped};
ghost use Rattle.nook_data.specs.Valid.{IsValidPart};
ghost use Rattle.part_core.specs.Kept.{AreSameFaults, IsSound};
ghost use Rattle.part_core.specs.Turning.{IsStepOf};

mod packed;

use crate::left_rooms::LeftRooms;
use crate::open_calls::OpenCalls;
use crate::rooms::Rooms;
use class_table::defaults_of;
use domain_call::Domain;
use fault_script::FaultScript;
use kernel_services::RxQueue;
use nook_data::journal::SpareRooms;
use nook_data::memory::NoMemory;
use nook_data::scenario::PartSpec;
use nook_data::steps::{Event, Mode, Stage, Step};
pub use packed::PackedState;
use std::alloc::Global;
use std::marker::Model;

/// A part without its journal. Contracts see the definition's part.
pub struct State {
    pub spec: PartSpec,
    pub domain: Domain,
    pub log: OpenCalls,
    pub queue: RxQueue,
    pub mode: Mode,
    pub failures: u32,
    pub bursts: u32,
    pub arrived: u32,
    pub spare: SpareRooms,
    pub rooms: Rooms,
    pub alloc: Global,
}

impl Model for State {
    ghost use Rattle.std.specs.Prelude.{◌≡◌, ◌+◌, length};
    ghost use Rattle.part_defs.specs.State.{PartState};
    ghost use Rattle.nook_data.specs.declared.memory_map.TheConstants.{DATA_START};

    ghost Value = { PartState };

    ghost view = { λ s. record {
      spec = s.spec;
      domain = s.domain.state;
      log = s.log;
      queue = s.queue;
      mode = s.mode;
      failures = s.failures;
      bursts = s.bursts;
      arrived = s.arrived;
    } };

    ghost invariant = { λ s. (s.domain.heap_start ≡ DATA_START + length s.spec.image.initial)
        × (s.domain.class ≡ s.spec.class) };
}

impl Drop for State {
    /// Written by hand, so that it is proved once and not in each function that owns a state.
    fn drop(self) {
        let State {
            spec: _,
            domain: _,
            log: _,
            queue: _,
            mode: _,
            failures: _,
            bursts: _,
            arrived: _,
            spare: _,
            rooms: _,
            alloc: _,
        } = self;
    }
}

impl State {
    /// A part at the start of its boot, in memory that other parts left.
    #[tactic(auto, unfolding(part_defs::specs::Steps::opening))]
    pub fn over(alloc: Global, spec: PartSpec, left: &mut LeftRooms) -> Result<State, NoMemory>
        requires { IsValidPart spec }
        ensures { IfOk result (λ state. state ≡ opening spec) }
    {
        let domain = Domain::over(alloc, &spec, left.pop_pages())?;
        let queue = RxQueue::new(alloc)?;
        let log = OpenCalls::over(alloc, defaults_of(spec.class), left.take_claims(alloc));
        Ok(State {
            spec,
            domain,
            log,
            queue,
            mode: Mode::Boot { stage: Stage::Load },
            failures: 0,
            bursts: 0,
            arrived: 0,
            spare: left.take(alloc),
            rooms: left.take_rooms(),
            alloc,
        })
    }

    /// Leaves the memory for acts, crossings, pages and claims. The rest is dropped.
    pub fn leave(self, left: &mut LeftRooms) {
        let State {
            spec: _,
            domain,
            log,
            queue: _,
            mode: _,
            failures: _,
            bursts: _,
            arrived: _,
            spare,
            rooms,
            alloc: _,
        } = self;
        left.give(spare);
        left.give_rooms(rooms);
        left.give_pages(domain.into_pages());
        left.give_claims(log.into_claims());
    }

    /// Takes the step. The step may be taken, and what holds of every part holds. If memory runs out, nothing is
    /// changed.
    #[tactic(auto, unfolding(part_defs::specs::Steps::stepped))]
    pub fn step(&mut self, step: Step, script: &FaultScript) -> Result<Event, NoMemory>
        requires enabled { enabled self.old step ≡ true }
        requires sound { IsSound self.old }
        requires script { AreSameFaults script.now self.old.spec.faults }
        ensures { IsStepOf (stepped self.old step) self.old result self.new }
    {
        match step {
            Step::Invoke { thread, op } => self.invoke(thread, op),
            Step::Enter { thread } => Ok(self.enter(thread)),
            Step::Burst { context } => {
                let faults = script.faults_at(self.bursts + 1);
                self.burst(context, faults)
            }
            Step::Stage => self.stage(),
            Step::Arrive { frame } => self.arrive(frame),
        }
    }
}
