//! A step that an actor can take.

ghost use Rattle.std.specs.Prelude.{◌≡◌};
ghost use Rattle.sim_run.specs.Actors.{choice_by};

use nook_data::steps::Step;
use std::marker::Model;

/// A step that an actor can take, and the part that takes it.
#[derive(Drop)]
pub struct Chosen {
    actor: u16,
    part: u32,
    step: Step,
}

impl Model for Chosen {
    ghost use Rattle.run_defs.specs.Simulation.{Choice};

    ghost Value = { Choice };

    ghost view = { λ s. record { actor = s.actor; part = s.part; step = s.step } };
}

impl Chosen {
    /// The choice of an actor, if it has a step.
    pub fn of_step(actor: u16, part: u32, step: Option<Step>) -> Option<Chosen>
        ensures { result ≡ choice_by actor part step }
    {
        match step {
            Some(step) => Some(Chosen { actor, part, step }),
            None => None,
        }
    }

    /// The part that takes the step.
    pub fn part(&self) -> u32
        ensures { result ≡ self.now.part }
    {
        self.part
    }

    /// The step.
    pub fn step(&self) -> &Step
        ensures { result.now ≡ self.now.step }
    {
        &self.step
    }

    /// The step, moved out.
    pub fn into_step(self) -> Step
        ensures { result ≡ self.step }
    {
        self.step
    }
}
