//! The outcomes of the parts of a simulation in its current state.

ghost use Rattle.explore_defs.specs.Outcomes.{part_outcome, shown_losses};
ghost use Rattle.explored_run.specs.Alike.{HasSeenRun, run_outcome};
ghost use Rattle.sim_run.specs.Watched.{HaveSeen};
ghost use Rattle.std.specs.Prelude.{◌≡◌, ◌++◌, ◌∷◌, [], IfOk, OnOk, map};

use crate::given::given_of;
use contract_monitor::Monitor;
use explore_defs::PartOutcome;
use nook_data::classes::Class;
use nook_data::lists::Items;
use nook_data::memory::NoMemory;
use nook_data::verdicts::Losses;
use part_core::Part;
use run_ends::end_of;
use run_results::PartEnd;
use sim_run::Simulating;
use std::alloc::Global;

/// The outcome of each part.
#[tactic(auto, using(crate::proofs::Loops::seen_count))]
pub fn outcomes_of(
    alloc: Global,
    simulation: &Simulating,
    monitors: &[Monitor],
) -> Result<Items<PartOutcome>, NoMemory>
    requires { HaveSeen simulation.now.parts monitors.now }
    ensures { IfOk result (λ made. made ≡ map part_outcome simulation.now.parts) }
{
    let mut made = Items::new(alloc);
    for number in 0..simulation.part_count() {
        add_outcome(alloc, simulation.part(number), &monitors[number], &mut made)?;
    }
    Ok(made)
}

/// Adds the outcome of a part whose monitor has seen its journal.
fn add_outcome(
    alloc: Global,
    part: &Part,
    monitor: &Monitor,
    made: &mut Items<PartOutcome>,
) -> Result<(), NoMemory>
    requires { HasSeenRun part.now monitor.now }
    ensures { OnOk result (made.new ≡ made.old ++ run_outcome part.now ∷ []) }
{
    match outcome_of(alloc, part, monitor) {
        Ok(outcome) => made.push(outcome),
        Err(refused) => Err(refused),
    }
}

/// The outcome of a part whose monitor has seen its journal.
fn outcome_of(alloc: Global, part: &Part, monitor: &Monitor) -> Result<PartOutcome, NoMemory>
    requires { HasSeenRun part.now monitor.now }
    ensures { IfOk result (λ made. made ≡ run_outcome part.now) }
{
    let class = part.spec().class;
    let PartEnd {
        objects,
        medium,
        config,
        failures,
    } = end_of(alloc, part)?;
    Ok(PartOutcome {
        objects,
        medium,
        given: given_of(alloc, class, part.journal().as_slice())?,
        config,
        losses: shown_losses(class, monitor.losses()),
        failures,
        broken: monitor.broken_clause(),
    })
}

/// The losses that are reported for a class.
fn shown_losses(class: Class, losses: Losses) -> Losses
    ensures { result ≡ shown_losses class losses }
{
    match class {
        Class::Block => NO_LOSSES,
        Class::Net => Losses {
            samples: 0,
            busy: 0,
            ..losses
        },
        Class::Sound => Losses {
            samples: losses.samples,
            busy: losses.busy,
            ..NO_LOSSES
        },
    }
}

/// Nothing was lost.
const NO_LOSSES: Losses = Losses {
    sends: 0,
    samples: 0,
    busy: 0,
    arrived: 0,
    received: 0,
    queued: 0,
    ring: 0,
    driver: 0,
    reset: 0,
    full_ring: 0,
    full_queue: 0,
};
