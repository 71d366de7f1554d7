//! Why a value is not read, and the path to it.

ghost use Rattle.std.specs.Prelude.{◌≡◌, [], ◌∷◌, Result, Ok, Err, IfOk};
ghost use Rattle.input_defs.specs.Reading.{bad, under};
ghost use Rattle.input_defs.specs.declared.input.Refusal.{Refusal};
ghost use Rattle.input_defs.specs.declared.input.PathStep.TheVariants as step;
ghost use Rattle.scenario_read.specs.Gives.{Gives, IsMissing};

use asm_defs::keys::Key;
use input_defs::input::{InputFault, Path, PathStep, Refusal};
use nook_data::lists::Items;
use nook_data::memory::NoMemory;
use std::alloc::Global;

/// Why nothing was read.
#[derive(Drop)]
pub enum ScenarioFault {
    /// The first input error, with its path.
    Bad(Refusal),
    /// Memory ran out.
    NoMemory,
}

impl From<NoMemory> for ScenarioFault {
    ghost use Rattle.scenario_read.specs.declared.stop.ScenarioFault.TheVariants as stops;

    ghost from_gives = { λ _ stop. stop ≡ stops.NoMemory };

    fn from(_no_memory: NoMemory) -> ScenarioFault {
        ScenarioFault::NoMemory
    }
}

/// An input error at the value that is read.
pub fn bad_here<T: Drop>(alloc: Global, fault: InputFault) -> Result<T, ScenarioFault>
    ensures { Gives result (bad fault) }
{
    Err(ScenarioFault::Bad(Refusal {
        fault,
        path: Items::new(alloc),
    }))
}

/// What was read under a key.
pub fn at<T: Drop>(key: Key, inside: Result<T, ScenarioFault>) -> Result<T, ScenarioFault>
    ensures { (reading : Result T Refusal) → Gives inside reading
        → Gives result (under (step.At key) reading) }
{
    within(PathStep::At(key), inside)
}

/// What was read one step further inside. A refusal gets the step at the beginning of its path.
pub fn within<T: Drop>(step: PathStep, inside: Result<T, ScenarioFault>) -> Result<T, ScenarioFault>
    ensures { (reading : Result T Refusal) → Gives inside reading
        → Gives result (under step reading) }
{
    match inside {
        Ok(read) => Ok(read),
        Err(ScenarioFault::NoMemory) => Err(ScenarioFault::NoMemory),
        Err(ScenarioFault::Bad(refusal)) => {
            let path = with_front(step, refusal.path)?;
            Err(ScenarioFault::Bad(Refusal {
                fault: refusal.fault,
                path,
            }))
        }
    }
}

/// A path with a step prepended.
fn with_front(step: PathStep, path: Path) -> Result<Path, NoMemory>
    ensures { IfOk result (λ made. made ≡ step ∷ path) }
{
    let mut steps = path.into_vec();
    match steps.insert(0, step) {
        Ok(()) => Ok(Items::from_vec(steps)),
        Err(_) => Err(NoMemory),
    }
}

/// The error that a required key is absent.
pub fn missing(alloc: Global, key: Key) -> ScenarioFault
    ensures { IsMissing key result }
{
    let mut path = Path::new(alloc);
    match path.push(PathStep::At(key)) {
        Ok(()) => ScenarioFault::Bad(Refusal {
            fault: InputFault::MissingKey,
            path,
        }),
        Err(NoMemory) => ScenarioFault::NoMemory,
    }
}
