//! Names of parts and threads.

ghost use Rattle.std.specs.Prelude.{◌≡◌, List, ℕ};
ghost use Rattle.serde_json.specs.View.{view};
ghost use Rattle.nook_data.specs.Names.{is_among};
ghost use Rattle.input_defs.specs.PartReading.{name_of, new_name};
ghost use Rattle.nook_data.specs.Valid.{part_names};
ghost use Rattle.nook_data.specs.Valid.{thread_names};
ghost use Rattle.scenario_read.specs.Gives.{Gives};

use crate::fields::text_in;
use crate::stop::{ScenarioFault, bad_here};
use input_defs::input::InputFault;
use nook_data::name::Name;
use nook_data::scenario::{PartSpec, ThreadSpec};
use serde_json::Value;
use std::alloc::Global;

/// A part's name, which no earlier part has.
pub fn part_name(alloc: Global, earlier: &[PartSpec], value: &Value) -> Result<Name, ScenarioFault>
    ensures { Gives result (name_of (part_names earlier.now) (view value.now)) }
{
    let name = text_in(alloc, value)?;
    new_name(alloc, name, has_part(earlier, name))
}

/// A thread's name, which no earlier thread has.
pub fn thread_name(
    alloc: Global,
    earlier: &[ThreadSpec],
    value: &Value,
) -> Result<Name, ScenarioFault>
    ensures { Gives result (name_of (thread_names earlier.now) (view value.now)) }
{
    let name = text_in(alloc, value)?;
    new_name(alloc, name, has_thread(earlier, name))
}

/// A valid name, if it is not `taken` by an earlier part or thread.
#[tactic(auto, unfolding(input_defs::specs::PartReading::new_name))]
fn new_name(alloc: Global, name: &str, taken: bool) -> Result<Name, ScenarioFault>
    ensures { (earlier : List (List ℕ)) → taken ≡ is_among earlier name.now
        → Gives result (new_name earlier name.now) }
{
    match Name::new(name.as_bytes()) {
        None => bad_here(alloc, InputFault::WrongKind),
        Some(_) if taken => bad_here(alloc, InputFault::DoubleName),
        Some(name) => Ok(name),
    }
}

/// Whether a part has this name.
fn has_part(parts: &[PartSpec], name: &str) -> bool
    ensures { result ≡ is_among (part_names parts.now) name.now }
{
    for part in parts {
        if name.as_bytes() == part.name.as_slice() {
            return true;
        }
    }
    false
}

/// Whether a thread has this name.
fn has_thread(threads: &[ThreadSpec], name: &str) -> bool
    ensures { result ≡ is_among (thread_names threads.now) name.now }
{
    for thread in threads {
        if name.as_bytes() == thread.name.as_slice() {
            return true;
        }
    }
    false
}
