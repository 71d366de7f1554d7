//! Threads: a name and a script.

ghost use Rattle.std.specs.Prelude.{◌≡◌};
ghost use Rattle.serde_json.specs.View.{view};
ghost use Rattle.input_defs.specs.ScenarioReading.{thread_of};
ghost use Rattle.input_defs.specs.Views.Readings.{threads_of};
ghost use Rattle.scenario_read.specs.Gives.{Gives};

use crate::fields::{check_keys, field};
use crate::lists::{ItemReader, read_list};
use crate::names::thread_name;
use crate::ops::ops_of;
use crate::stop::{ScenarioFault, at};
use asm_defs::keys::Key;
use nook_data::limits::MOST_THREADS;
use nook_data::scenario::{ThreadSpec, ThreadSpecs};
use serde_json::Value;
use std::alloc::Global;

/// Up to 16 threads of a scenario with `parts` parts.
pub fn threads_of(alloc: Global, value: &Value, parts: u32) -> Result<ThreadSpecs, ScenarioFault>
    ensures { Gives result (threads_of parts (view value.now)) }
{
    read_list(alloc, &ThreadReader { parts }, value, 0, MOST_THREADS)
}

/// Reads the threads of a scenario with this many parts.
#[derive(Drop)]
struct ThreadReader {
    parts: u32,
}

impl ItemReader for ThreadReader {
    type Item = ThreadSpec;

    ghost item_of = { λ reader. thread_of reader.parts };

    fn read(
        &self,
        alloc: Global,
        earlier: &ThreadSpecs,
        value: &Value,
    ) -> Result<ThreadSpec, ScenarioFault> {
        thread_of(alloc, value, self.parts, earlier)
    }
}

/// A thread, after the earlier threads.
#[tactic(auto, unfolding(input_defs::specs::ScenarioReading::thread_of))]
fn thread_of(
    alloc: Global,
    value: &Value,
    parts: u32,
    earlier: &ThreadSpecs,
) -> Result<ThreadSpec, ScenarioFault>
    ensures { Gives result (thread_of parts earlier.now (view value.now)) }
{
    check_keys(alloc, value, &[Key::Name, Key::Ops])?;
    let inside = field(alloc, value, Key::Name)?;
    let name = at(Key::Name, thread_name(alloc, earlier.as_slice(), inside))?;
    let ops = at(
        Key::Ops,
        ops_of(alloc, field(alloc, value, Key::Ops)?, parts),
    )?;
    Ok(ThreadSpec { name, ops })
}
