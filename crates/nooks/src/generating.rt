//! The subcommand that writes a generated scenario, in the form in which it is read.

ghost use Rattle.std.specs.Prelude.{◌≡◌, ◌≤◌, IfOk};
ghost use Rattle.run_defs.specs.Generated.{generated};
ghost use Rattle.nooks.specs.Answers.{Says};
ghost use Rattle.nooks.specs.Endings.{Writes};
ghost use Rattle.nook_io.specs.Changes.{change};
ghost use Rattle.scenario_write.specs.ScenarioText.{scenario_line};

use crate::program::{Status, finish};
use nook_data::lists::Words8;
use nook_data::memory::NoMemory;
use nook_io::outside::Sink;
use scenario_gen::generate;
use scenario_write::write_scenario_line;
use std::alloc::Global;

/// Writes the generated scenario of a number from 1 to 256.
pub fn give_generated<K: Sink>(alloc: Global, number: u32, sink: &mut K) -> Status
    requires { number ≤ 256 }
    ensures ends { Writes (Says (scenario_line (generated number)) Status.Done)
        (change K.held K.count sink.old sink.new) result }
    ensures later { K.count sink.old ≤ K.count sink.new }
    ensures kept { (result ≡ Status.WriteFault → ⊥) → K.count sink.new ≡ K.count sink.old }
{
    match generated_line(alloc, number) {
        Ok(text) => finish(sink, text.as_slice(), Status::Done),
        Err(NoMemory) => Status::NoMemory,
    }
}

/// The line of a generated scenario.
fn generated_line(alloc: Global, number: u32) -> Result<Words8, NoMemory>
    requires { number ≤ 256 }
    ensures { IfOk result (λ text. text ≡ scenario_line (generated number)) }
{
    let scenario = generate(number, alloc)?;
    write_scenario_line(alloc, &scenario)
}
