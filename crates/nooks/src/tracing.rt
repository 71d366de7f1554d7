//! The subcommand `trace`: what one burst of a scenario's run did, instruction by instruction.

ghost use Rattle.std.specs.Prelude.{◌≡◌, ◌≤◌, ℕ, List, Ok};
ghost use Rattle.nook_io.specs.Listening.{Listening};
ghost use Rattle.input_defs.specs.ScenarioReading.{scenario_from};
ghost use Rattle.nook_data.specs.Valid.{IsValidScenario};
ghost use Rattle.nooks.specs.Answers.{AnswersInput};
ghost use Rattle.nooks.specs.Endings.{Writes};
ghost use Rattle.nook_io.specs.Changes.{change};
ghost use Rattle.nooks.specs.Streams.{Whole};

use crate::answering::refuse_for;
use crate::program::{Status, finish};
use crate::texts::NO_SUCH_BURST;
use burst_trace::write_trace;
use command_forms::Form;
use nook_data::scenario::Scenario;
use nook_io::outside::Sink;
use report_text::WriteStop;
use scenario_read::read_scenario;
use std::alloc::Global;

/// Simulates the scenario in some bytes up to a burst of the part at an index, and writes the trace of that burst.
pub fn trace_bytes<K: Sink>(
    alloc: Global,
    bytes: &[u8],
    part: u32,
    burst: u32,
    sink: &mut K,
) -> Status
    ensures ends { (hearing : List Listening)
        → Writes (AnswersInput (Form.Trace part burst) (Whole bytes.now) hearing)
        (change K.held K.count sink.old sink.new) result }
    ensures later { K.count sink.old ≤ K.count sink.new }
    ensures kept { (result ≡ Status.WriteFault → ⊥) → K.count sink.new ≡ K.count sink.old }
{
    match read_scenario(alloc, bytes) {
        Ok(scenario) => trace(alloc, &scenario, part, burst, sink),
        Err(stop) => refuse_for(alloc, sink, &stop),
    }
}

/// Writes the trace of a burst of a scenario's run, or says that there is no such burst.
fn trace<K: Sink>(alloc: Global, scenario: &Scenario, part: u32, burst: u32, sink: &mut K) -> Status
    requires { IsValidScenario scenario.now }
    ensures ends { (bytes : List ℕ) (hearing : List Listening)
        → scenario_from bytes ≡ Ok scenario.now
        → Writes (AnswersInput (Form.Trace part burst) (Whole bytes) hearing)
        (change K.held K.count sink.old sink.new) result }
    ensures later { K.count sink.old ≤ K.count sink.new }
    ensures kept { (result ≡ Status.WriteFault → ⊥) → K.count sink.new ≡ K.count sink.old }
{
    match write_trace(alloc, scenario, part, burst, sink) {
        Ok(true) => Status::Done,
        Ok(false) => finish(sink, NO_SUCH_BURST, Status::BadInput),
        Err(WriteStop::Fault) => Status::WriteFault,
        Err(WriteStop::NoMemory) => Status::NoMemory,
    }
}
