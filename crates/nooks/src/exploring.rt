//! The subcommand `explore`, which follows every order of a scenario's steps.

ghost use Rattle.std.specs.Prelude.{◌≡◌, ◌≤◌, List};
ghost use Rattle.explore_defs.specs.Explored.{IsExplored};
ghost use Rattle.nook_data.specs.Valid.{IsValidScenario};
ghost use Rattle.nook_io.specs.Listening.{Listening};
ghost use Rattle.nooks.specs.Answers.{AnswersInput, IsExploration, IsExploredStatus};
ghost use Rattle.nooks.specs.Endings.{Writes};
ghost use Rattle.nook_io.specs.Changes.{change};
ghost use Rattle.nooks.specs.Streams.{Whole};
ghost use Rattle.order_search.specs.Found.{found_status, found_text};

use crate::answering::refuse_for;
use crate::program::Status;
use command_forms::Form;
use explored_run::explore;
use explored_text::{status_of, write_explored};
use nook_data::memory::NoMemory;
use nook_data::scenario::Scenario;
use nook_io::outside::Sink;
use order_search::Explored;
use report_text::WriteStop;
use scenario_read::read_scenario;
use std::alloc::Global;

/// Follows every order of the steps of the scenario in some bytes, and writes a row for each outcome.
pub fn run_explore<K: Sink>(alloc: Global, bytes: &[u8], sink: &mut K) -> Status
    ensures ends { (hearing : List Listening)
        → Writes (AnswersInput Form.Explore (Whole bytes.now) hearing)
        (change K.held K.count sink.old sink.new) result }
    ensures later { K.count sink.old ≤ K.count sink.new }
    ensures kept { (result ≡ Status.WriteFault → ⊥) → K.count sink.new ≡ K.count sink.old }
{
    match read_scenario(alloc, bytes) {
        Ok(scenario) => explore_and_write(alloc, &scenario, sink),
        Err(stop) => refuse_for(alloc, sink, &stop),
    }
}

/// Follows every order of the steps of a scenario, and writes a row for each outcome.
fn explore_and_write<K: Sink>(alloc: Global, scenario: &Scenario, sink: &mut K) -> Status
    requires { IsValidScenario scenario.now }
    ensures ends { Writes (IsExploration scenario.now)
        (change K.held K.count sink.old sink.new) result }
    ensures later { K.count sink.old ≤ K.count sink.new }
    ensures kept { (result ≡ Status.WriteFault → ⊥) → K.count sink.new ≡ K.count sink.old }
{
    match explore(alloc, scenario) {
        Ok(found) => give_rows(alloc, &found, sink),
        Err(NoMemory) => Status::NoMemory,
    }
}

/// Writes a row for each outcome that was found.
fn give_rows<K: Sink>(alloc: Global, found: &Explored, sink: &mut K) -> Status
    ensures ends { (scenario : Scenario)
        → IsExplored scenario (found_text found.now) (found_status found.now)
        → Writes (IsExploration scenario) (change K.held K.count sink.old sink.new) result }
    ensures later { K.count sink.old ≤ K.count sink.new }
    ensures kept { (result ≡ Status.WriteFault → ⊥) → K.count sink.new ≡ K.count sink.old }
{
    match write_explored(alloc, sink, found) {
        Ok(()) => explored_status(found),
        Err(WriteStop::Fault) => Status::WriteFault,
        Err(WriteStop::NoMemory) => Status::NoMemory,
    }
}

/// The status after writing what was found.
fn explored_status(found: &Explored) -> Status
    ensures { IsExploredStatus (found_status found.now) result }
{
    match status_of(found) {
        0 => Status::Done,
        1 => Status::GivenUp,
        9 => Status::Cut,
        _ => Status::ContractBroken,
    }
}
