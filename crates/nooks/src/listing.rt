//! The subcommand that writes a listing: which line of an assembler text made which word.

ghost use Rattle.std.specs.Prelude.{◌≡◌, ◌≤◌, List};
ghost use Rattle.nook_io.specs.Listening.{Listening};
ghost use Rattle.nooks.specs.Answers.{AnswersInput, listing_from};
ghost use Rattle.nooks.specs.Endings.{Writes};
ghost use Rattle.nook_io.specs.Changes.{change};
ghost use Rattle.nooks.specs.Streams.{Whole};
ghost use Rattle.scenario_read.specs.Gives.{Gives};

use crate::answering::{at_root, refuse_for};
use crate::program::{Status, finish};
use asm_defs::assembler::AsmFault;
use command_forms::Form;
use driver_asm::AsmError;
use image_list::write_list;
use input_defs::input::InputFault;
use nook_data::lists::Words8;
use nook_io::outside::Sink;
use scenario_read::ScenarioFault;
use std::alloc::Global;

/// Writes the listing of an assembler text.
pub fn run_list<K: Sink>(alloc: Global, bytes: &[u8], sink: &mut K) -> Status
    ensures ends { (hearing : List Listening)
        → Writes (AnswersInput Form.List (Whole bytes.now) hearing)
        (change K.held K.count sink.old sink.new) result }
    ensures later { K.count sink.old ≤ K.count sink.new }
    ensures kept { (result ≡ Status.WriteFault → ⊥) → K.count sink.new ≡ K.count sink.old }
{
    match read_listing(alloc, bytes) {
        Ok(text) => finish(sink, text.as_slice(), Status::Done),
        Err(stop) => refuse_for(alloc, sink, &stop),
    }
}

/// The listing of an assembler text.
fn read_listing(alloc: Global, bytes: &[u8]) -> Result<Words8, ScenarioFault>
    ensures { Gives result (listing_from bytes.now) }
{
    match write_list(alloc, bytes) {
        Ok(text) => Ok(text),
        Err(AsmError::NoMemory) => Err(ScenarioFault::NoMemory),
        Err(AsmError::Bad { kind, line }) => Err(ScenarioFault::Bad(at_root(
            alloc,
            InputFault::BadAsm(AsmFault { kind, line }),
        ))),
    }
}
