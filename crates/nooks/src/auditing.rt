//! The subcommand `audit`: whether every line of a printed report fits its scenario.

ghost use Rattle.std.specs.Prelude.{◌≡◌, ◌≤◌, ℕ, List, Some, IfOk};
ghost use Rattle.audit_input.specs.Handed.{Hands};
ghost use Rattle.nook_io.specs.Listening.{Listening};
ghost use Rattle.nook_data.specs.Valid.{IsValidScenario};
ghost use Rattle.nooks.specs.Answers.{AnswersInput, IsVerdict, Says};
ghost use Rattle.nooks.specs.Endings.{Writes};
ghost use Rattle.nook_io.specs.Changes.{change};
ghost use Rattle.nooks.specs.Streams.{Whole};
ghost use Rattle.nooks.specs.Texts.{verdict_text};

use crate::answering::{at_root, refuse, refuse_for};
use crate::program::{LIMIT, Status, finish};
use crate::texts::{AUDIT_YES, BAD_HEADER};
use audit_input::split_input;
use command_forms::Form;
use input_defs::input::InputFault;
use journal_audit::audit;
use nook_data::memory::NoMemory;
use nook_data::scenario::Scenario;
use nook_io::outside::Sink;
use report_text::Line;
use scenario_read::read_scenario;
use std::alloc::Global;

/// Audits the report that follows its scenario in some bytes.
pub fn run_audit<K: Sink>(alloc: Global, bytes: &[u8], sink: &mut K) -> Status
    ensures ends { (hearing : List Listening)
        → Writes (AnswersInput Form.Audit (Whole bytes.now) hearing)
        (change K.held K.count sink.old sink.new) result }
    ensures later { K.count sink.old ≤ K.count sink.new }
    ensures kept { (result ≡ Status.WriteFault → ⊥) → K.count sink.new ≡ K.count sink.old }
{
    match split_input(bytes) {
        Some(handed) => audit_handed(alloc, handed.scenario, handed.report, sink),
        None => finish(sink, BAD_HEADER, Status::BadInput),
    }
}

/// Audits a report by the bytes of its scenario.
fn audit_handed<K: Sink>(alloc: Global, handed: &[u8], report: &[u8], sink: &mut K) -> Status
    ensures ends { (bytes : List ℕ) (hearing : List Listening) → Hands bytes handed.now report.now
        → Writes (AnswersInput Form.Audit (Whole bytes) hearing)
        (change K.held K.count sink.old sink.new) result }
    ensures later { K.count sink.old ≤ K.count sink.new }
    ensures kept { (result ≡ Status.WriteFault → ⊥) → K.count sink.new ≡ K.count sink.old }
{
    if handed.len() > LIMIT as usize {
        return refuse(alloc, sink, &at_root(alloc, InputFault::TooMany));
    }
    match read_scenario(alloc, handed) {
        Ok(scenario) => give_verdict(alloc, &scenario, report, sink),
        Err(stop) => refuse_for(alloc, sink, &stop),
    }
}

/// Writes the verdict on a report of a scenario.
fn give_verdict<K: Sink>(alloc: Global, scenario: &Scenario, report: &[u8], sink: &mut K) -> Status
    requires { IsValidScenario scenario.now }
    ensures ends { Writes (IsVerdict scenario.now report.now)
        (change K.held K.count sink.old sink.new) result }
    ensures later { K.count sink.old ≤ K.count sink.new }
    ensures kept { (result ≡ Status.WriteFault → ⊥) → K.count sink.new ≡ K.count sink.old }
{
    match audit(alloc, scenario, report) {
        Ok(None) => finish(sink, AUDIT_YES, Status::Done),
        Ok(Some(number)) => report_line(alloc, number, sink),
        Err(NoMemory) => Status::NoMemory,
    }
}

/// Writes which line does not fit.
fn report_line<K: Sink>(alloc: Global, number: u64, sink: &mut K) -> Status
    ensures ends { Writes (Says (verdict_text (Some number)) Status.AuditNo)
        (change K.held K.count sink.old sink.new) result }
    ensures later { K.count sink.old ≤ K.count sink.new }
    ensures kept { (result ≡ Status.WriteFault → ⊥) → K.count sink.new ≡ K.count sink.old }
{
    match no_line(alloc, number) {
        Ok(line) => finish(sink, line.as_bytes(), Status::AuditNo),
        Err(NoMemory) => Status::NoMemory,
    }
}

/// The line that says which line does not fit.
fn no_line(alloc: Global, number: u64) -> Result<Line, NoMemory>
    ensures { IfOk result (λ line. line ≡ verdict_text (Some number)) }
{
    let mut line = Line::new(alloc);
    line.push("audit no line ")?;
    line.number(number)?;
    line.push("\n")?;
    Ok(line)
}
