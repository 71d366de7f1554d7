//! The subcommands that wait for no one. One that reads an input is answered with what its bytes ask for, or with the
//! line of their first input error.

ghost use Rattle.std.specs.Prelude.{◌≡◌, ℕ, ◌+◌, ◌≤◌, ◌⊎◌, List, Some, Ok, Err, map, IfOk, IsTrue};
ghost use Rattle.campaign_defs.specs.Members.{Ran};
ghost use Rattle.campaign_defs.specs.Rows.{IsPlanTable};
ghost use Rattle.campaign_defs.specs.TableText.{plan_table_text};
ghost use Rattle.campaign_defs.specs.Types.{Row};
ghost use Rattle.plan_defs.specs.Plans.{IsValidPlan};
ghost use Rattle.asm_defs.specs.Disassembler.{disassembled};
ghost use Rattle.input_defs.specs.Faults.{fault_line as line_of};
ghost use Rattle.input_defs.specs.ImageReading.{image_from_asm};
ghost use Rattle.asm_defs.specs.ImageText.{image_text};
ghost use Rattle.nook_io.specs.Listening.{Listening};
ghost use Rattle.nook_io.specs.Causes.{TakesAtMost};
ghost use Rattle.nook_data.specs.Valid.{IsValidScenario};
ghost use Rattle.nooks.specs.Answers.{AnswersInput, IsReported, Says};
ghost use Rattle.nooks.specs.Endings.{Ends, ReadStopWrites, StopWrites, Writes};
ghost use Rattle.command_forms.specs.Forms.{is_alone, is_reading, limit_of};
ghost use Rattle.nook_io.specs.Changes.{change};
ghost use Rattle.nooks.specs.Streams.{Whole};
ghost use Rattle.nooks.specs.Texts.{at_root as root_refusal};
ghost use Rattle.request_taps.specs.Bus.{seen, settled};
ghost use Rattle.scenario_read.specs.Gives.{Gives};

use crate::auditing::run_audit;
use crate::exploring::run_explore;
use crate::generating::give_generated;
use crate::guarding::{run_guard, run_guard_scenario};
use crate::heard::{Heard, all_heard};
use crate::listing::run_list;
use crate::program::{AUDIT_LIMIT, LIMIT, Status, finish};
use crate::simulated::{run_generated, simulate_and_report};
use crate::texts::{HELP, VERSION};
use crate::tracing::trace_bytes;
use asm_defs::assembler::AsmFault;
use command_forms::Form;
use driver_asm::{AsmError, assemble, disassemble, write_image};
use fault_campaign::write_campaign;
use input_defs::input::{InputFault, Path, Refusal};
use nook_data::memory::NoMemory;
use nook_data::scenario::{Image, Scenario};
use nook_io::outside::{Listener, Sink, Source};
use nook_io::whole::{ReadStop, read_all};
use plan_defs::plan::Plan;
use report_text::WriteStop;
use request_taps::Bus;
use scenario_read::{ScenarioFault, fault_line, read_image, read_plan, read_scenario};
use std::alloc::Global;
use std::thread::Threads;

/// Does what a subcommand asks for that waits for no one.
pub fn run_form<R: Threads + Sync, S: Source, K: Sink, T: Drop>(
    rt: &R,
    alloc: Global,
    asked: Form,
    source: &mut S,
    sink: &mut K,
    listeners: Vec<T>,
) -> Status
where
    Heard<T>: Listener,
    requires alone { IsTrue (is_alone asked) }
    requires number { (number : ℕ) → asked ≡ Form.Gen number → number ≤ 256 }
    requires scenario { (number : ℕ) → asked ≡ Form.GenScenario number → number ≤ 256 }
    ensures ends { Ends (Some asked)
        (map (λ v. ⟦<Heard<T> as Listener>⟧.listening (record { value = v })) listeners.items)
        (change S.left S.count source.old source.new)
        (change K.held K.count sink.old sink.new) result }
    ensures unwritten { result ≡ Status.ReadFault → sink.new ≡ sink.old }
    ensures unread { IsTrue (is_reading asked) ⊎ (source.new ≡ source.old) }
    ensures taken { TakesAtMost (S.left source.old) (S.left source.new) (limit_of asked + 1) }
    ensures source_later { S.count source.old ≤ S.count source.new }
    ensures sink_later { K.count sink.old ≤ K.count sink.new }
    ensures source_kept { (result ≡ Status.ReadFault → ⊥)
        → S.count source.new ≡ S.count source.old }
    ensures sink_kept { (result ≡ Status.WriteFault → ⊥) → K.count sink.new ≡ K.count sink.old }
{
    match asked {
        Form::Gen { number } => run_generated(alloc, number, sink),
        Form::GenScenario { number } => give_generated(alloc, number, sink),
        Form::Help => finish(sink, HELP, Status::Done),
        Form::Version => finish(sink, VERSION, Status::Done),
        _ => read_and_answer(rt, alloc, asked, source, sink, listeners),
    }
}

/// Reads the source and answers its bytes. The subcommand is one that reads, and waits for no one.
fn read_and_answer<R: Threads + Sync, S: Source, K: Sink, T: Drop>(
    rt: &R,
    alloc: Global,
    asked: Form,
    source: &mut S,
    sink: &mut K,
    listeners: Vec<T>,
) -> Status
where
    Heard<T>: Listener,
    requires reading { IsTrue (is_reading asked) }
    requires alone { IsTrue (is_alone asked) }
    ensures ends { Ends (Some asked)
        (map (λ v. ⟦<Heard<T> as Listener>⟧.listening (record { value = v })) listeners.items)
        (change S.left S.count source.old source.new)
        (change K.held K.count sink.old sink.new) result }
    ensures unwritten { result ≡ Status.ReadFault → sink.new ≡ sink.old }
    ensures taken { TakesAtMost (S.left source.old) (S.left source.new) (limit_of asked + 1) }
    ensures source_later { S.count source.old ≤ S.count source.new }
    ensures sink_later { K.count sink.old ≤ K.count sink.new }
    ensures source_kept { (result ≡ Status.ReadFault → ⊥)
        → S.count source.new ≡ S.count source.old }
    ensures sink_kept { (result ≡ Status.WriteFault → ⊥) → K.count sink.new ≡ K.count sink.old }
{
    match read_all(alloc, source, limit_of(asked)) {
        Ok(bytes) => answer(rt, alloc, asked, bytes.as_slice(), sink, listeners),
        Err(stop) => refuse_source(alloc, stop, sink),
    }
}

/// The most bytes of a subcommand's input.
fn limit_of(asked: Form) -> u32
    ensures { result ≡ limit_of asked }
{
    match asked {
        Form::Audit => AUDIT_LIMIT,
        _ => LIMIT,
    }
}

/// Ends a call whose source was not read to its end within the limit.
pub fn refuse_source<K: Sink>(alloc: Global, stop: ReadStop, sink: &mut K) -> Status
    ensures ends { ReadStopWrites stop (change K.held K.count sink.old sink.new) result }
    ensures unwritten { result ≡ Status.ReadFault → sink.new ≡ sink.old }
    ensures later { K.count sink.old ≤ K.count sink.new }
    ensures kept { (result ≡ Status.WriteFault → ⊥) → K.count sink.new ≡ K.count sink.old }
{
    match stop {
        ReadStop::TooLong => refuse(alloc, sink, &at_root(alloc, InputFault::TooMany)),
        ReadStop::Fault => Status::ReadFault,
        ReadStop::NoMemory => Status::NoMemory,
    }
}

/// Answers the bytes of the source, or reports their first input error.
fn answer<R: Threads + Sync, K: Sink, T: Drop>(
    rt: &R,
    alloc: Global,
    asked: Form,
    bytes: &[u8],
    sink: &mut K,
    listeners: Vec<T>,
) -> Status
where
    Heard<T>: Listener,
    requires reading { IsTrue (is_reading asked) }
    requires alone { IsTrue (is_alone asked) }
    ensures ends { Writes (AnswersInput asked (Whole bytes.now)
        (map (λ v. ⟦<Heard<T> as Listener>⟧.listening (record { value = v })) listeners.items))
        (change K.held K.count sink.old sink.new) result }
    ensures later { K.count sink.old ≤ K.count sink.new }
    ensures kept { (result ≡ Status.WriteFault → ⊥) → K.count sink.new ≡ K.count sink.old }
{
    match asked {
        Form::Run => run_scenario(alloc, bytes, sink, listeners),
        Form::Asm => run_asm(alloc, bytes, sink),
        Form::Dis => run_dis(alloc, bytes, sink),
        Form::Audit => run_audit(alloc, bytes, sink),
        Form::Campaign => run_campaign(rt, alloc, bytes, sink),
        Form::List => run_list(alloc, bytes, sink),
        Form::Trace { part, burst } => trace_bytes(alloc, bytes, part, burst, sink),
        Form::Guard => run_guard(alloc, bytes, sink, listeners),
        Form::GuardScenario => run_guard_scenario(alloc, bytes, sink),
        Form::Explore => run_explore(alloc, bytes, sink),
        Form::RunThreads
        | Form::Mirror
        | Form::Gen { .. }
        | Form::GenScenario { .. }
        | Form::Help
        | Form::Version => unreachable!(),
    }
}

/// Simulates the scenario in some bytes and writes the report.
fn run_scenario<K: Sink, T: Drop>(
    alloc: Global,
    bytes: &[u8],
    sink: &mut K,
    listeners: Vec<T>,
) -> Status
where
    Heard<T>: Listener,
    ensures ends { Writes (AnswersInput Form.Run (Whole bytes.now)
        (map (λ v. ⟦<Heard<T> as Listener>⟧.listening (record { value = v })) listeners.items))
        (change K.held K.count sink.old sink.new) result }
    ensures later { K.count sink.old ≤ K.count sink.new }
    ensures kept { (result ≡ Status.WriteFault → ⊥) → K.count sink.new ≡ K.count sink.old }
{
    match read_scenario(alloc, bytes) {
        Ok(scenario) => report_run(alloc, &scenario, sink, listeners),
        Err(stop) => refuse_for(alloc, sink, &stop),
    }
}

/// Simulates a scenario, which listeners hear, and writes the report.
fn report_run<K: Sink, T: Drop>(
    alloc: Global,
    scenario: &Scenario,
    sink: &mut K,
    listeners: Vec<T>,
) -> Status
where
    Heard<T>: Listener,
    requires { IsValidScenario scenario.now }
    ensures ends { Writes (IsReported Form.Run scenario.now
        (map (λ v. ⟦<Heard<T> as Listener>⟧.listening (record { value = v })) listeners.items))
        (change K.held K.count sink.old sink.new) result }
    ensures later { K.count sink.old ≤ K.count sink.new }
    ensures kept { (result ≡ Status.WriteFault → ⊥) → K.count sink.new ≡ K.count sink.old }
{
    match bus_of(alloc, listeners) {
        Ok(mut taps) => simulate_and_report(alloc, scenario, sink, &mut taps),
        Err(NoMemory) => Status::NoMemory,
    }
}

/// A bus of listeners.
pub fn bus_of<T: Drop>(alloc: Global, listeners: Vec<T>) -> Result<Bus<Heard<T>>, NoMemory>
where
    Heard<T>: Listener,
    ensures { IfOk result (λ bus. map (seen ⟦<Heard<T> as Listener>⟧.listening) bus
        ≡ map settled (map (λ v. ⟦<Heard<T> as Listener>⟧.listening
        (record { value = v })) listeners.items)) }
{
    let heard = all_heard(alloc, listeners)?;
    Bus::of(alloc, heard)
}

/// Writes the image of an assembler text.
fn run_asm<K: Sink>(alloc: Global, bytes: &[u8], sink: &mut K) -> Status
    ensures ends { (hearing : List Listening)
        → Writes (AnswersInput Form.Asm (Whole bytes.now) hearing)
        (change K.held K.count sink.old sink.new) result }
    ensures later { K.count sink.old ≤ K.count sink.new }
    ensures kept { (result ≡ Status.WriteFault → ⊥) → K.count sink.new ≡ K.count sink.old }
{
    match read_asm(alloc, bytes) {
        Ok(image) => give_image(alloc, sink, &image),
        Err(stop) => refuse_for(alloc, sink, &stop),
    }
}

/// Writes the assembler text of an image.
fn run_dis<K: Sink>(alloc: Global, bytes: &[u8], sink: &mut K) -> Status
    ensures ends { (hearing : List Listening)
        → Writes (AnswersInput Form.Dis (Whole bytes.now) hearing)
        (change K.held K.count sink.old sink.new) result }
    ensures later { K.count sink.old ≤ K.count sink.new }
    ensures kept { (result ≡ Status.WriteFault → ⊥) → K.count sink.new ≡ K.count sink.old }
{
    match read_image(alloc, bytes) {
        Ok(image) => give_assembler_text(alloc, sink, &image),
        Err(stop) => refuse_for(alloc, sink, &stop),
    }
}

/// Runs the campaign in some bytes and writes its table.
fn run_campaign<R: Threads + Sync, K: Sink>(
    rt: &R,
    alloc: Global,
    bytes: &[u8],
    sink: &mut K,
) -> Status
    ensures ends { (hearing : List Listening)
        → Writes (AnswersInput Form.Campaign (Whole bytes.now) hearing)
        (change K.held K.count sink.old sink.new) result }
    ensures later { K.count sink.old ≤ K.count sink.new }
    ensures kept { (result ≡ Status.WriteFault → ⊥) → K.count sink.new ≡ K.count sink.old }
{
    match read_plan(alloc, bytes) {
        Ok(plan) => give_table(rt, alloc, &plan, sink),
        Err(stop) => refuse_for(alloc, sink, &stop),
    }
}

/// Writes the table of a campaign, one batch of its members after another.
fn give_table<R: Threads + Sync, K: Sink>(
    rt: &R,
    alloc: Global,
    plan: &Plan,
    sink: &mut K,
) -> Status
    requires { IsValidPlan plan.now }
    ensures ends { (base : Ran) (rows : List Row) → IsPlanTable plan.now base rows
        → Writes (Says (plan_table_text plan.now base rows) Status.Done)
        (change K.held K.count sink.old sink.new) result }
    ensures later { K.count sink.old ≤ K.count sink.new }
    ensures kept { (result ≡ Status.WriteFault → ⊥) → K.count sink.new ≡ K.count sink.old }
{
    match write_campaign(rt, alloc, plan, sink) {
        Ok(()) => Status::Done,
        Err(WriteStop::Fault) => Status::WriteFault,
        Err(WriteStop::NoMemory) => Status::NoMemory,
    }
}

/// Reports why some bytes are not read.
pub fn refuse_for<K: Sink>(alloc: Global, sink: &mut K, stop: &ScenarioFault) -> Status
    ensures ends { StopWrites stop.now (change K.held K.count sink.old sink.new) result }
    ensures later { K.count sink.old ≤ K.count sink.new }
    ensures kept { (result ≡ Status.WriteFault → ⊥) → K.count sink.new ≡ K.count sink.old }
{
    match stop {
        ScenarioFault::Bad(refusal) => refuse(alloc, sink, refusal),
        ScenarioFault::NoMemory => Status::NoMemory,
    }
}

/// The image of an assembler text.
#[tactic(auto, unfolding(input_defs::specs::ImageReading::image_from_asm))]
fn read_asm(alloc: Global, bytes: &[u8]) -> Result<Image, ScenarioFault>
    ensures { Gives result (image_from_asm bytes.now) }
{
    match assemble(alloc, bytes) {
        Ok(image) => Ok(image),
        Err(AsmError::NoMemory) => Err(ScenarioFault::NoMemory),
        Err(AsmError::Bad { kind, line }) => Err(ScenarioFault::Bad(at_root(
            alloc,
            InputFault::BadAsm(AsmFault { kind, line }),
        ))),
    }
}

/// An error of the whole input.
pub fn at_root(alloc: Global, fault: InputFault) -> Refusal
    ensures { result ≡ root_refusal fault }
{
    Refusal {
        fault,
        path: Path::new(alloc),
    }
}

/// Writes the line that says why an input is refused.
pub fn refuse<K: Sink>(alloc: Global, sink: &mut K, refusal: &Refusal) -> Status
    ensures ends { Writes (Says (line_of refusal.now) Status.BadInput)
        (change K.held K.count sink.old sink.new) result }
    ensures later { K.count sink.old ≤ K.count sink.new }
    ensures kept { (result ≡ Status.WriteFault → ⊥) → K.count sink.new ≡ K.count sink.old }
{
    match fault_line(alloc, refusal) {
        Ok(line) => finish(sink, line.as_bytes(), Status::BadInput),
        Err(NoMemory) => Status::NoMemory,
    }
}

/// Writes an image.
fn give_image<K: Sink>(alloc: Global, sink: &mut K, image: &Image) -> Status
    ensures ends { Writes (Says (image_text image.now) Status.Done)
        (change K.held K.count sink.old sink.new) result }
    ensures later { K.count sink.old ≤ K.count sink.new }
    ensures kept { (result ≡ Status.WriteFault → ⊥) → K.count sink.new ≡ K.count sink.old }
{
    match write_image(alloc, image) {
        Ok(text) => finish(sink, text.as_slice(), Status::Done),
        Err(NoMemory) => Status::NoMemory,
    }
}

/// Writes the assembler text of an image.
fn give_assembler_text<K: Sink>(alloc: Global, sink: &mut K, image: &Image) -> Status
    ensures ends { Writes (Says (disassembled image.now) Status.Done)
        (change K.held K.count sink.old sink.new) result }
    ensures later { K.count sink.old ≤ K.count sink.new }
    ensures kept { (result ≡ Status.WriteFault → ⊥) → K.count sink.new ≡ K.count sink.old }
{
    match disassemble(alloc, image) {
        Ok(text) => finish(sink, text.as_slice(), Status::Done),
        Err(NoMemory) => Status::NoMemory,
    }
}
