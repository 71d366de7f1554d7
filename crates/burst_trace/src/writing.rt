//! Writes a trace.

ghost use Rattle.std.specs.Prelude.{◌≡◌, ℕ, ◌++◌, false, IfOk, Ok, OnOk};
ghost use Rattle.machine_defs.specs.BurstFaults.{faults_of_burst};
ghost use Rattle.nook_data.specs.Valid.{IsValidScenario};
ghost use Rattle.nook_io.specs.Changes.{change};
ghost use Rattle.report_text.specs.Writing.{Wrote};
ghost use Rattle.turn_trace.specs.Lines.{step_lines, unstruck_lines};
ghost use Rattle.burst_trace.specs.Text.{burst_lines, end_line, event_end, event_trace, head_line, inside_of};
ghost use Rattle.burst_trace.specs.Text.{last_lines, part_lines, trace_by, trace_lines, traced_in};
ghost use Rattle.burst_trace.specs.Writing.{Traces, WroteTrace};

use domain_call::Domain;
use fault_script::FaultScript;
use nook_data::calls::Answer;
use nook_data::limits::SHADOW;
use nook_data::lists::TryCopy;
use nook_data::machine::{Acts, Context};
use nook_data::memory::NoMemory;
use nook_data::scenario::{Fault, PartSpec, Scenario};
use nook_data::steps::{End, Event, FailCause};
use nook_io::outside::Sink;
use report_text::{Line, WriteStop, push_number, push_outcome, write_text};
use sim_run::{FoundBurst, run_to_burst};
use std::alloc::Global;
use turn_trace::{trace_burst, write_start, write_unstruck};

/// A burst to be traced: the first line of its trace, its event, its number and its context.
#[derive(Drop)]
struct Traced<'a> {
    head: &'a Line,
    event: &'a Event,
    burst: u32,
    context: u8,
}

/// Writes the trace of burst number `burst` of part `index`, counted from 0, in the scheduled run of a valid
/// scenario: the state at its start, a line for each instruction and each fault that strikes, how it ends, and the
/// faults that do not strike. Returns whether the run has such a part with such a burst; if not, nothing is written.
///
/// The scenario runs up to that burst and no further. The burst then runs once, from the domain before it, and
/// each line is written when it is made.
///
/// # Errors
///
/// The sink failed, or memory ran out. The sink has received a prefix of the trace.
pub fn write_trace<K: Sink>(
    alloc: Global,
    scenario: &Scenario,
    index: u32,
    burst: u32,
    sink: &mut K,
) -> Result<bool, WriteStop>
    requires { IsValidScenario scenario.now }
    ensures written { Traces scenario.now index burst
        (change K.held K.count sink.old sink.new) result }
    ensures untouched { result ≡ Ok false → sink.new ≡ sink.old }
{
    let Some(spec) = scenario.parts.as_slice().get(index as usize) else {
        return Ok(false);
    };
    match run_to_burst(alloc, scenario, index, burst)? {
        Some(found) => write_found(alloc, index, spec, found, sink),
        None => Ok(false),
    }
}

/// Writes the trace of a burst that was found.
fn write_found<K: Sink>(
    alloc: Global,
    index: u32,
    spec: &PartSpec,
    found: FoundBurst,
    sink: &mut K,
) -> Result<bool, WriteStop>
    ensures written { WroteTrace (change K.held K.count sink.old sink.new) result
        (event_trace index spec.now found.domain.state found.event) }
    ensures untouched { result ≡ Ok false → sink.new ≡ sink.old }
{
    let FoundBurst { domain, event } = found;
    write_event(alloc, index, spec, domain, &event, sink)
}

/// Writes the trace of a burst by its event, from the domain before it.
fn write_event<K: Sink>(
    alloc: Global,
    index: u32,
    spec: &PartSpec,
    domain: Domain,
    event: &Event,
    sink: &mut K,
) -> Result<bool, WriteStop>
    ensures written { WroteTrace (change K.held K.count sink.old sink.new) result
        (event_trace index spec.now domain.state event.now) }
    ensures untouched { result ≡ Ok false → sink.new ≡ sink.old }
{
    match event {
        Event::Burst {
            context,
            call,
            burst,
            ..
        } => {
            let head = head_of(alloc, index, spec, *burst, *context, *call)?;
            let traced = Traced {
                head: &head,
                event,
                burst: *burst,
                context: *context,
            };
            write_part(alloc, &traced, spec, domain, sink)
        }
        _ => Ok(false),
    }
}

/// Writes the trace of a part's burst.
fn write_part<K: Sink>(
    alloc: Global,
    traced: &Traced,
    spec: &PartSpec,
    domain: Domain,
    sink: &mut K,
) -> Result<bool, WriteStop>
    ensures written { WroteTrace (change K.held K.count sink.old sink.new) result
        (part_lines traced.now.head.now (event_end traced.now.event.now) traced.now.burst
        traced.now.context spec.now domain.state) }
    ensures untouched { result ≡ Ok false → sink.new ≡ sink.old }
{
    let script = script_of(alloc, spec)?;
    let faults = script.faults_at(traced.burst);
    write_domain(alloc, traced, domain, faults, sink)
}

/// The faults of a part in the order in which they strike.
fn script_of(alloc: Global, spec: &PartSpec) -> Result<FaultScript, NoMemory>
    ensures { IfOk result (λ script. (burst : ℕ)
        → faults_of_burst burst script ≡ faults_of_burst burst spec.now.faults) }
{
    FaultScript::new(spec.faults.copy(alloc)?)
}

/// Writes the trace of a domain's burst, if the context is Inside.
#[tactic(auto, using(crate::proofs::Reporting::domain_cut, crate::proofs::Reporting::domain_reported, crate::proofs::Reporting::domain_untold))]
fn write_domain<K: Sink>(
    alloc: Global,
    traced: &Traced,
    domain: Domain,
    faults: &[Fault],
    sink: &mut K,
) -> Result<bool, WriteStop>
    ensures written { WroteTrace (change K.held K.count sink.old sink.new) result
        (trace_by traced.now.head.now (event_end traced.now.event.now) faults.now domain.state
        (inside_of traced.now.context domain.state)) }
    ensures untouched { result ≡ Ok false → sink.new ≡ sink.old }
{
    match inside_of(&domain, traced.context) {
        Some(inside) => {
            write_inside(alloc, traced, &inside, domain, faults, sink)?;
            Ok(true)
        }
        None => Ok(false),
    }
}

/// Writes the trace of a context's burst.
fn write_inside<K: Sink>(
    alloc: Global,
    traced: &Traced,
    inside: &Context,
    domain: Domain,
    faults: &[Fault],
    sink: &mut K,
) -> Result<(), WriteStop>
    ensures { Wrote (change K.held K.count sink.old sink.new) result
        (trace_lines traced.now.head.now (event_end traced.now.event.now) inside.now faults.now
        domain.state) }
{
    write_text(sink, traced.head)?;
    let unstruck = write_burst(alloc, inside, domain, faults, sink)?;
    write_last(alloc, traced.event, unstruck, sink)
}

/// Writes the state at the start of a context's burst, and its steps as they are taken. Returns the faults that do not
/// strike.
fn write_burst<'a, K: Sink>(
    alloc: Global,
    inside: &Context,
    domain: Domain,
    faults: &'a [Fault],
    sink: &mut K,
) -> Result<&'a [Fault], WriteStop>
    ensures written { Wrote (change K.held K.count sink.old sink.new) result
        (burst_lines inside.now faults.now domain.state) }
    ensures unstruck { IfOk result
        (λ rest. rest.now ≡ (traced_in inside.now faults.now domain.state).unstruck) }
{
    write_start(alloc, sink, &inside.cpu)?;
    write_steps(alloc, inside, domain, faults, sink)
}

/// Writes the steps of a context's burst as they are taken. Returns the faults that do not strike.
fn write_steps<'a, K: Sink>(
    alloc: Global,
    inside: &Context,
    domain: Domain,
    faults: &'a [Fault],
    sink: &mut K,
) -> Result<&'a [Fault], WriteStop>
    ensures written { Wrote (change K.held K.count sink.old sink.new) result
        (step_lines domain.state.entries (traced_in inside.now faults.now domain.state).steps) }
    ensures unstruck { IfOk result
        (λ rest. rest.now ≡ (traced_in inside.now faults.now domain.state).unstruck) }
{
    let mut cpu = inside.cpu;
    let mut bus = domain.detach();
    trace_burst(alloc, &mut cpu, &mut bus, faults, sink)
}

/// Writes how the burst of an event ended, and the faults that did not strike.
fn write_last<K: Sink>(
    alloc: Global,
    event: &Event,
    unstruck: &[Fault],
    sink: &mut K,
) -> Result<(), WriteStop>
    ensures { Wrote (change K.held K.count sink.old sink.new) result
        (last_lines (event_end event.now) unstruck.now) }
{
    write_end(alloc, event, sink)?;
    write_unstruck(alloc, sink, unstruck)
}

/// Writes how the burst of an event ended.
fn write_end<K: Sink>(alloc: Global, event: &Event, sink: &mut K) -> Result<(), WriteStop>
    ensures { Wrote (change K.held K.count sink.old sink.new) result (event_end event.now) }
{
    let mut line = Line::new(alloc);
    push_event_end(&mut line, event)?;
    write_text(sink, &line)
}

/// A context of a domain, if it exists and is Inside.
fn inside_of(domain: &Domain, context: u8) -> Option<Context>
    ensures { result ≡ inside_of context domain.now.state }
{
    if context > SHADOW {
        return None;
    }
    domain.inside(context)
}

/// The first line as a new line.
fn head_of(
    alloc: Global,
    index: u32,
    spec: &PartSpec,
    burst: u32,
    context: u8,
    call: u32,
) -> Result<Line, NoMemory>
    ensures { IfOk result (λ line. line ≡ head_line index spec.now burst context call) }
{
    let mut line = Line::new(alloc);
    push_head(&mut line, index, spec, burst, context, call)?;
    Ok(line)
}

/// The first line.
fn push_head(
    line: &mut Line,
    index: u32,
    spec: &PartSpec,
    burst: u32,
    context: u8,
    call: u32,
) -> Result<(), NoMemory>
    ensures { OnOk result (line.new ≡ line.old ++ head_line index spec.now burst context call) }
{
    push_number(line, "trace ", u64::from(index))?;
    line.push(" ")?;
    line.push(spec.name.as_str())?;
    push_number(line, " burst ", u64::from(burst))?;
    push_number(line, " context ", u64::from(context))?;
    push_number(line, " call ", u64::from(call))?;
    line.push("\n")
}

/// How the burst of an event ended.
fn push_event_end(line: &mut Line, event: &Event) -> Result<(), NoMemory>
    ensures { OnOk result (line.new ≡ line.old ++ event_end event.now) }
{
    match event {
        Event::Burst {
            count,
            end,
            acts,
            answer,
            failure,
            ..
        } => push_end(line, *count, end, acts, answer, *failure),
        _ => Ok(()),
    }
}

/// How the burst ended, as its event shows it.
fn push_end(
    line: &mut Line,
    count: u32,
    end: &End,
    acts: &Acts,
    answer: &Option<Answer>,
    failure: Option<FailCause>,
) -> Result<(), NoMemory>
    ensures { OnOk result
        (line.new ≡ line.old ++ end_line count end.now acts.now answer.now failure) }
{
    push_number(line, "n", u64::from(count))?;
    line.push(" ")?;
    push_outcome(line, end, acts, answer, failure)?;
    line.push("\n")
}
