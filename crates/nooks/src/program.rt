//! The whole program as one call over a source and a sink.

ghost use Rattle.std.specs.Prelude.{◌≡◌, ℕ, ◌+◌, ◌≤◌, ◌⊎◌, List, None, Some, map, string_bytes};
ghost use Rattle.nook_io.specs.Causes.{Rose};
ghost use Rattle.nooks.specs.Answers.{Says};
ghost use Rattle.nooks.specs.Endings.{AnswersBytes, AnswersWords, AskGuard, AskReport, EndsWords, HasReport};
ghost use Rattle.nooks.specs.Endings.{IsAnswerStatus, IsBegun, IsCut, IsKeptReport, IsSafeReport, IsWritten, TakesFor};
ghost use Rattle.nooks.specs.Endings.{Writes, code_of};
ghost use Rattle.command_forms.specs.Forms.{AskAlone, AskUnread};
ghost use Rattle.nook_io.specs.Changes.{change};
ghost use Rattle.nooks.specs.Streams.{GainsNothing};

use crate::answering::run_form;
use crate::texts::USAGE;
use crate::waiting::{Threading, read_and_wait};
use command_forms::{form_of, waiting_form_of};
use nook_data::lists::Words8;
use nook_io::outside::{Gate, Listener, Sink, Source};
use nook_io::streams_in_memory::{PlainSink, PlainSource};
use nook_io::whole::write_all;
use std::alloc::Global;
use std::sync::Wait;
use std::thread::Threads;

/// The most bytes of an input, and of the scenario of an audit.
pub const LIMIT: u32 = 1_048_576;

/// The most bytes of the input of `audit`: a scenario's length, the scenario and a report.
pub const AUDIT_LIMIT: u32 = 16_777_216;

/// How the program ended. The exit codes are 0 to 9, in this order.
#[derive(Clone, Copy, Debug, PartialEq, Eq)]
pub enum Status {
    /// What the arguments ask for was written; if it is a report, no part was given up, or one of a mirror's two. If
    /// every order of the steps was asked for, all were followed, and none gives a part up or breaks a contract.
    Done,
    /// A report was written, and a part was given up; for a mirror, both disks were lost. If every order of the steps
    /// was asked for, all were followed, some order gives a part up, and none breaks a contract.
    GivenUp,
    /// No subcommand has these arguments.
    Usage,
    /// The input was refused, with the line that says why.
    BadInput,
    /// The source failed; nothing was written.
    ReadFault,
    /// The sink failed; it has gained a prefix of the output.
    WriteFault,
    /// Memory ran out; the sink has gained a prefix of the output, or nothing.
    NoMemory,
    /// A report was written, and a part's driver broke its class's contract; or some order of the steps breaks one.
    ContractBroken,
    /// A line of the audited report does not fit its scenario; the line that was written says which.
    AuditNo,
    /// There were too many states to follow every order of the steps; none of those followed breaks a contract.
    Cut,
}

impl Status {
    /// The exit code.
    pub fn code(self) -> u8
        ensures { result ≡ code_of self }
    {
        self as u8
    }
}

/// Does what the arguments ask for: reads the source, writes the sink, and returns how it ended. Usage is decided
/// first, and reads nothing; then come failures of the source, then input errors, then failures of the sink.
///
/// If it wrote a report, that is the report of the scenario's scheduled run or, for `run threads`, of its threads,
/// which the gate may hold back. Whatever the drivers executed and in whatever order the steps occurred, each part's
/// journal is a run of the part in which no driver changed a kernel object that was not lent to it. In each part
/// whose drivers kept the class's contract and that was not given up, the applications saw one run of a device that
/// never fails.
///
/// If it wrote the report of `guard`, that is the report of the guarded run: no driver broke its class's contract in
/// it, so that each part that was not given up is a device that never fails, with no condition on its drivers.
///
/// If it wrote the rows of `explore`, these are the outcomes of all orders in which the steps can occur; with the
/// status [`Status::Done`] or [`Status::GivenUp`] no schedule of that scenario breaks a contract.
///
/// It waits if the arguments ask for threads or for a mirror; all else is [`run_alone`], which returns.
pub fn run<R: Threads + Wait + Sync, S: Source, K: Sink, G: Gate>(
    rt: &R,
    alloc: Global,
    words: &[String],
    source: &mut S,
    sink: &mut K,
    listeners: Vec<Box<dyn Listener>>,
    gate: &G,
) -> Status
    // what the program answers to the arguments, given what was read of the source, was written; if
    // the sink fails or memory runs out, a prefix of it was written, or nothing
    ensures written { let read = change S.left S.count source.old source.new in
        let hearing = map (λ b. (⟦<dyn Listener as Listener>⟧ b.vtable).listening b.value)
        listeners.items in
        let asked = AnswersWords (map string_bytes words.now) hearing read in
        let sent = change K.held K.count sink.old sink.new in
        (IsAnswerStatus result → IsWritten asked sent result)
        × (IsCut result → GainsNothing sent ⊎ IsBegun asked sent) }
    // a report that was written is one of journals of the scenario that was read, in which every
    // part is safe
    ensures safe { AskReport (map string_bytes words.now) → HasReport result
        → IsWritten (IsSafeReport (change S.left S.count source.old source.new))
        (change K.held K.count sink.old sink.new) result }
    // a guard's report that was written is one of journals of the guarded scenario, in which every part is safe and no
    // driver broke its contract
    ensures guarded { AskGuard (map string_bytes words.now) → HasReport result
        → IsWritten (IsKeptReport (change S.left S.count source.old source.new))
        (change K.held K.count sink.old sink.new) result }
    // an I/O error ends the call and is reported exactly if there was one: with every other status
    // the error count is as it was
    ensures read_fault { (result ≡ Status.ReadFault
        → Rose (S.count source.old) (S.count source.new) × (sink.new ≡ sink.old))
        × ((result ≡ Status.ReadFault → ⊥) → S.count source.new ≡ S.count source.old) }
    ensures write_fault { (result ≡ Status.WriteFault
        → Rose (K.count sink.old) (K.count sink.new))
        × ((result ≡ Status.WriteFault → ⊥) → K.count sink.new ≡ K.count sink.old) }
    // if neither failed, the only other end is that memory runs out
    ensures complete { (Rose (S.count source.old) (S.count source.new) → ⊥)
        → (Rose (K.count sink.old) (K.count sink.new) → ⊥)
        → IsAnswerStatus result ⊎ (result ≡ Status.NoMemory) }
    // however it ended, at most one byte more than the limit was taken from the source, and none for
    // arguments that ask for no input
    ensures taken { TakesFor (map string_bytes words.now)
        (change S.left S.count source.old source.new) }
    ensures unread { AskUnread (map string_bytes words.now) → source.new ≡ source.old }
    // error counts never fall
    ensures later { (S.count source.old ≤ S.count source.new)
        × (K.count sink.old ≤ K.count sink.new) }
{
    match waiting_form_of(words) {
        Some(asked) => {
            let threading = Threading { rt, gate };
            read_and_wait(&threading, alloc, asked, source, sink, listeners)
        }
        None => run_alone(rt, alloc, words, source, sink, listeners),
    }
}

/// What [`run`] does for arguments that ask for nothing that waits: it returns. Only `campaign` starts threads, and
/// joins them.
pub fn run_alone<R: Threads + Sync, S: Source, K: Sink>(
    rt: &R,
    alloc: Global,
    words: &[String],
    source: &mut S,
    sink: &mut K,
    listeners: Vec<Box<dyn Listener>>,
) -> Status
    requires { AskAlone (map string_bytes words.now) }
    // all that is promised of `run` follows from how it ended
    ensures ends { let sent = change K.held K.count sink.old sink.new in
        let hearing = map (λ b. (⟦<dyn Listener as Listener>⟧ b.vtable).listening b.value)
        listeners.items in
        EndsWords (map string_bytes words.now) hearing
        (change S.left S.count source.old source.new) sent result }
    ensures unwritten { result ≡ Status.ReadFault → sink.new ≡ sink.old }
    ensures unread { AskUnread (map string_bytes words.now) → source.new ≡ source.old }
{
    match form_of(words) {
        None => finish(sink, USAGE, Status::Usage),
        Some(asked) => run_form(rt, alloc, asked, source, sink, listeners),
    }
}

/// [`run`] over bytes in memory and a sink that takes everything, neither of which ever fails: unless memory runs out,
/// the status is that of the program's answer to the arguments with these bytes as input.
pub fn run_plain<R: Threads + Wait + Sync, G: Gate>(
    rt: &R,
    alloc: Global,
    words: &[String],
    bytes: Words8,
    listeners: Vec<Box<dyn Listener>>,
    gate: &G,
) -> Status
    ensures { (result ≡ Status.NoMemory) ⊎ ((text : List ℕ) × AnswersBytes
        (map string_bytes words.now)
        (map (λ b. (⟦<dyn Listener as Listener>⟧ b.vtable).listening b.value) listeners.items)
        bytes text result) }
{
    let mut source = PlainSource::new(bytes);
    let mut sink = PlainSink::new();
    run(rt, alloc, words, &mut source, &mut sink, listeners, gate)
}

/// The same for arguments that ask for nothing that waits: it returns.
pub fn run_alone_plain<R: Threads + Sync>(
    rt: &R,
    alloc: Global,
    words: &[String],
    bytes: Words8,
    listeners: Vec<Box<dyn Listener>>,
) -> Status
    requires { AskAlone (map string_bytes words.now) }
    ensures { (result ≡ Status.NoMemory) ⊎ ((text : List ℕ) × AnswersBytes
        (map string_bytes words.now)
        (map (λ b. (⟦<dyn Listener as Listener>⟧ b.vtable).listening b.value) listeners.items)
        bytes text result) }
{
    let mut source = PlainSource::new(bytes);
    let mut sink = PlainSink::new();
    run_alone(rt, alloc, words, &mut source, &mut sink, listeners)
}

/// Writes a text and ends with the status of its answer, or with an I/O error of the sink.
pub fn finish<K: Sink>(sink: &mut K, text: &[u8], status: Status) -> Status
    requires { IsAnswerStatus status }
    ensures ends { Writes (Says text.now status) (change K.held K.count sink.old sink.new) result }
    ensures later { K.count sink.old ≤ K.count sink.new }
    ensures kept { (result ≡ Status.WriteFault → ⊥) → K.count sink.new ≡ K.count sink.old }
{
    match write_all(sink, text) {
        Ok(()) => status,
        Err(_) => Status::WriteFault,
    }
}
