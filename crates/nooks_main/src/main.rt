//! The program `nooks`: one call of [`nooks::run`] over the arguments, standard input and standard output.
#![tactic(auto)]

mod echo;
mod messages;

use echo::Echo;
use messages::{EXPLAIN, FORMS, STANDARD_INPUT, message_of};
use nook_io::listeners::FreeGate;
use nook_io::outside::{Listener, Sink};
use nook_io::standard_streams::{InSource, OutSink};
use nooks::{Status, own_listeners, run};
use std::alloc::{AllocError, Global};
use std::env::Env;
use std::io;
use std::io::{ErrorKind, IsTerminal};
use std::process::ExitCode;
use std::sync::Wait;
use std::thread::Threads;

/// Runs the program on the arguments after its own name, says on standard error what went wrong, and ends with the
/// status's code. Running out of memory before the call ends the program as it does within the call.
fn main(rt: HostRuntime) -> ExitCode {
    let mut sink = Echo::new(OutSink::new(io::writer(&rt)));
    let status = match words_of(&rt, rt.alloc()) {
        Ok(words) => {
            let status = answer(&rt, words.as_slice(), &mut sink).unwrap_or(Status::NoMemory);
            // What standard error does not take is lost: there is no one left to report it to.
            let _hinted = hint(&rt, status, words.as_slice());
            status
        }
        Err(_) => Status::NoMemory,
    };
    let _said = say(&rt, status, sink.front());
    ExitCode::from(status.code())
}

/// Makes the listeners, and does what the arguments ask for.
fn answer<R: Input + AllocGlobal + Threads + Wait + Sync, K: Sink>(
    rt: &R,
    words: &[String],
    sink: &mut K,
) -> Result<Status, AllocError> {
    let alloc = rt.alloc();
    let mut listeners: Vec<Box<dyn Listener>> = Vec::new(alloc);
    for listener in own_listeners(alloc)? {
        listeners.push(Box::new(alloc, listener)?)?;
    }
    let mut source = InSource::new(rt.reader());
    let status = run(rt, alloc, words, &mut source, sink, listeners, &FreeGate);
    Ok(status)
}

/// The arguments after the program's own name; if one is not UTF-8, a single empty argument, which no subcommand has.
fn words_of<R: Env + AllocGlobal>(rt: &R, alloc: Global) -> Result<Vec<String>, AllocError> {
    let mut words = Vec::new(alloc);
    match std::env::args(rt) {
        Ok(given) => {
            for word in given.skip(1) {
                words.push(word)?;
            }
        }
        Err(error) if error.kind() == ErrorKind::OutOfMemory => return Err(AllocError),
        Err(_) => words.push(String::new(alloc))?,
    }
    Ok(words)
}

/// Says on standard error how to fix arguments that no subcommand has.
fn hint(rt: &HostRuntime, status: Status, words: &[String]) -> io::Result<()> {
    if status == Status::Usage {
        eprintln!(rt; "nooks: {FORMS}")?;
        if names_a_file(rt, words) {
            eprintln!(rt; "nooks: {STANDARD_INPUT}")?;
        }
    }
    Ok(())
}

/// Whether one of the arguments is the path of a file.
fn names_a_file(rt: &HostRuntime, words: &[String]) -> bool {
    words.iter().any(|word| std::fs::metadata(rt, word.as_str()).is_ok_and(|it| it.is_file()))
}

/// Says on standard error what went wrong. The line of an input error went to standard output: it is repeated
/// if that is no terminal, so that a redirection does not hide it.
fn say(rt: &HostRuntime, status: Status, front: &[u8]) -> io::Result<()> {
    if status == Status::BadInput {
        if !rt.stdout().is_terminal() {
            if let Ok(line) = std::str::from_utf8(front) {
                eprint!(rt; "nooks: {line}")?;
            }
        }
        eprintln!(rt; "nooks: {EXPLAIN}")?;
    }
    if let Some(message) = message_of(status) {
        eprintln!(rt; "nooks: {message}")?;
    }
    Ok(())
}
