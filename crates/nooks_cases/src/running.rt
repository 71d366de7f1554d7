//! Runs of the program with sources and sinks in memory.

use nook_data::lists::{Words, Words8};
use nook_io::listeners::FreeGate;
use nook_io::outside::Listener;
use nook_io::streams_in_memory::{ListSink, ListSource};
use nooks::{Status, run};
use std::alloc::Global;
use std::sync::Wait;
use std::test::Fail;
use std::thread::Threads;

/// More bytes than any of the outputs has.
const ROOM: u32 = 262_144;

/// The maximum number of bytes in a read.
pub const PER_READ: u32 = 100;

/// The numbers of the read and of the write that fail, 0 for none; `nothing` says whether that write takes nothing
/// instead of failing.
#[derive(Clone, Copy)]
pub struct Failing {
    pub read: u32,
    pub write: u32,
    pub nothing: bool,
}

/// Runs a subcommand with its arguments, separated by blanks, on an input. Returns the status and the output.
pub fn outcome<R: Threads + Wait + Sync>(
    rt: &R,
    alloc: Global,
    form: &str,
    input: &str,
    failing: Failing,
    listeners: Vec<Box<dyn Listener>>,
) -> Result<(Status, String), Fail> {
    let words = words_of(alloc, form)?;
    let bytes = Words8::from_vec(input.as_bytes().to_vec(alloc)?);
    let reads = Words::from_vec(vec![in alloc; failing.read]?);
    let writes = Words::from_vec(vec![in alloc; failing.write]?);
    let mut source = ListSource::new(bytes, reads, PER_READ);
    let mut sink = ListSink::new(alloc, ROOM, writes, failing.nothing)?;
    let status = run(
        rt,
        alloc,
        words.as_slice(),
        &mut source,
        &mut sink,
        listeners,
        &FreeGate,
    );
    let written = std::str::from_utf8(sink.bytes()).ok().ok_or("text")?;
    Ok((status, String::from_str(alloc, written)?))
}

/// Splits a subcommand and its arguments.
pub fn words_of(alloc: Global, form: &str) -> Result<Vec<String>, Fail> {
    let mut words = Vec::new(alloc);
    for word in form.split_whitespace() {
        words.push(String::from_str(alloc, word)?)?;
    }
    Ok(words)
}
