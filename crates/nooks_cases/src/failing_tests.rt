//! Every subcommand that reads, with a source and a sink that fail at each of their calls in turn; and listeners that
//! are dropped in the middle of a run.

use crate::inputs::{CAMPAIGN, EVERY, IMAGE, MEMBERS, MIRROR, REPORT, SCENARIO, TEXT};
use crate::running::{Failing, PER_READ, outcome};
use nook_io::listeners::CountListener;
use nook_io::outside::Listener;
use nooks::Status;
use std::alloc::Global;
use std::process::Abort;
use std::sync::Wait;
use std::test::Fail;
use std::thread::Threads;

/// More reads and writes than any of the subcommands makes.
const MOST: u32 = 100;

/// The subcommands that read, each with an input that it serves.
const FORMS: [(&str, &str); 14] = [
    ("run", SCENARIO),
    ("run threads", SCENARIO),
    ("trace 0 1", SCENARIO),
    ("campaign", CAMPAIGN),
    ("campaign", EVERY),
    ("campaign", MEMBERS),
    ("audit", REPORT),
    ("mirror", MIRROR),
    ("guard", SCENARIO),
    ("guard scenario", SCENARIO),
    ("explore", SCENARIO),
    ("asm", TEXT),
    ("list", TEXT),
    ("dis", IMAGE),
];

/// The read with this number fails.
const fn at_read(read: u32) -> Failing {
    Failing {
        read,
        write: 0,
        nothing: false,
    }
}

/// Each read of the input may fail, including the one that finds its end; then nothing is written. There are no other
/// reads. Returns what is written if none fails.
fn check_reads<R: Threads + Wait + Sync + Abort>(
    rt: &R,
    alloc: Global,
    form: &str,
    input: &str,
) -> Result<String, Fail> {
    for read in 1..MOST {
        let (status, written) = outcome(rt, alloc, form, input, at_read(read), Vec::new(alloc))?;
        if status == Status::Done {
            let reads = input.len().div_ceil(PER_READ as usize);
            assert_eq!(rt; read as usize, reads.saturating_add(2), "of {form}");
            return Ok(written);
        }
        assert_eq!(rt; status, Status::ReadFault, "{form} at read {read}");
        assert_eq!(rt; written.len(), 0, "{form} at read {read}");
    }
    Err(Fail::from("more reads"))
}

/// Each write of the output may fail, or take nothing; then a prefix is written, a longer one with each later write.
fn check_writes<R: Threads + Wait + Sync + Abort>(
    rt: &R,
    alloc: Global,
    form: &str,
    input: &str,
    whole: &str,
    nothing: bool,
) -> Result<(), Fail> {
    let mut before = None;
    for write in 1..MOST {
        let failing = Failing {
            read: 0,
            write,
            nothing,
        };
        let (status, written) = outcome(rt, alloc, form, input, failing, Vec::new(alloc))?;
        assert!(rt;
            whole.starts_with(written.as_str()),
            "{form} at write {write}"
        );
        if status == Status::Done {
            assert_eq!(rt; written.len(), whole.len(), "of {form}");
            return Ok(());
        }
        assert_eq!(rt; status, Status::WriteFault, "{form} at write {write}");
        assert!(rt; before < Some(written.len()), "{form} at write {write}");
        before = Some(written.len());
    }
    Err(Fail::from("more writes"))
}

#[test]
fn each_read_and_each_write_may_fail(rt: HostRuntime) -> Result<(), Fail> {
    let alloc = rt.alloc();
    for (form, input) in FORMS {
        let whole = check_reads(&rt, alloc, form, input)?;
        check_writes(&rt, alloc, form, input, whole.as_str(), false)?;
        check_writes(&rt, alloc, form, input, whole.as_str(), true)?;
    }
    Ok(())
}

/// A table of 1,025 rows is written in three pieces: 1,024 rows, the last row, and the last line.
#[test]
fn a_table_is_written_in_batches(rt: HostRuntime) -> Result<(), Fail> {
    let alloc = rt.alloc();
    let faults = r#"{"burst":3,"after":0,"kind":"trap"},"#.repeat(alloc, 1024)?;
    let (front, back) = CAMPAIGN.split_once("[{\"burst\"").ok_or("faults")?;
    let input = format!(in alloc; "{front}[{faults}{{\"burst\"{back}")?;
    for (write, rows) in [(2, 1024), (3, 1025)] {
        let failing = Failing {
            read: 0,
            write,
            nothing: false,
        };
        let (status, written) = outcome(
            &rt,
            alloc,
            "campaign",
            input.as_str(),
            failing,
            Vec::new(alloc),
        )?;
        assert_eq!(rt; status, Status::WriteFault);
        assert_eq!(rt; written.as_str().lines().count(), rows);
    }
    Ok(())
}

/// A listener that reaches its limit is dropped in the middle of the boot, or before it, and hears nothing more. One
/// that listens only to stages hears them all.
#[test]
fn listeners_are_dropped_at_their_limits(rt: HostRuntime) -> Result<(), Fail> {
    let alloc = rt.alloc();
    let mut listeners: Vec<Box<dyn Listener>> = Vec::new(alloc);
    for (kinds, limit) in [(255, 3), (4, 1), (8, 100), (255, 0)] {
        let listener = CountListener::new(u8::MAX, kinds, limit);
        listeners.push(Box::new(alloc, listener)?)?;
    }
    let (_, written) = outcome(&rt, alloc, "run", SCENARIO, at_read(0), listeners)?;
    let lines =
        "tap 0 total 3 dropped\ntap 1 total 1 dropped\ntap 2 total 3 kept\ntap 3 total 0 dropped\nstatus 0\n";
    assert!(rt; written.as_str().ends_with(lines));
    Ok(())
}
