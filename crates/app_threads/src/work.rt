//! What workers there are, and what each is to do.

ghost use Rattle.std.specs.Prelude.{◌≡◌, ◌≤◌, ◌++◌, length, IfOk, OnOk};
ghost use Rattle.app_threads.specs.Works.{all_works, arrival_works, script_works};

use crate::stop::WorkerStop;
use nook_data::desks::Receipts;
use nook_data::limits::{MOST_PARTS, MOST_THREADS};
use nook_data::lists::Frames;
use nook_data::memory::NoMemory;
use nook_data::scenario::ThreadSpecs;
use std::alloc::Global;

/// What a worker is to do.
#[derive(Clone, Copy)]
pub enum Work {
    /// The script of this thread.
    Script { thread: u8 },
    /// The arrivals of this part.
    Arrivals { part: u32 },
}

/// A worker before its work, with a seat at each desk.
#[derive(Drop)]
pub struct Worker<S> {
    pub work: Work,
    pub seats: Vec<S>,
}

/// A worker after its work: its seats, and its receipts or why it stopped.
#[derive(Drop)]
pub struct Done<S> {
    pub seats: Vec<S>,
    pub end: Result<Receipts, WorkerStop>,
}

// A work for each script.
fn script_works(alloc: Global, scripts: &ThreadSpecs) -> Result<Vec<Work>, NoMemory>
    requires { length scripts.now ≤ MOST_THREADS }
    ensures { IfOk result (λ works. works.items ≡ script_works 0 scripts.now) }
{
    let mut works = Vec::new(alloc);
    for thread in 0..scripts.len() {
        works.push(Work::Script {
            thread: thread as u8,
        })?;
    }
    Ok(works)
}

// Adds a work for each list that is not empty.
fn add_arrivals(works: &mut Vec<Work>, arrivals: &[Frames]) -> Result<(), NoMemory>
    requires { length arrivals.now ≤ MOST_PARTS }
    ensures { OnOk result (works.new.items ≡ works.old.items ++ arrival_works 0 arrivals.now) }
{
    for part in 0..arrivals.len() {
        if !arrivals[part].is_empty() {
            works.push(Work::Arrivals { part: part as u32 })?;
        }
    }
    Ok(())
}

/// A work for each script, and one for each list of arrivals that is not empty.
pub fn works_of(
    alloc: Global,
    scripts: &ThreadSpecs,
    arrivals: &[Frames],
) -> Result<Vec<Work>, NoMemory>
    requires scripts { length scripts.now ≤ MOST_THREADS }
    requires arrivals { length arrivals.now ≤ MOST_PARTS }
    ensures { IfOk result (λ works. works.items ≡ all_works scripts.now arrivals.now) }
{
    let mut works = script_works(alloc, scripts)?;
    add_arrivals(&mut works, arrivals)?;
    Ok(works)
}
