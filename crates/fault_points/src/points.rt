//! The bursts of a part's journal, each with the number of instructions before which one more fault strikes.

ghost use Rattle.std.specs.Prelude.{◌≡◌, [], find, IfOk, List};
ghost use Rattle.fault_points.specs.Bursts.{burst_points, is_stop, open_points, turns_within};
ghost use Rattle.fault_points.specs.Points.{faults_at};
ghost use Rattle.guard_defs.specs.Every.{every_fault, every_fault_guarded};
ghost use Rattle.guard_defs.specs.Guard.{IsGuardedRun, traps_of};
ghost use Rattle.machine_defs.specs.BurstFaults.{is_of_burst};
ghost use Rattle.nook_data.specs.declared.scenario.FaultKind.{FaultKind};
ghost use Rattle.part_defs.specs.Runs.{IsRun};

use nook_data::lists::Items;
use nook_data::memory::NoMemory;
use nook_data::scenario::{Fault, FaultKind, PartSpec};
use nook_data::steps::Event;
use std::alloc::Global;

/// A burst of a part's run: its number from 1, and the number of its instructions, from the first on, before which one
/// more fault strikes.
#[derive(Clone, Copy)]
pub struct BurstPoints {
    pub burst: u32,
    pub points: u32,
}

/// The bursts of a part's journal with their positions. The journal is of the part's run, or of its guarded run; the
/// traps are those of the guard, in the order in which they were found; the part's run has none. One more fault comes
/// after the part's own and before the guard's traps, so it strikes before each instruction that the burst executes,
/// and also at the position of the guard's trap.
///
/// # Errors
///
/// Out of memory.
pub fn points_of(
    alloc: Global,
    spec: &PartSpec,
    journal: &[Event],
    traps: &[Fault],
) -> Result<Items<BurstPoints>, NoMemory>
    ensures free { IsRun spec.now journal.now → traps.now ≡ [] → (kinds : List FaultKind)
        → IfOk result (λ points. faults_at kinds points ≡ every_fault kinds spec.now journal.now) }
    ensures guarded { IsGuardedRun spec.now journal.now → traps.now ≡ traps_of spec.now journal.now
        → (kinds : List FaultKind)
        → IfOk result (λ points. faults_at kinds points
        ≡ every_fault_guarded kinds spec.now journal.now) }
{
    let faults = spec.faults.as_slice();
    let mut points = Items::new(alloc);
    for event in journal {
        if let Some(found) = burst_points(faults, traps, event) {
            points.push(found)?;
        }
    }
    Ok(points)
}

/// The positions in an event's burst; `None` if the event is no burst.
fn burst_points(faults: &[Fault], traps: &[Fault], event: &Event) -> Option<BurstPoints>
    ensures { result ≡ burst_points faults.now traps.now event.now }
{
    match event {
        Event::Burst { burst, count, .. } => Some(BurstPoints {
            burst: *burst,
            points: open_points(faults, traps, *burst, *count),
        }),
        _ => None,
    }
}

/// The number of instructions before which one more fault strikes. `count` is the number that the burst's event shows.
/// A trap of the guard comes after fewer than 4,096 instructions, so the sum never saturates.
fn open_points(faults: &[Fault], traps: &[Fault], burst: u32, count: u32) -> u32
    ensures { result ≡ open_points faults.now traps.now burst count }
{
    match trap_of_burst(traps, burst) {
        Some(trap) => trap.after.saturating_add(1),
        None => turns_made(faults, burst, count),
    }
}

/// The guard's trap of a burst.
fn trap_of_burst(traps: &[Fault], burst: u32) -> Option<Fault>
    ensures { result ≡ find (is_of_burst burst) traps.now }
{
    traps.iter().find(|trap| trap.burst == burst).copied()
}

/// The instructions that a burst executes. Its event shows the same number, except after a hang of the script: it then
/// shows 4,096, and the burst executed only the instructions before the hang.
fn turns_made(faults: &[Fault], burst: u32, count: u32) -> u32
    ensures { result ≡ turns_within faults.now burst count }
{
    let mut turns = count;
    for fault in faults {
        if fault.burst == burst && is_stop(fault) {
            turns = turns.min(fault.after);
        }
    }
    turns
}

/// Whether the burst ends where the fault strikes.
fn is_stop(fault: &Fault) -> bool
    ensures { result ≡ is_stop fault.now }
{
    matches!(fault.kind, FaultKind::Trap | FaultKind::Hang)
}
