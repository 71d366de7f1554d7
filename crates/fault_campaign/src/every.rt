//! The members of every fault: each kind of fault, in each burst, before each instruction at which it strikes.

ghost use Rattle.std.specs.Prelude.{◌≡◌, ◌+◌, ◌*◌, ◌^◌, ◌<◌, ◌≤◌, ◌++◌, IfOk, OnOk, map};
ghost use Rattle.campaign_defs.specs.Members.{alone};
ghost use Rattle.guard_defs.specs.Every.{faults_in, put_at};

use nook_data::lists::Items;
use nook_data::memory::NoMemory;
use nook_data::scenario::{Fault, FaultKind, Faults};
use std::alloc::Global;

/// Each fault as the only fault of a member.
pub fn each_alone(alloc: Global, faults: &[Fault]) -> Result<Items<Faults>, NoMemory>
    ensures { IfOk result (λ members. members ≡ map alone faults.now) }
{
    let mut members = Items::new(alloc);
    for fault in faults {
        members.push(alone(alloc, *fault)?)?;
    }
    Ok(members)
}

/// A list of one fault.
fn alone(alloc: Global, fault: Fault) -> Result<Faults, NoMemory>
    ensures { IfOk result (λ faults. faults ≡ alone fault) }
{
    let mut faults = Faults::new(alloc);
    faults.push(fault)?;
    Ok(faults)
}

/// The faults of the given kinds in a burst, before each of `turns` instructions after the first `after`.
#[tactic(auto, unfolding(guard_defs::specs::Every::faults_in))]
pub fn faults_in(
    alloc: Global,
    kinds: &[FaultKind],
    burst: u32,
    after: u32,
    turns: u32,
) -> Result<Faults, NoMemory>
    requires { after + turns < 2 ^ 32 }
    ensures { IfOk result (λ faults. faults ≡ faults_in kinds.now burst after turns) }
{
    let mut faults = Faults::new(alloc);
    for turn in 0..turns {
        push_kinds(&mut faults, kinds, burst, after + turn)?;
    }
    Ok(faults)
}

/// Appends a fault of each kind, in a burst, after the first `after` instructions.
fn push_kinds(
    faults: &mut Faults,
    kinds: &[FaultKind],
    burst: u32,
    after: u32,
) -> Result<(), NoMemory>
    ensures { OnOk result (faults.new ≡ faults.old ++ map (put_at burst after) kinds.now) }
{
    for kind in kinds {
        faults.push(Fault {
            burst,
            after,
            kind: *kind,
        })?;
    }
    Ok(())
}
