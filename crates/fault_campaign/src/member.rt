//! The scenarios of members.

ghost use Rattle.std.specs.Prelude.{◌≡◌, ◌<◌, ◌++◌, IfOk, OnOk, OnErr, length};
ghost use Rattle.fault_campaign.specs.Members.{IsBaseButStruck};
ghost use Rattle.plan_defs.specs.Plans.{struck_by, with_faults};

use nook_data::lists::TryCopy;
use nook_data::memory::NoMemory;
use nook_data::scenario::{Fault, Faults, PartSpec, Scenario};
use plan_defs::plan::Plan;
use std::alloc::Global;

/// Turns the scenario into that of the member with these faults, which follow those of the struck part in the base.
/// Before, it was the base or another member's scenario: only the struck part differs, so no other part is copied.
#[tactic(auto, using(crate::proofs::Struck::struck_member))]
pub fn strike(
    alloc: Global,
    plan: &Plan,
    faults: &[Fault],
    scenario: &mut Scenario,
) -> Result<(), NoMemory>
    requires part { plan.now.part < length plan.now.base.parts }
    requires scenario { IsBaseButStruck plan.now scenario.old }
    ensures ok { OnOk result (scenario.new ≡ struck_by plan.now.base plan.now.part faults.now) }
    ensures err { OnErr result (scenario.new ≡ scenario.old) }
{
    let index = plan.part as usize;
    let struck = with_faults(alloc, plan.base.parts.get(index), faults)?;
    scenario.parts.set(index, struck);
    Ok(())
}

/// A part with more faults after its own.
fn with_faults(alloc: Global, part: &PartSpec, faults: &[Fault]) -> Result<PartSpec, NoMemory>
    ensures { IfOk result (λ struck. struck ≡ with_faults faults.now part.now) }
{
    let mut struck = part.copy(alloc)?;
    push_all(&mut struck.faults, faults)?;
    Ok(struck)
}

/// Appends faults.
fn push_all(list: &mut Faults, faults: &[Fault]) -> Result<(), NoMemory>
    ensures { OnOk result (list.new ≡ list.old ++ faults.now) }
{
    for fault in faults {
        list.push(*fault)?;
    }
    Ok(())
}
