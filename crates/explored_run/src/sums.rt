//! Sums over the parts of a simulation in its current state.

ghost use Rattle.explored_run.specs.Sums.{any_broken, any_given_up, failures_of, lost_by};
ghost use Rattle.part_defs.specs.Stages.{is_given_up};
ghost use Rattle.report_defs.specs.Campaigns.{lost_of};
ghost use Rattle.std.specs.Prelude.{◌≡◌, ◌+◌, IfOk, map};

use contract_monitor::Monitor;
use nook_data::memory::NoMemory;
use nook_data::verdicts::Losses;
use part_core::Part;
use sim_run::Simulating;

/// The failures of all parts. A sum that does not fit in 64 bits is refused as if memory had run out.
pub fn count_failures(simulation: &Simulating) -> Result<u64, NoMemory>
    ensures { IfOk result (λ count. count ≡ failures_of simulation.now.parts) }
{
    let mut count: u64 = 0;
    for number in 0..simulation.part_count() {
        count = add(count, u64::from(simulation.part(number).failures()))?;
    }
    Ok(count)
}

/// The losses of all parts.
#[tactic(auto, using(crate::proofs::Loops::lost_more))]
pub fn count_lost(monitors: &[Monitor]) -> Result<u64, NoMemory>
    ensures { IfOk result (λ count. count ≡ lost_by monitors.now) }
{
    let mut count: u64 = 0;
    for monitor in monitors {
        count = add(count, lost_of(&monitor.losses())?)?;
    }
    Ok(count)
}

/// The number of lost sends, lost samples and answers Busy.
fn lost_of(losses: &Losses) -> Result<u64, NoMemory>
    ensures { IfOk result (λ lost. lost ≡ lost_of losses.now) }
{
    add(add(losses.sends, losses.samples)?, losses.busy)
}

/// A sum of two counts.
fn add(count: u64, more: u64) -> Result<u64, NoMemory>
    ensures { IfOk result (λ sum. sum ≡ count + more) }
{
    count.checked_add(more).ok_or(NoMemory)
}

/// Whether a part has broken a clause.
#[tactic(auto, using(crate::proofs::Loops::broken_more, crate::proofs::Loops::broken_at))]
pub fn is_any_broken(monitors: &[Monitor]) -> bool
    ensures { result ≡ any_broken monitors.now }
{
    for monitor in monitors {
        if monitor.first_break().is_some() {
            return true;
        }
    }
    false
}

/// Whether a part was given up.
#[tactic(auto, using(crate::proofs::Loops::given_up_more, crate::proofs::Loops::given_up_at))]
pub fn is_any_given_up(simulation: &Simulating) -> bool
    ensures { result ≡ any_given_up simulation.now.parts }
{
    for number in 0..simulation.part_count() {
        if is_given_up(simulation.part(number)) {
            return true;
        }
    }
    false
}

/// Whether a part was given up: it failed more often than its limit.
fn is_given_up(part: &Part) -> bool
    ensures { result ≡ is_given_up part.now.state }
{
    part.spec().limit < part.failures()
}
