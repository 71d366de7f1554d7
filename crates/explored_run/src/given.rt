//! The acts that a report lists at its end.

ghost use Rattle.explore_defs.specs.Outcomes.{given_by};
ghost use Rattle.explored_run.specs.Alike.{event_acts, given_at, given_in, is_given};
ghost use Rattle.report_defs.specs.ReportText.{journal_acts};
ghost use Rattle.std.specs.Prelude.{◌≡◌, ◌++◌, filter, IfOk, OnOk, map, true};

use nook_data::classes::Class;
use nook_data::lists::TryCopy;
use nook_data::machine::{Act, Acts};
use nook_data::memory::NoMemory;
use nook_data::same::Same;
use nook_data::steps::Event;
use part_core::PackedPart;
use sim_run::PackedSimulation;
use std::alloc::Global;

/// The acts that the report of a part of a class lists: the frames that a link sent, or the samples that a stream
/// played.
pub fn given_of(alloc: Global, class: Class, events: &[Event]) -> Result<Acts, NoMemory>
    ensures { IfOk result (λ given. given ≡ given_by class (journal_acts events.now)) }
{
    let mut given = Acts::new(alloc);
    if class == Class::Block {
        return Ok(given);
    }
    for event in events {
        add_given(alloc, class, event, &mut given)?;
    }
    Ok(given)
}

/// Adds the listed acts of an event.
fn add_given(alloc: Global, class: Class, event: &Event, given: &mut Acts) -> Result<(), NoMemory>
    ensures { OnOk result
        (given.new ≡ given.old ++ filter (is_given class) (event_acts event.now)) }
{
    match event {
        Event::Burst { acts, .. } => add_given_acts(alloc, class, acts.as_slice(), given),
        _ => Ok(()),
    }
}

/// Adds those of some acts that are listed.
fn add_given_acts(
    alloc: Global,
    class: Class,
    acts: &[Act],
    given: &mut Acts,
) -> Result<(), NoMemory>
    ensures { OnOk result (given.new ≡ given.old ++ filter (is_given class) acts.now) }
{
    for act in acts {
        if is_given(class, act) {
            given.push(act.copy(alloc)?)?;
        }
    }
    Ok(())
}

/// Whether the report of a part of a class lists an act.
fn is_given(class: Class, act: &Act) -> bool
    ensures { result ≡ is_given class act.now }
{
    match class {
        Class::Block => false,
        Class::Net => matches!(act, Act::Sent { .. }),
        Class::Sound => matches!(act, Act::Played { .. }),
    }
}

/// Whether the reports of both simulations' parts list the same acts. If memory runs out while they are listed, the
/// answer is no.
#[tactic(auto, using(crate::proofs::Loops::given_alike_more))]
pub fn are_given_alike(
    alloc: Global,
    simulation: &PackedSimulation,
    other: &PackedSimulation,
) -> bool
    ensures { result ≡ true → map given_at simulation.now.parts ≡ map given_at other.now.parts }
{
    if simulation.part_count() != other.part_count() {
        return false;
    }
    for number in 0..simulation.part_count() {
        if !is_given_alike(alloc, simulation.part(number), other.part(number)) {
            return false;
        }
    }
    true
}

/// Whether the reports of two parts list the same acts.
fn is_given_alike(alloc: Global, part: &PackedPart, other: &PackedPart) -> bool
    ensures { result ≡ true → given_in part.now ≡ given_in other.now }
{
    match (given_of_packed(alloc, part), given_of_packed(alloc, other)) {
        (Ok(given), Ok(others)) => given.is_same(&others),
        _ => false,
    }
}

/// The acts that the report of a part lists.
fn given_of_packed(alloc: Global, part: &PackedPart) -> Result<Acts, NoMemory>
    ensures { IfOk result (λ given. given ≡ given_in part.now) }
{
    given_of(alloc, part.spec().class, part.journal().as_slice())
}
