//! The final state of each part of a run, for the report.

ghost use Rattle.std.specs.Prelude.{◌≡◌, IfOk};
ghost use Rattle.run_ends.specs.Ends.{end_of, objects_in};

use nook_data::limits::BLOCK_WORDS;
use nook_data::lists::{Frames, Items, Word};
use nook_data::memory::NoMemory;
use part_core::Part;
use run_results::PartEnd;
use std::alloc::Global;

/// The final state of a part: its kernel objects 1 to 12, its medium, its configuration and its failures.
#[tactic(auto, unfolding(crate::specs::Ends::end_of))]
pub fn end_of(alloc: Global, part: &Part) -> Result<PartEnd, NoMemory>
    ensures { IfOk result (λ end. end ≡ end_of part.now.state) }
{
    let objects = objects_of(alloc, part)?;
    let medium = blocks_of(alloc, part.medium())?;
    Ok(PartEnd {
        objects,
        medium,
        config: part.config(),
        failures: part.failures(),
    })
}

/// The words of kernel objects 1 to 12.
fn objects_of(alloc: Global, part: &Part) -> Result<Frames, NoMemory>
    ensures { IfOk result (λ objects. objects ≡ objects_in part.now.state.domain.memory) }
{
    let mut objects = Frames::new(alloc);
    for object in 1..13u32 {
        objects.push(part.object(alloc, object)?)?;
    }
    Ok(objects)
}

/// The words of the blocks of a medium.
fn blocks_of(alloc: Global, medium: &[[Word; BLOCK_WORDS]]) -> Result<Frames, NoMemory>
    ensures { IfOk result (λ blocks. blocks ≡ medium.now) }
{
    let mut blocks = Frames::new(alloc);
    for block in medium {
        blocks.push(Items::from_vec(Vec::from_array(alloc, *block)?))?;
    }
    Ok(blocks)
}
