//! States, and the orders that lead to them.

ghost use Rattle.std.specs.Prelude.{◌≡◌, ◌++◌, ◌∷◌, [], IfOk};

use nook_data::lists::Words;
use nook_data::memory::NoMemory;
use std::alloc::Global;

/// A simulation, and the actors of the steps that led to it.
#[derive(Drop)]
pub struct HeldState<M> {
    pub picks: Words,
    pub moment: M,
}

/// The picks, with one more.
pub fn grown(alloc: Global, picks: &Words, actor: u32) -> Result<Words, NoMemory>
    ensures { IfOk result (λ made. made ≡ picks.now ++ actor ∷ []) }
{
    let mut made = picks.copied(alloc)?;
    made.push(actor)?;
    Ok(made.fitted())
}
