//! What a search finds.

ghost use Rattle.order_search.specs.Found.{row_of_end};
ghost use Rattle.std.specs.Prelude.{◌≡◌, map, IfOk};

use crate::ends::FirstEnd;
use nook_data::campaign::MemberRow;
use nook_data::lists::{Items, Words};
use nook_data::memory::NoMemory;
use std::alloc::Global;

/// An outcome: the first order that leads to it, and the numbers of its run.
#[derive(Drop)]
pub struct OutcomeRow {
    /// The actors of its steps.
    pub picks: Words,
    pub numbers: MemberRow,
}

/// What a search finds.
#[derive(Drop)]
pub struct Explored {
    /// The outcomes, in the order of their picks.
    pub rows: Items<OutcomeRow>,
    /// How many states were stored.
    pub states: u32,
    /// Whether some orders were not followed, because there are too many states.
    pub is_cut: bool,
}

/// The rows of these ends.
pub fn rows_from(alloc: Global, firsts: Items<FirstEnd>) -> Result<Items<OutcomeRow>, NoMemory>
    ensures { IfOk result (λ rows. rows ≡ map row_of_end firsts) }
{
    let mut rows = Items::new(alloc);
    for first in firsts.into_vec() {
        rows.push(OutcomeRow {
            picks: first.picks,
            numbers: first.numbers,
        })?;
    }
    Ok(rows)
}
