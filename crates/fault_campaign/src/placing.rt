//! Rows that are made in any order, ordered by the indexes of their members.

ghost use Rattle.std.specs.Prelude.{◌≡◌, [], All, IfOk, List, length};
ghost use Rattle.campaign_rows.specs.declared.shown.Shown.{Shown};
ghost use Rattle.fault_campaign.specs.NumberedRows.{AreSlots, IsRowOfNumber, IsShare};
ghost use Rattle.nook_data.specs.declared.scenario.Fault.{Fault};
ghost use Rattle.plan_defs.specs.declared.plan.Plan.{Plan};

use campaign_defs::row::Row;
use nook_data::lists::Items;
use nook_data::memory::NoMemory;
use std::alloc::Global;

/// A member's row with its index.
#[derive(Clone, Copy)]
pub struct NumberedRow {
    pub index: usize,
    pub row: Row,
}

/// The rows of the members that a worker ran.
pub type Share = Result<Items<NumberedRow>, NoMemory>;

/// The rows of all shares, each at its index of `count`; `None` at an index that no share has.
pub fn put_all(alloc: Global, count: usize, shares: &[Share]) -> Result<Vec<Option<Row>>, NoMemory>
    ensures { (plan : Plan) (shown : Shown) (lists : List (List Fault)) → length lists ≡ count
        → All (IsShare plan shown lists) shares.now
        → IfOk result (λ slots. AreSlots plan shown lists slots.items) }
{
    let mut slots = vec![in alloc; None; count]?;
    for share in shares {
        match share {
            Ok(rows) => put_share(slots.as_mut_slice(), rows.as_slice()),
            Err(_) => return Err(NoMemory),
        }
    }
    Ok(slots)
}

/// Stores the rows of one share at their indexes.
fn put_share(slots: &mut [Option<Row>], rows: &[NumberedRow])
    ensures { (plan : Plan) (shown : Shown) (lists : List (List Fault))
        → All (IsRowOfNumber plan shown lists) rows.now
        → AreSlots plan shown lists slots.old → AreSlots plan shown lists slots.new }
{
    for numbered in rows {
        if numbered.index < slots.len() {
            slots[numbered.index] = Some(numbered.row);
        }
    }
}
