//! A simulation without parts and threads.

ghost use Rattle.search_cases.specs.Nothing.{nothing};

use explore_defs::Outcome;
use nook_data::campaign::MemberRow;
use nook_data::lists::{Items, Words};
use nook_data::memory::NoMemory;
use order_search::Moment;
use std::alloc::Global;

/// A simulation without parts and threads.
#[derive(Clone, Copy)]
pub struct Still;

impl Moment for Still {
    ghost now = { λ still. nothing };

    fn choices(&self, alloc: Global) -> Result<Words, NoMemory> {
        Ok(Words::new(alloc))
    }

    fn after(&self, _alloc: Global, _index: usize) -> Result<Still, NoMemory> {
        Ok(Still)
    }

    fn is_same(&self, _other: &Still) -> bool {
        true
    }

    fn digest(&self) -> u64 {
        0
    }

    fn outcome(&self, alloc: Global) -> Result<Outcome, NoMemory> {
        Ok(Outcome {
            answers: Items::new(alloc),
            parts: Items::new(alloc),
        })
    }

    fn numbers(&self, steps: u64) -> Result<MemberRow, NoMemory> {
        Ok(MemberRow {
            status: 0,
            events: steps,
            failures: 0,
            gone: 0,
            lost: 0,
        })
    }
}

#[cfg(test)]
mod tests {
    use super::*;
    use order_search::search;
    use std::test::Fail;

    #[test]
    fn one_row_with_no_step_is_found(rt: HostRuntime) -> Result<(), Fail> {
        let found = search(rt.alloc(), Still)?;
        assert_eq!(rt; found.states, 1);
        assert_eq!(rt; found.is_cut, false);
        assert_eq!(rt; found.rows.len(), 1);
        for row in &found.rows {
            assert_eq!(rt; row.picks.len(), 0);
            assert_eq!(rt; row.numbers.events, 0);
        }
        Ok(())
    }
}
