//! The levels, one after another.

ghost use Rattle.explore_laws.specs.Held.{ways_from};
ghost use Rattle.order_search.specs.Ends.{TakesEnds};
ghost use Rattle.order_search.specs.Found.{GoesOn, IsAt};
ghost use Rattle.order_search.specs.Moments.{held_as, held_at_first};
ghost use Rattle.order_search.specs.Ways.{TakesWays, made_as};
ghost use Rattle.std.specs.Prelude.{◌∷◌, [], IfOk, OnOk};

use crate::by_digest::ByDigest;
use crate::ends::{FirstEnd, add_end};
use crate::moment::Moment;
use crate::states::HeldState;
use crate::ways::{Front, follow};
use nook_data::lists::{Items, Words};
use nook_data::memory::NoMemory;
use std::alloc::Global;

/// A search between two levels.
#[derive(Drop)]
pub struct Work<M> {
    /// The states of the level, in the order of their picks.
    pub level: Items<HeldState<M>>,
    /// The first end of each outcome in the levels before it.
    pub firsts: Items<FirstEnd>,
    /// How many states are stored in all.
    pub states: u32,
    /// Whether one more state would have had to be stored.
    pub is_cut: bool,
}

/// A search at its first state.
pub fn begin<M: Moment>(alloc: Global, first: M) -> Result<Work<M>, NoMemory>
    ensures { IfOk result (λ work. IsAt (held_at_first (M.now first))
        (made_as M.now work.level work.states work.is_cut) work.firsts) }
{
    let mut level = Items::new(alloc);
    level.push(HeldState {
        picks: Words::new(alloc),
        moment: first,
    })?;
    Ok(Work {
        level,
        firsts: Items::new(alloc),
        states: 1,
        is_cut: false,
    })
}

/// Follows the continuations of one state, or adds it as an end. Once truncated, no continuation is followed.
fn visit<M: Moment>(
    alloc: Global,
    state: HeldState<M>,
    front: &mut Front<M>,
    firsts: &mut Items<FirstEnd>,
) -> Result<(), NoMemory>
    ensures ways { OnOk result (TakesWays (ways_from (held_as M.now state))
        (made_as M.now front.old.level front.old.states front.old.is_cut)
        (made_as M.now front.new.level front.new.states front.new.is_cut)) }
    ensures ends { OnOk result (TakesEnds (held_as M.now state ∷ []) firsts.old firsts.new) }
{
    let choices = state.moment.choices(alloc)?;
    if choices.is_empty() {
        return add_end(alloc, state, firsts);
    }
    if front.is_cut {
        return Ok(());
    }
    follow(alloc, &state, &choices, front)
}

/// Processes a level: its ends are added, and its continuations make the next level.
pub fn go_over<M: Moment>(alloc: Global, work: Work<M>) -> Result<Work<M>, NoMemory>
    ensures { IfOk result (λ next. GoesOn (made_as M.now work.level work.states work.is_cut)
        (made_as M.now next.level next.states next.is_cut) work.firsts next.firsts) }
{
    let mut firsts = work.firsts;
    let mut front = Front {
        level: Items::new(alloc),
        by_digest: ByDigest::new(alloc),
        states: work.states,
        is_cut: work.is_cut,
    };
    for state in work.level.into_vec() {
        visit(alloc, state, &mut front, &mut firsts)?;
    }
    Ok(Work {
        level: front.level,
        firsts,
        states: front.states,
        is_cut: front.is_cut,
    })
}
