//! The continuations of a level, of which the next level is made.

ghost use Rattle.explore_laws.specs.Held.{ways_from};
ghost use Rattle.order_search.specs.Moments.{actors_in, held_as};
ghost use Rattle.order_search.specs.Ways.{HasPresent, TakesWays, made_as};
ghost use Rattle.std.specs.Prelude.{◌≡◌, ◌∷◌, [], true, map, OnOk};

use crate::by_digest::ByDigest;
use crate::moment::Moment;
use crate::states::{HeldState, grown};
use explore_defs::MOST_STATES;
use nook_data::lists::{Items, Words};
use nook_data::memory::NoMemory;
use std::alloc::Global;

/// The next level so far.
#[derive(Drop)]
pub struct Front<M> {
    pub level: Items<HeldState<M>>,
    pub by_digest: ByDigest,
    /// How many states are stored, in this level and all before it.
    pub states: u32,
    /// Whether one more state would have had to be stored.
    pub is_cut: bool,
}

/// Whether one of these states has the present of another. Only the candidates are compared.
fn has_same<M: Moment>(level: &Items<HeldState<M>>, candidates: &[usize], moment: &M) -> bool
    ensures { result ≡ true → HasPresent (map (held_as M.now) level.now) (M.now moment.now) }
{
    for index in candidates {
        if *index < level.len() && level.get(*index).moment.is_same(moment) {
            return true;
        }
    }
    false
}

/// Adds a continuation, unless a state of its level has the same present or no more states may be stored.
fn hold<M: Moment>(alloc: Global, state: HeldState<M>, front: &mut Front<M>) -> Result<(), NoMemory>
    ensures { OnOk result (TakesWays (held_as M.now state ∷ [])
        (made_as M.now front.old.level front.old.states front.old.is_cut)
        (made_as M.now front.new.level front.new.states front.new.is_cut)) }
{
    if front.is_cut {
        return Ok(());
    }
    let digest = state.moment.digest();
    if has_same(
        &front.level,
        front.by_digest.candidates(digest),
        &state.moment,
    ) {
        return Ok(());
    }
    if front.states >= MOST_STATES {
        front.is_cut = true;
        return Ok(());
    }
    front.by_digest.add(alloc, digest, front.level.len())?;
    front.level.push(state)?;
    front.states += 1;
    Ok(())
}

/// Adds all continuations of a state, in the order of its actors.
pub fn follow<M: Moment>(
    alloc: Global,
    state: &HeldState<M>,
    choices: &Words,
    front: &mut Front<M>,
) -> Result<(), NoMemory>
    requires { choices.now ≡ actors_in (M.now state.now.moment) }
    ensures { OnOk result (TakesWays (ways_from (held_as M.now state.now))
        (made_as M.now front.old.level front.old.states front.old.is_cut)
        (made_as M.now front.new.level front.new.states front.new.is_cut)) }
{
    for index in 0..choices.len() {
        let moment = state.moment.after(alloc, index)?;
        let picks = grown(alloc, &state.picks, *choices.get(index))?;
        hold(alloc, HeldState { picks, moment }, front)?;
    }
    Ok(())
}
