//! A schedule with its current state, and its picks.

ghost use Rattle.std.specs.Prelude.{◌≡◌, ◌+◌, ◌<◌, ◌≤◌, IfSome, length, nat_le, position, ◌==◌};
ghost use Rattle.run_defs.specs.Schedules.{listed, listed_pick, opening_order, picked, round, round_pick};
ghost use Rattle.schedule.specs.Standings.{IsNext, cursor_after, cursor_of, position_from};

use nook_data::lists::Picks;
use nook_data::scenario::ScheduleSpec;
use rand_core::SeedableRng;
use rand_core::utils::NextWord;
use rand_pcg::Pcg32;
use std::marker::Model;

/// The state of a schedule.
#[derive(Drop)]
enum Progress {
    /// The number of the actor to try first.
    Round { cursor: u32 },
    Drawn { generator: Pcg32 },
    /// The picks, and the index of the first one that is left.
    Listed { picks: Picks, at: usize },
}

/// A schedule with its state. Contracts see the order of the definition.
#[derive(Drop)]
pub struct Schedule {
    progress: Progress,
}

impl Model for Schedule {
    ghost use Rattle.run_defs.specs.Schedules.{Order};
    ghost use Rattle.schedule.specs.Orders.{order_of};

    ghost Value = { Order };

    ghost view = { λ s. order_of s.progress };
}

impl Schedule {
    /// A schedule before its first pick. A drawn one seeds its generator with the start. This allocates no memory.
    #[tactic(auto, unfolding(run_defs::specs::Schedules::opening_order))]
    pub fn new(spec: ScheduleSpec) -> Schedule
        ensures { result ≡ opening_order spec }
    {
        let progress = match spec {
            ScheduleSpec::RoundRobin => Progress::Round { cursor: 0 },
            ScheduleSpec::Drawn { start } => Progress::Drawn {
                generator: Pcg32::seed_from_u64(start),
            },
            ScheduleSpec::Listed { picks } => Progress::Listed { picks, at: 0 },
        };
        Schedule { progress }
    }

    /// The number of the actor that a round robin tries first. Anyone who knows which actors are enabled finds the next
    /// one without a list of all.
    pub fn cursor(&self) -> Option<u32>
        ensures cursor { result ≡ cursor_of self.now }
        ensures round { IfSome result (λ cursor. self.now ≡ round cursor) }
    {
        match self.progress {
            Progress::Round { cursor } => Some(cursor),
            Progress::Drawn { .. } | Progress::Listed { .. } => None,
        }
    }

    /// The schedule continues as a round robin that tries this actor first.
    pub fn go_on_from(&mut self, cursor: u32)
        ensures { self.new ≡ round cursor }
    {
        self.progress = Progress::Round { cursor };
    }

    /// The index in `actors` of the one that takes the next step. `actors` are the numbers of the enabled actors, in
    /// ascending order; there is at least one.
    #[tactic(auto, unfolding(run_defs::specs::Schedules::picked))]
    pub fn pick(&mut self, actors: &[u16]) -> usize
        requires { 0 < length actors.now }
        ensures index { result ≡ (picked self.old actors.now).index }
        ensures order { self.new ≡ (picked self.old actors.now).order }
    {
        match &mut self.progress {
            Progress::Round { cursor } => pick_round(cursor, actors),
            Progress::Drawn { generator } => generator.next_word() as usize % actors.len(),
            Progress::Listed { picks, at } => match next_listed(picks.as_slice(), *at, actors) {
                Some((index, next)) => {
                    *at = next;
                    index
                }
                None => {
                    let mut cursor = 0;
                    let index = pick_round(&mut cursor, actors);
                    self.progress = Progress::Round { cursor };
                    index
                }
            },
        }
    }
}

/// The index of the first actor at or after the cursor, else of the first one. The cursor moves past that actor.
fn pick_round(cursor: &mut u32, actors: &[u16]) -> usize
    requires { 0 < length actors.now }
    ensures index { result ≡ position_from cursor.old actors.now }
    ensures cursor { cursor.new ≡ cursor_after cursor.old actors.now }
{
    let index = first_from(*cursor, actors).unwrap_or(0);
    *cursor = actors[index] as u32 + 1;
    index
}

/// The index of the first actor at or after the cursor.
fn first_from(cursor: u32, actors: &[u16]) -> Option<usize>
    ensures index { result ≡ position (λ a. nat_le cursor a) actors.now }
    ensures within { IfSome result (λ index. index < length actors.now) }
{
    actors.iter().position(|actor| cursor <= *actor as u32)
}

/// The index of an actor.
fn position_of(actor: u16, actors: &[u16]) -> Option<usize>
    ensures index { result ≡ position (λ a. a == actor) actors.now }
    ensures within { IfSome result (λ index. index < length actors.now) }
{
    actors.iter().position(|other| *other == actor)
}

/// The first enabled pick from index `at` on: the index of its actor, and the index of the pick after it.
#[tactic(auto, using(crate::proofs::Picks::past_pick, crate::proofs::Picks::found_pick, crate::proofs::Picks::no_pick))]
fn next_listed(picks: &[u16], at: usize, actors: &[u16]) -> Option<(usize, usize)>
    ensures { IsNext picks.now at actors.now result }
{
    for i in at..picks.len() {
        if let Some(index) = position_of(picks[i], actors) {
            return Some((index, i + 1));
        }
    }
    None
}
