//! A simulation that branches: every possible next step, and the current state.

ghost use Rattle.std.specs.Prelude.{◌≡◌, ◌<◌, ◌≤◌, Some, IfOk, length, map, slice_get};
ghost use Rattle.run_defs.specs.Schedules.{round};
ghost use Rattle.run_defs.specs.Simulation.{answer_table, answers_of_thread, choices_of};
ghost use Rattle.sim_run.specs.Actors.{actors_in};
ghost use Rattle.sim_run.specs.Advanced.{state_at};
ghost use Rattle.sim_run.specs.Branching.{run_of};
ghost use Rattle.sim_run.specs.Ends.{ends_of};
ghost use Rattle.sim_run.specs.Reached.{IsOpenChoice};
ghost use Rattle.nook_data.specs.declared.limits.TheConstants.{MOST_PARTS, MOST_THREADS};

use super::{Simulating, take_ends};
use crate::actors::{able_threads, choice_of, list_ready};
use crate::chosen::Chosen;
use crate::script::Script;
use crate::seat::SimulatedPart;
use nook_data::calls::AnswerTable;
use nook_data::lists::{Items, TryCopy, Words};
use nook_data::memory::NoMemory;
use part_core::Part;
use run_results::PartEnds;
use std::alloc::Global;

impl<'a> Simulating<'a> {
    /// The numbers of the actors that have a step, in ascending order.
    pub fn actors(&self) -> Result<Words, NoMemory>
        ensures { IfOk result (λ actors. actors ≡ actors_in self.now.parts self.now.threads) }
    {
        let ready = ready_actors(self.alloc, &self.threads, &self.seats)?;
        let mut actors = Words::new(self.alloc);
        for actor in &ready {
            actors.push(u32::from(*actor))?;
        }
        Ok(actors)
    }

    /// The step of the actor with an index among those that have one.
    #[tactic(auto, using(crate::proofs::Branching::index_within))]
    pub fn choice(&self, index: usize) -> Result<Chosen, NoMemory>
        requires { index < length
            (choices_of (state_at (round 0) self.now.parts self.now.threads)) }
        ensures at { IfOk result (λ chosen.
            slice_get (choices_of (state_at (round 0) self.now.parts self.now.threads)) index
            ≡ Some chosen) }
        ensures open { IfOk result (λ chosen. IsOpenChoice self.now.parts chosen) }
    {
        let ready = ready_actors(self.alloc, &self.threads, &self.seats)?;
        choice_among(self.alloc, &ready, index, &self.threads, &self.seats)
    }

    /// The number of parts, at most 8.
    pub fn part_count(&self) -> usize
        ensures count { result ≡ length self.now.parts }
        ensures few { result ≤ MOST_PARTS }
    {
        self.seats.len()
    }

    /// The part with a number.
    pub fn part(&self, number: usize) -> &Part
        requires { number < length self.now.parts }
        ensures { slice_get (map run_of self.now.parts) number ≡ Some result.now }
    {
        self.seats[number].part()
    }

    /// The final state of each part, if the run ends now.
    pub fn ends(&self) -> Result<PartEnds, NoMemory>
        ensures { IfOk result (λ ends. ends ≡ ends_of self.now.parts) }
    {
        take_ends(self.alloc, &self.seats)
    }

    /// Each thread's answers so far.
    pub fn answers(&self) -> Result<AnswerTable, NoMemory>
        ensures { IfOk result (λ answers. answers ≡ answer_table self.now) }
    {
        copy_answers(self.alloc, &self.threads)
    }
}

/// The numbers of the actors that have a step, in ascending order.
fn ready_actors(
    alloc: Global,
    threads: &[Script],
    seats: &[SimulatedPart],
) -> Result<Vec<u16>, NoMemory>
    requires threads { length threads.now ≤ MOST_THREADS }
    requires seats { length seats.now ≤ MOST_PARTS }
    ensures { IfOk result (λ ready. ready.items ≡ actors_in seats.now threads.now) }
{
    let able = able_threads(alloc, threads, seats)?;
    let mut ready = Vec::new(alloc);
    list_ready(&able, seats, &mut ready)?;
    Ok(ready)
}

/// The step of the actor with an index in the given list of those that have one.
fn choice_among(
    alloc: Global,
    ready: &[u16],
    index: usize,
    threads: &[Script],
    seats: &[SimulatedPart],
) -> Result<Chosen, NoMemory>
    requires threads { length threads.now ≤ MOST_THREADS }
    requires ready { ready.now ≡ actors_in seats.now threads.now }
    requires index { index < length (choices_of (state_at (round 0) seats.now threads.now)) }
    requires within { index < length ready.now }
    ensures at { IfOk result (λ chosen.
        slice_get (choices_of (state_at (round 0) seats.now threads.now)) index ≡ Some chosen) }
    ensures open { IfOk result (λ chosen. IsOpenChoice seats.now chosen) }
{
    match choice_of(alloc, ready[index], threads, seats)? {
        Some(chosen) => Ok(chosen),
        None => unreachable!(),
    }
}

/// Copies of each thread's answers.
fn copy_answers(alloc: Global, threads: &[Script]) -> Result<AnswerTable, NoMemory>
    ensures { IfOk result (λ made. made ≡ map answers_of_thread threads.now) }
{
    let mut made = Items::new(alloc);
    for thread in threads {
        made.push(thread.answers().copy(alloc)?)?;
    }
    Ok(made)
}
