//! The run of a mirror.

ghost use Rattle.std.specs.Prelude.{◌≡◌, ◌∷◌, ◌≤◌, IfOk, List, OnErr, [], length, map, true};
ghost use Rattle.mirror_block.specs.Sides.{IsNewSide};
ghost use Rattle.mirrored_run.specs.Hearing.{HearAllOrNothing};
ghost use Rattle.mirrored_run.specs.Mirrors.{IsMirrorRun, is_mirror, is_single, ops_of_thread};
ghost use Rattle.mirrored_run.specs.Serving.{HasServed};
ghost use Rattle.mirrored_run.specs.Unheard.{IsWholeRun};
ghost use Rattle.nook_data.specs.Valid.{IsValidScenario};
ghost use Rattle.nook_data.specs.declared.steps.Event.{Event};
ghost use Rattle.part_server.specs.Desk.{IsDeskSeat, desk_spec, desk_view};
ghost use Rattle.run_results.specs.Reports.{HaveEnds};
ghost use Rattle.request_taps.specs.Bus.{result_of, seen, after_hearing_all};
ghost use Rattle.run_results.specs.Journals.{AreRuns, events_in};
ghost use Rattle.threaded_run.specs.Threaded.{in_parts};

use crate::serving::serve_first;
use mirror_block::Mirror;
use nook_data::calls::AnswerTable;
use nook_data::limits::MOST_OPS;
use nook_data::memory::NoMemory;
use nook_data::mirror::MirrorAnswers;
use nook_data::scenario::{PartSpec, Scenario, ThreadSpec};
use nook_io::outside::Listener;
use part_server::{DeskSeat, PartDesk};
use request_taps::Bus;
use run_ends::WholeRun;
use run_results::{Journals, PartEnds, Run};
use std::alloc::Global;
use std::sync::Wait;
use threaded_run::{Left, leave, open_desk, publish_all};

/// What the run of a mirror left: its journals, totals and ends (without answers of threads), and the mirror's answers.
#[derive(Drop)]
pub struct Mirrored {
    pub whole: WholeRun,
    pub answers: MirrorAnswers,
}

/// What the run of a mirror left that no tap has heard.
#[derive(Drop)]
pub struct Unheard {
    pub journals: Journals,
    pub ends: PartEnds,
    pub answers: MirrorAnswers,
}

/// The answers of a mirror, and the seats at its sides.
#[derive(Drop)]
pub struct Served {
    pub answers: MirrorAnswers,
    pub left: DeskSeat,
    pub right: DeskSeat,
}

/// A desk, and a seat at it.
#[derive(Drop)]
struct Seated<'a> {
    desk: &'a PartDesk,
    seat: DeskSeat,
}

/// Runs the mirror of a valid scenario that a mirror serves: serves its thread's operations one after the other, over a
/// desk for each of the two parts. Then both parts take their remaining steps, and the taps hear the journals, part by
/// part. After `NoMemory` the taps have heard nothing, or all events of the journals of such a run.
pub fn run_mirror<R: Wait, L: Listener>(
    rt: &R,
    alloc: Global,
    scenario: &Scenario,
    taps: &mut Bus<L>,
) -> Result<Mirrored, NoMemory>
    requires valid { IsValidScenario scenario.now }
    requires served { is_mirror scenario.now ≡ true }
    ensures runs { IfOk result
        (λ made. AreRuns scenario.now.parts (map events_in made.whole.run.journals)) }
    ensures ends { IfOk result
        (λ made. HaveEnds scenario.now.parts made.whole.run.journals made.whole.ends) }
    ensures mirrored { IfOk result (λ made. (left right : List Event)
        × (map events_in made.whole.run.journals ≡ left ∷ right ∷ [])
        × IsMirrorRun scenario.now left right made.answers) }
    ensures heard { IfOk result (λ made. map (seen L.listening) taps.new
        ≡ after_hearing_all (in_parts 0 (map events_in made.whole.run.journals))
        (map (seen L.listening) taps.old)) }
    ensures totals { IfOk result
        (λ made. made.whole.run.taps ≡ map result_of (map (seen L.listening) taps.new)) }
    ensures refused { OnErr result (HearAllOrNothing scenario.now
        (map (seen L.listening) taps.old) (map (seen L.listening) taps.new)) }
{
    let left = run_unheard(rt, alloc, scenario)?;
    publish_all(taps, left.journals.as_slice());
    let totals = taps.totals(alloc)?;
    Ok(Mirrored {
        whole: WholeRun {
            run: Run {
                journals: left.journals,
                answers: AnswerTable::new(alloc),
                taps: totals,
            },
            ends: left.ends,
        },
        answers: left.answers,
    })
}

/// Runs the mirror of a valid scenario that a mirror serves, and publishes nothing.
fn run_unheard<R: Wait>(rt: &R, alloc: Global, scenario: &Scenario) -> Result<Unheard, NoMemory>
    requires valid { IsValidScenario scenario.now }
    requires served { is_mirror scenario.now ≡ true }
    ensures { IfOk result (IsWholeRun scenario.now) }
{
    let (left, right) = both(scenario.parts.as_slice());
    run_pair(rt, alloc, scenario, left, right)
}

/// The first and the second of two parts.
fn both(parts: &[PartSpec]) -> (&PartSpec, &PartSpec)
    requires { length parts.now ≡ 2 }
    ensures { parts.now ≡ result.0.now ∷ result.1.now ∷ [] }
{
    (&parts[0], &parts[1])
}

/// The same, with the scenario's two parts.
fn run_pair<R: Wait>(
    rt: &R,
    alloc: Global,
    scenario: &Scenario,
    left: &PartSpec,
    right: &PartSpec,
) -> Result<Unheard, NoMemory>
    requires valid { IsValidScenario scenario.now }
    requires served { is_mirror scenario.now ≡ true }
    requires parts { scenario.now.parts ≡ left.now ∷ right.now ∷ [] }
    ensures { IfOk result (IsWholeRun scenario.now) }
{
    let (left_desk, left_seat) = open_desk(alloc, left)?;
    let (right_desk, right_seat) = open_desk(alloc, right)?;
    let threads = scenario.threads.as_slice();
    let served = serve_over(
        rt,
        alloc,
        threads,
        Seated {
            desk: &left_desk,
            seat: left_seat,
        },
        Seated {
            desk: &right_desk,
            seat: right_seat,
        },
        left.blocks,
    )?;
    let left_part = leave(rt, alloc, left_desk, served.left)?;
    let right_part = leave(rt, alloc, right_desk, served.right)?;
    gather(alloc, left_part, right_part, served.answers)
}

/// Serves the operations of the first thread, at most 256, by a mirror with `blocks` blocks over two desks.
fn serve_over<R: Wait>(
    rt: &R,
    alloc: Global,
    threads: &[ThreadSpec],
    left: Seated,
    right: Seated,
    blocks: u32,
) -> Result<Served, NoMemory>
    requires single { is_single threads.now ≡ true }
    requires few { length (ops_of_thread threads.now) ≤ MOST_OPS }
    requires left_seat { IsDeskSeat left.desk.now left.seat }
    requires right_seat { IsDeskSeat right.desk.now right.seat }
    requires left { IsNewSide (desk_spec left.desk.now) blocks (desk_view left.seat) }
    requires right { IsNewSide (desk_spec right.desk.now) blocks (desk_view right.seat) }
    ensures left { IfOk result (λ served. IsDeskSeat left.entry.desk.now served.left) }
    ensures right { IfOk result (λ served. IsDeskSeat right.entry.desk.now served.right) }
    ensures served { IfOk result
        (λ served. HasServed desk_spec left.entry.desk.now right.entry.desk.now
        (desk_view left.entry.seat) (desk_view right.entry.seat) blocks
        (ops_of_thread threads.now) served.answers (desk_view served.left)
        (desk_view served.right)) }
{
    let mut mirror = Mirror::new(left.desk, right.desk, left.seat, right.seat, blocks);
    let answers = serve_first(rt, alloc, &mut mirror, threads)?;
    let (left, right) = mirror.seats();
    Ok(Served {
        answers,
        left,
        right,
    })
}

/// Combines what two parts left and the answers.
fn gather(
    alloc: Global,
    left: Left,
    right: Left,
    answers: MirrorAnswers,
) -> Result<Unheard, NoMemory>
    ensures journals { IfOk result (λ made. made.journals ≡ left.journal ∷ right.journal ∷ []) }
    ensures ends { IfOk result (λ made. made.ends ≡ left.end ∷ right.end ∷ []) }
    ensures answers { IfOk result (λ made. made.answers ≡ answers) }
{
    let mut journals = Journals::new(alloc);
    journals.push(left.journal)?;
    journals.push(right.journal)?;
    let mut ends = PartEnds::new(alloc);
    ends.push(left.end)?;
    ends.push(right.end)?;
    Ok(Unheard {
        journals,
        ends,
        answers,
    })
}
