//! All workers, each in its own thread.

ghost use Rattle.std.specs.Prelude.{◌≡◌, ◌<◌, ◌≤◌, length, map, All, IfOk, OnOk};
ghost use Rattle.app_threads.specs.Ends.{WorkersEnd};
ghost use Rattle.app_threads.specs.Hired.{Each, IsDone, IsHired, IsReady, RowsEnd};
ghost use Rattle.app_threads.specs.Order.{AllFollow, KeepClocked, all_stamps};
ghost use Rattle.app_threads.specs.Steps.{Same, Spread, TakeAllIn};
ghost use Rattle.app_threads.specs.Workers.{AreArrivals, AreScripts, AreSeats, AtDesks, KeepAccounts, KeepShares};
ghost use Rattle.app_threads.specs.Works.{IsWork, WorkEnds};

use crate::access::{DeskAccess, Tasks};
use crate::arrivals::run_arrivals;
use crate::script::run_script;
use crate::seats::{join_all, split_all};
use crate::stop::WorkerStop;
use crate::work::{Done, Work, Worker, works_of};
use desk_like::DeskLike;
use nook_data::desks::{Receipts, WorkerTable};
use nook_data::limits::MOST_PARTS;
use nook_data::lists::Frames;
use nook_data::memory::NoMemory;
use nook_data::scenario::ThreadSpecs;
use nook_io::outside::Gate;
use std::alloc::Global;
use std::sync::Wait;
use std::thread;
use std::thread::Threads;

// A worker for each work, with its own seats.
fn hire<D: DeskLike>(
    alloc: Global,
    desks: &[D],
    seats: &mut [D::Seat],
    works: &[Work],
) -> Result<Vec<Worker<D::Seat>>, NoMemory>
    requires { AreSeats D.is_seat desks.now seats.old }
    ensures seats { AreSeats D.is_seat desks.now seats.new }
    ensures same { AtDesks Same (map D.view seats.old) (map D.view seats.new) }
    ensures accounts { KeepAccounts (map D.view seats.old) (map D.view seats.new) }
    ensures clocked { KeepClocked (map D.view seats.old) (map D.view seats.new) }
    ensures hired { IfOk result (λ workers. Each
        (IsHired D.is_seat D.spec D.view desks.now
        (map D.view seats.old)) works.now workers.items) }
    ensures spread { IfOk result (λ workers. Spread (map D.view seats.old) (map D.view seats.new)
        (map (λ worker. map D.view worker.seats.items) workers.items)) }
{
    let mut workers = Vec::new(alloc);
    for at in 0..works.len() {
        let new_seats = split_all(alloc, desks, seats)?;
        workers.push(Worker {
            work: works[at],
            seats: new_seats,
        })?;
    }
    Ok(workers)
}

// Does a work at one worker's seats.
fn work_at<R: Wait, D: DeskLike, G: Gate>(
    access: &DeskAccess<'_, R, D>,
    seats: &mut [D::Seat],
    tasks: &Tasks<'_, G>,
    work: Work,
) -> Result<Receipts, WorkerStop>
    requires seats { AreSeats D.is_seat access.now.desks.now seats.old }
    requires scripts { AreScripts (length access.now.desks.now) tasks.now.scripts.now }
    requires arrivals { AreArrivals (map D.spec access.now.desks.now) tasks.now.arrivals.now }
    requires work { IsWork tasks.now.scripts.now tasks.now.arrivals.now work }
    ensures seats { AreSeats D.is_seat access.now.desks.now seats.new }
    ensures ends { WorkEnds (map D.spec access.now.desks.now) tasks.now.scripts.now
        tasks.now.arrivals.now (map D.view seats.old) work
        (map D.view seats.new) result }
    ensures shares { KeepShares (map D.view seats.old) (map D.view seats.new) }
{
    match work {
        Work::Script { thread } => {
            let script = tasks.scripts.get(thread as usize);
            run_script(access, seats, thread, &script.ops, tasks.gate)
        }
        Work::Arrivals { part } => {
            run_arrivals(access, seats, part, &tasks.arrivals[part as usize])
        }
    }
}

// What a worker does from start to end.
fn work_off<R: Wait, D: DeskLike, G: Gate>(
    access: &DeskAccess<'_, R, D>,
    tasks: &Tasks<'_, G>,
    worker: Worker<D::Seat>,
) -> Done<D::Seat>
    requires scripts { AreScripts (length access.now.desks.now) tasks.now.scripts.now }
    requires arrivals { AreArrivals (map D.spec access.now.desks.now) tasks.now.arrivals.now }
    requires ready { IsReady D.is_seat D.spec D.view access.now.desks.now
        tasks.now.scripts.now tasks.now.arrivals.now worker }
    ensures { IsDone D.is_seat D.spec D.view access.now.desks.now
        tasks.now.scripts.now tasks.now.arrivals.now worker result }
{
    let work = worker.work;
    let mut seats = worker.seats;
    let end = work_at(access, &mut seats, tasks, work);
    Done { seats, end }
}

// Lets each worker work in its own thread, and waits for all. The caller runs those that get no thread.
fn run_all<R: Threads + Wait + Sync, D: DeskLike, G: Gate>(
    access: &DeskAccess<'_, R, D>,
    tasks: &Tasks<'_, G>,
    workers: Vec<Worker<D::Seat>>,
) -> Result<Vec<Done<D::Seat>>, NoMemory>
    requires scripts { AreScripts (length access.now.desks.now) tasks.now.scripts.now }
    requires arrivals { AreArrivals (map D.spec access.now.desks.now) tasks.now.arrivals.now }
    requires ready { All
        (λ worker. IsReady D.is_seat D.spec D.view access.now.desks.now
        tasks.now.scripts.now tasks.now.arrivals.now worker)
        workers.items }
    ensures { IfOk result
        (λ done. Each (IsDone D.is_seat D.spec D.view access.now.desks.now
        tasks.now.scripts.now tasks.now.arrivals.now)
        workers.items done.items) }
{
    let done = thread::map_vec(
        access.rt,
        workers,
        &|worker: Worker<D::Seat>| -> Done<D::Seat>
            requires { AreScripts (length access.now.desks.now) tasks.now.scripts.now
                × AreArrivals (map D.spec access.now.desks.now) tasks.now.arrivals.now
                × IsReady D.is_seat D.spec D.view access.now.desks.now
                tasks.now.scripts.now tasks.now.arrivals.now worker }
            ensures { IsDone D.is_seat D.spec D.view access.entry.now.desks.now
                tasks.entry.now.scripts.now tasks.entry.now.arrivals.now worker
                result }
        { work_off(access, tasks, worker) },
    )?;
    Ok(done)
}

// Joins the workers' seats into the seats, one worker after another.
fn take_in<D: DeskLike>(
    alloc: Global,
    desks: &[D],
    seats: &mut [D::Seat],
    workers: Vec<Done<D::Seat>>,
) -> Result<Vec<Result<Receipts, WorkerStop>>, NoMemory>
    requires seats { AreSeats D.is_seat desks.now seats.old }
    requires workers { All (λ done. AreSeats D.is_seat desks.now done.seats.items) workers.items }
    ensures seats { AreSeats D.is_seat desks.now seats.new }
    ensures joins { OnOk result (TakeAllIn (map D.spec desks.now) (map D.view seats.old)
        (map (λ done. map D.view done.seats.items) workers.items) (map D.view seats.new)) }
    ensures ends { IfOk result (λ ends. ends.items ≡ map (λ done. done.end) workers.items) }
    ensures accounts { KeepAccounts (map D.view seats.old) (map D.view seats.new) }
    ensures clocked { KeepClocked (map D.view seats.old) (map D.view seats.new) }
{
    let mut ends = Vec::new(alloc);
    for done in workers {
        join_all(desks, seats, done.seats);
        ends.push(done.end)?;
    }
    Ok(ends)
}

// All rows of receipts, or the first stop.
fn rows_of(
    alloc: Global,
    ends: Vec<Result<Receipts, WorkerStop>>,
) -> Result<WorkerTable, WorkerStop>
    ensures { RowsEnd ends.items result }
{
    let mut rows = WorkerTable::new(alloc);
    for end in ends {
        rows.push(end?)?;
    }
    Ok(rows)
}

/// Runs each script in its own thread, and each list of arrivals that is not empty in another one. It waits for all of
/// them, and returns each thread's receipts in the order of its script.
///
/// There are at most 8 desks, as many seats and lists of arrivals, and at most 16 scripts. The gate is passed before
/// each operation of a script. A worker that is refused stops there, and the others finish. The call reports the
/// refused worker with the smallest thread number; workers of arrivals come after all threads, in the order of their
/// desks. After a table or a refusal all workers' seats are joined into the caller's seats. These know all that was
/// seen and added through the workers' seats, and those that were alone before are alone again. After a refusal no seat
/// gained more calls of a thread than its script has on that desk, nor more arrivals than the desk's list. After
/// `NoMemory` some workers may not have run, and what was added through the seats of the others may be unknown.
/// Whatever the result, a seat that accounted for all that was added through it (`Accounts`) still does.
///
/// A thread carries its clock from desk to desk: each of its operations is stamped later than the answer to the
/// previous one, even on different desks.
pub fn run_workers<R: Threads + Wait + Sync, D: DeskLike, G: Gate>(
    rt: &R,
    alloc: Global,
    desks: &[D],
    seats: &mut [D::Seat],
    scripts: &ThreadSpecs,
    arrivals: &[Frames],
    gate: &G,
) -> Result<WorkerTable, WorkerStop>
    requires desks { length desks.now ≤ MOST_PARTS }
    requires seats { AreSeats D.is_seat desks.now seats.old }
    requires scripts { AreScripts (length desks.now) scripts.now }
    requires arrivals { AreArrivals (map D.spec desks.now) arrivals.now }
    ensures seats { AreSeats D.is_seat desks.now seats.new }
    ensures ends { WorkersEnd (map D.spec desks.now) scripts.now arrivals.now (map D.view seats.old)
        (map D.view seats.new) result }
    ensures accounts { KeepAccounts (map D.view seats.old) (map D.view seats.new) }
    ensures clocked { KeepClocked (map D.view seats.old) (map D.view seats.new) }
    ensures order { IfOk result
        (λ table. AllFollow (all_stamps (map D.view seats.new)) scripts.now table) }
{
    let works = works_of(alloc, scripts, arrivals)?;
    let workers = hire(alloc, desks, seats, works.as_slice())?;
    let access = DeskAccess { rt, alloc, desks };
    let tasks = Tasks {
        scripts,
        arrivals,
        gate,
    };
    let done = run_all(&access, &tasks, workers)?;
    let ends = take_in(alloc, desks, seats, done)?;
    let mut rows = rows_of(alloc, ends)?.into_vec();
    rows.truncate(scripts.len());
    Ok(WorkerTable::from_vec(rows))
}
