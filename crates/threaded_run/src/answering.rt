//! The answers of threads.

ghost use Rattle.std.specs.Prelude.{◌≡◌, IfOk};
ghost use Rattle.threaded_run.specs.Leaving.{answers_in};
ghost use Rattle.threaded_run.specs.Threaded.{answers_by};

use nook_data::calls::{AnswerTable, Op, PartAnswers};
use nook_data::desks::{Receipts, WorkerTable};
use nook_data::memory::NoMemory;
use nook_data::scenario::ThreadSpec;
use std::alloc::Global;

/// The answers of each thread, each with its part, from the receipts of the thread's operations.
pub fn answers_of(
    alloc: Global,
    threads: &[ThreadSpec],
    table: WorkerTable,
) -> Result<AnswerTable, NoMemory>
    ensures { IfOk result (λ answers. answers ≡ answers_in threads.now table) }
{
    let mut answers = AnswerTable::new(alloc);
    let mut rows = table.into_vec().into_iter();
    for thread in threads {
        if let Some(receipts) = rows.next() {
            answers.push(answers_by(alloc, thread.ops.as_slice(), receipts)?)?;
        }
    }
    Ok(answers)
}

/// The answers of one thread.
fn answers_by(alloc: Global, ops: &[(u32, Op)], receipts: Receipts) -> Result<PartAnswers, NoMemory>
    ensures { IfOk result (λ answers. answers ≡ answers_by ops.now receipts) }
{
    let mut answers = PartAnswers::new(alloc);
    let mut receipts = receipts.into_vec().into_iter();
    for (part, _) in ops {
        if let Some(receipt) = receipts.next() {
            answers.push((*part, receipt.answer))?;
        }
    }
    Ok(answers)
}
