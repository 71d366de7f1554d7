//! The lines of rows.

ghost use Rattle.std.specs.Prelude.{◌≡◌, ◌+◌, ◌^◌, ◌<◌, ◌++◌, OnOk, length};
ghost use Rattle.campaign_defs.specs.TableText.{cause_words, clause_text, counts_text, detail_text, first_cause_text};
ghost use Rattle.campaign_defs.specs.TableText.{plan_row_line, plan_row_lines, same_text, traps_text};
ghost use Rattle.nook_io.specs.Changes.{change};
ghost use Rattle.report_text.specs.Writing.{Wrote};

use campaign_defs::row::{Detail, Row};
use nook_data::campaign::MemberRow;
use nook_data::memory::NoMemory;
use nook_data::steps::FailCause;
use nook_io::outside::Sink;
use report_text::{Line, WriteStop, push_cause, push_number, write_text};
use std::alloc::Global;

/// Writes the lines of rows; the first row has number `first`.
pub fn write_rows<K: Sink>(
    alloc: Global,
    sink: &mut K,
    first: u64,
    rows: &[Row],
) -> Result<(), WriteStop>
    requires { first + length rows.now < 2 ^ 64 }
    ensures { Wrote (change K.held K.count sink.old sink.new) result
        (plan_row_lines first rows.now) }
{
    let mut line = Line::new(alloc);
    push_rows(&mut line, first, rows)?;
    write_text(sink, &line)
}

/// Writes the line of the base's row, which has number 0.
pub fn write_base_row<K: Sink>(alloc: Global, sink: &mut K, row: &Row) -> Result<(), WriteStop>
    ensures { Wrote (change K.held K.count sink.old sink.new) result (plan_row_line 0 row.now) }
{
    let mut line = Line::new(alloc);
    push_row(&mut line, 0, row)?;
    write_text(sink, &line)
}

/// Appends the lines of rows; the first row has number `first`.
fn push_rows(line: &mut Line, first: u64, rows: &[Row]) -> Result<(), NoMemory>
    requires { first + length rows.now < 2 ^ 64 }
    ensures { OnOk result (line.new ≡ line.old ++ plan_row_lines first rows.now) }
{
    let mut position = first;
    for row in rows {
        push_row(line, position, row)?;
        position += 1;
    }
    Ok(())
}

/// Appends the line of a row with its number.
fn push_row(line: &mut Line, position: u64, row: &Row) -> Result<(), NoMemory>
    ensures { OnOk result (line.new ≡ line.old ++ plan_row_line position row.now) }
{
    line.number(position)?;
    push_counts(line, &row.counts)?;
    push_detail(line, row.detail)?;
    push_traps(line, row.traps)?;
    push_cause_words(line, row.detail)?;
    line.push("\n")
}

/// Appends the counts of a run.
fn push_counts(line: &mut Line, row: &MemberRow) -> Result<(), NoMemory>
    ensures { OnOk result (line.new ≡ line.old ++ counts_text row.now) }
{
    push_number(line, " status ", u64::from(row.status))?;
    push_number(line, " events ", row.events)?;
    push_number(line, " failures ", row.failures)?;
    push_number(line, " gone ", row.gone)?;
    push_number(line, " lost ", row.lost)
}

/// Appends how a run compares with the base's, and the clause that was broken, if the campaign asks for it.
fn push_detail(line: &mut Line, detail: Option<Detail>) -> Result<(), NoMemory>
    ensures { OnOk result (line.new ≡ line.old ++ detail_text detail) }
{
    let Some(detail) = detail else {
        return Ok(());
    };
    line.push(" answers ")?;
    line.push(same_text(detail.same_answers))?;
    line.push(" left ")?;
    line.push(same_text(detail.same_left))?;
    line.push(" break ")?;
    push_clause(line, detail.clause)
}

/// Whether something is the same as in the base's run.
fn same_text(same: bool) -> &'static str
    ensures { result.now ≡ same_text same }
{
    if same { "same" } else { "other" }
}

/// Appends the number of the first clause that was broken.
fn push_clause(line: &mut Line, clause: Option<u8>) -> Result<(), NoMemory>
    ensures { OnOk result (line.new ≡ line.old ++ clause_text clause) }
{
    match clause {
        Some(clause) => line.number(u64::from(clause)),
        None => line.push("-"),
    }
}

/// Appends the number of the guard's traps, if the campaign is guarded.
pub fn push_traps(line: &mut Line, traps: Option<u64>) -> Result<(), NoMemory>
    ensures { OnOk result (line.new ≡ line.old ++ traps_text traps) }
{
    match traps {
        Some(traps) => push_number(line, " traps ", traps),
        None => Ok(()),
    }
}

/// Appends why the struck part failed first, if the campaign asks for it.
fn push_cause_words(line: &mut Line, detail: Option<Detail>) -> Result<(), NoMemory>
    ensures { OnOk result (line.new ≡ line.old ++ cause_words detail) }
{
    let Some(detail) = detail else {
        return Ok(());
    };
    line.push(" cause ")?;
    push_first_cause(line, detail.cause)
}

/// Appends why a part failed first.
fn push_first_cause(line: &mut Line, cause: Option<FailCause>) -> Result<(), NoMemory>
    ensures { OnOk result (line.new ≡ line.old ++ first_cause_text cause) }
{
    match cause {
        Some(cause) => push_cause(line, cause),
        None => line.push("-"),
    }
}
