//! Writes the result of a search into a sink.

ghost use Rattle.explore_defs.specs.Explored.{explored_line, outcome_line};
ghost use Rattle.order_search.specs.Found.{found_text, numbers_in_row, row_lines};
ghost use Rattle.nook_io.specs.Changes.{change};
ghost use Rattle.report_text.specs.Writing.{Wrote};
ghost use Rattle.std.specs.Prelude.{map};

use crate::lines::{push_last, push_row};
use nook_io::outside::Sink;
use order_search::{Explored, OutcomeRow};
use report_text::{Line, WriteStop, write_text};
use std::alloc::Global;

/// Writes a row for each outcome, and the line that counts them. Each line is written separately, so only one line
/// is in memory.
pub fn write_explored<K: Sink>(
    alloc: Global,
    sink: &mut K,
    found: &Explored,
) -> Result<(), WriteStop>
    ensures { Wrote (change K.held K.count sink.old sink.new) result (found_text found.now) }
{
    write_rows(alloc, sink, found.rows.as_slice())?;
    write_last(alloc, sink, found)
}

/// Writes the lines of rows; the first row has number 1.
fn write_rows<K: Sink>(alloc: Global, sink: &mut K, rows: &[OutcomeRow]) -> Result<(), WriteStop>
    ensures { Wrote (change K.held K.count sink.old sink.new) result (row_lines 1 rows.now) }
{
    let mut line = Line::new(alloc);
    let mut number = 1;
    for row in rows {
        write_row(sink, &mut line, number, row)?;
        number += 1;
    }
    Ok(())
}

/// Writes the line of a row, reusing another line's memory.
fn write_row<K: Sink>(
    sink: &mut K,
    line: &mut Line,
    number: u64,
    row: &OutcomeRow,
) -> Result<(), WriteStop>
    ensures { Wrote (change K.held K.count sink.old sink.new) result
        (outcome_line number row.now.numbers row.now.picks) }
{
    line.clear();
    push_row(line, number, &row.numbers, row.picks.as_slice())?;
    write_text(sink, line)
}

/// Writes the last line.
fn write_last<K: Sink>(alloc: Global, sink: &mut K, found: &Explored) -> Result<(), WriteStop>
    ensures { Wrote (change K.held K.count sink.old sink.new) result
        (explored_line found.now.is_cut found.now.states (map numbers_in_row found.now.rows)) }
{
    let mut line = Line::new(alloc);
    push_last(&mut line, found)?;
    write_text(sink, &line)
}
