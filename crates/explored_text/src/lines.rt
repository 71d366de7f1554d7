//! The lines: one for each outcome, and one that counts them. Each call appends text to a line. The caller drops
//! the line after `NoMemory`.

ghost use Rattle.explore_defs.specs.Explored.{explored_line, outcome_line, rows_of_status};
ghost use Rattle.explored_text.specs.Ends.{last_end, row_end};
ghost use Rattle.order_search.specs.Found.{numbers_in_row};
ghost use Rattle.report_defs.specs.ReportLines.{inner_words, with_list, with_number};
ghost use Rattle.report_defs.specs.Views.Reporting.{comma_words};
ghost use Rattle.run_results.specs.Statuses.{status_number};
ghost use Rattle.std.specs.Prelude.{◌≡◌, ◌++◌, OnOk, codes, if◌then◌else◌, map};

use crate::counting::count_of;
use nook_data::campaign::MemberRow;
use nook_data::memory::NoMemory;
use order_search::{Explored, OutcomeRow};
use report_text::{Line, push_number};
use run_results::ReportStatus;

/// Appends the line of an outcome: its number among the outcomes, the counts of its run, and the picks that lead to it.
pub fn push_row(
    line: &mut Line,
    position: u64,
    numbers: &MemberRow,
    picks: &[u32],
) -> Result<(), NoMemory>
    ensures { OnOk result (line.new ≡ line.old ++ outcome_line position numbers.now picks.now) }
{
    line.number(position)?;
    push_number(line, " status ", u64::from(numbers.status))?;
    push_number(line, " events ", numbers.events)?;
    push_row_end(line, numbers, picks)
}

/// Appends the rest of the line, from the failures on.
fn push_row_end(line: &mut Line, numbers: &MemberRow, picks: &[u32]) -> Result<(), NoMemory>
    ensures { OnOk result (line.new ≡ line.old ++ row_end numbers.now picks.now) }
{
    push_number(line, " failures ", numbers.failures)?;
    push_number(line, " gone ", numbers.gone)?;
    push_number(line, " lost ", numbers.lost)?;
    push_picks(line, picks)?;
    line.push("\n")
}

/// Appends picks in brackets.
fn push_picks(line: &mut Line, picks: &[u32]) -> Result<(), NoMemory>
    ensures { OnOk result (line.new ≡ line.old ++ with_list (codes " picks ") picks.now) }
{
    line.push(" picks ")?;
    line.push("[")?;
    push_words(line, picks)?;
    line.push("]")
}

/// Appends words with commas between them.
fn push_words(line: &mut Line, words: &[u32]) -> Result<(), NoMemory>
    ensures { OnOk result (line.new ≡ line.old ++ inner_words words.now) }
{
    match words {
        [] => Ok(()),
        [first, rest @ ..] => {
            line.number(u64::from(*first))?;
            push_more_words(line, rest)
        }
    }
}

/// Appends words, each after a comma.
fn push_more_words(line: &mut Line, words: &[u32]) -> Result<(), NoMemory>
    ensures { OnOk result (line.new ≡ line.old ++ comma_words words.now) }
{
    for word in words {
        push_number(line, ",", u64::from(*word))?;
    }
    Ok(())
}

/// Appends the line that counts the states, the outcomes, and those of each status.
pub fn push_last(line: &mut Line, found: &Explored) -> Result<(), NoMemory>
    ensures { OnOk result (line.new ≡ line.old
        ++ explored_line found.now.is_cut found.now.states (map numbers_in_row found.now.rows)) }
{
    push_number(line, headline(found.is_cut), u64::from(found.states))?;
    push_number(line, " states ", found.rows.len() as u64)?;
    push_last_end(line, found.rows.as_slice())
}

/// Appends the rest of the line, from the outcomes on.
fn push_last_end(line: &mut Line, rows: &[OutcomeRow]) -> Result<(), NoMemory>
    ensures { OnOk result (line.new ≡ line.old ++ last_end (map numbers_in_row rows.now)) }
{
    push_count(line, " outcomes kept ", ReportStatus::Kept, rows)?;
    push_count(line, " given_up ", ReportStatus::GivenUp, rows)?;
    push_count(line, " broken ", ReportStatus::Broken, rows)?;
    line.push("\n")
}

/// Appends a text and the number of rows with a status.
fn push_count(
    line: &mut Line,
    text: &str,
    status: ReportStatus,
    rows: &[OutcomeRow],
) -> Result<(), NoMemory>
    ensures { OnOk result (line.new ≡ line.old
        ++ with_number text.now
        (rows_of_status (status_number status) (map numbers_in_row rows.now))) }
{
    push_number(line, text, count_of(status, rows))
}

/// The beginning of the last line, which says whether every order was followed.
fn headline(is_cut: bool) -> &'static str
    ensures { result.now ≡ (if is_cut then codes "explored front " else codes "explored ") }
{
    if is_cut {
        "explored front "
    } else {
        "explored "
    }
}
