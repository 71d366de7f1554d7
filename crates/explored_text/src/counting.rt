//! How many rows have each status.

ghost use Rattle.explore_defs.specs.Explored.{rows_of_status};
ghost use Rattle.order_search.specs.Found.{found_status, numbers_in_row};
ghost use Rattle.run_results.specs.Statuses.{status_number};
ghost use Rattle.std.specs.Prelude.{◌≡◌, map};

use order_search::{Explored, OutcomeRow};
use run_results::ReportStatus;

/// The number of rows with a status.
pub fn count_of(status: ReportStatus, rows: &[OutcomeRow]) -> u64
    ensures { result ≡ rows_of_status (status_number status) (map numbers_in_row rows.now) }
{
    let number = status.number();
    let mut count = 0;
    for row in rows {
        if row.numbers.status == number {
            count += 1;
        }
    }
    count
}

/// The status of the result: 7 if some order breaks a contract, else 9 if not every order was followed, else 1 if
/// some order ends with a part that was given up, else 0.
pub fn status_of(found: &Explored) -> u8
    ensures { result ≡ found_status found.now }
{
    let rows = found.rows.as_slice();
    if count_of(ReportStatus::Broken, rows) > 0 {
        7
    } else if found.is_cut {
        9
    } else if count_of(ReportStatus::GivenUp, rows) > 0 {
        1
    } else {
        0
    }
}
