//! The rows of a campaign's table: the counts of a run, how it compares with the base's run, and the table's text.
#![tactic(auto)]

mod detail;
mod lines;
mod plan_rows;
mod shown;
mod totals;

pub use detail::detail_of;
pub use lines::{write_base_row, write_rows};
pub use plan_rows::plan_row;
pub use shown::{Shown, shown_of};
pub use totals::{CampaignCounts, write_counts};
