//! The smallest clause that is broken.

ghost use Rattle.std.specs.Prelude.{◌≡◌};
ghost use Rattle.contract_monitor.specs.Judging.{smaller, unless};

use nook_data::clause::Clause;

/// The clause, unless it is kept.
pub fn unless(kept: bool, clause: Clause) -> Option<Clause>
    ensures { result ≡ unless kept clause }
{
    if kept { None } else { Some(clause) }
}

/// The smaller of the broken clauses.
pub fn smaller(broken: Option<Clause>, other: Option<Clause>) -> Option<Clause>
    ensures { result ≡ smaller broken other }
{
    match (broken, other) {
        (Some(first), Some(second)) => {
            if second.number() < first.number() {
                other
            } else {
                broken
            }
        }
        (Some(_), None) => broken,
        (None, _) => other,
    }
}
