//! Rows that are known without a run: a member's row may be that of the base or of an earlier member.

ghost use Rattle.std.specs.Prelude.{◌≡◌, ◌-◌, ◌<◌, [], IfSome, get_or, length, take, true};
ghost use Rattle.campaign_rows.specs.declared.shown.Shown.{Shown};
ghost use Rattle.fault_campaign.specs.Known.{IsBefore, IsEarlier, IsRight, IsRowBefore, only_fault, source_by};
ghost use Rattle.fault_campaign.specs.NumberedRows.{AreRowsFor, IsRowFor};
ghost use Rattle.guard_defs.specs.Every.{put_at};
ghost use Rattle.plan_defs.specs.declared.plan.Plan.{Plan};

use campaign_defs::row::Row;
use nook_data::machine::Instr;
use nook_data::same::Same;
use nook_data::scenario::{Fault, Faults};
use register_points::{Source, source_of};

/// What is known of the members of a burst before they are run.
#[derive(Clone, Copy)]
pub struct Known<'a> {
    pub burst: u32,
    /// The instructions of the burst in the base's run, except the last one; empty if they are not known.
    pub instrs: &'a [Option<Instr>],
    /// The number of members with the same position.
    pub kinds: usize,
    /// The row of the base's run.
    pub base: &'a Row,
}

/// Nothing is known: each member is run.
pub fn nothing_known<'a>(base: &'a Row) -> Known<'a>
    ensures { (plan : Plan) (shown : Shown) → IsRight plan shown result }
{
    Known {
        burst: 0,
        instrs: &[],
        kinds: 0,
        base,
    }
}

/// Whether a member has to be run, since its row is not known from the base or from an earlier member. No row depends
/// on it: a member that is wrongly left out is run when the rows are put together.
pub fn needs_run(known: &Known<'_>, members: &[Faults], index: usize) -> bool
    requires { index < length members.now }
{
    match source_in(known, members[index].as_slice()) {
        Source::Base => false,
        Source::Before => one_before(known.kinds, members, index).is_none(),
        Source::Run => true,
    }
}

/// The row of a member, if it is known from the base or from an earlier member. `rows` are those of the members before
/// it.
pub fn known_row(known: &Known<'_>, members: &[Faults], rows: &[Row], index: usize) -> Option<Row>
    requires { index < length members.now }
    ensures { (plan : Plan) (shown : Shown) → IsRight plan shown known.now
        → AreRowsFor plan shown (take index members.now) rows.now
        → IfSome result (IsRowFor plan shown (get_or members.now index [])) }
{
    match source_in(known, members[index].as_slice()) {
        Source::Base => Some(*known.base),
        Source::Before => row_before(known.kinds, members, rows, index),
        Source::Run => None,
    }
}

/// Where the row of the member with these faults comes from.
fn source_in(known: &Known<'_>, faults: &[Fault]) -> Source
    ensures { result ≡ source_by known.now.burst known.now.instrs.now faults.now }
{
    match only_fault(faults) {
        Some(fault) if fault.burst == known.burst => {
            source_of(known.instrs, fault.kind, fault.after as usize)
        }
        _ => Source::Run,
    }
}

/// The fault of a member that has only one.
fn only_fault(faults: &[Fault]) -> Option<Fault>
    ensures { result ≡ only_fault faults.now }
{
    if faults.len() == 1 {
        Some(faults[0])
    } else {
        None
    }
}

/// The row of the member with the same kind of fault before the instruction before. `rows` are those of the first
/// members.
fn row_before(kinds: usize, members: &[Faults], rows: &[Row], index: usize) -> Option<Row>
    requires { index < length members.now }
    ensures { (plan : Plan) (shown : Shown)
        → AreRowsFor plan shown (take index members.now) rows.now
        → IfSome result (IsRowBefore plan shown (get_or members.now index [])) }
{
    let earlier = one_before(kinds, members, index)?;
    rows.get(earlier).copied()
}

/// The index of the member with the same kind of fault before the instruction before, if it is among the members.
fn one_before(kinds: usize, members: &[Faults], index: usize) -> Option<usize>
    requires { index < length members.now }
    ensures { IfSome result (IsEarlier members.now index) }
{
    if kinds == 0 || kinds > index {
        return None;
    }
    let earlier = index - kinds;
    if is_before(members[earlier].as_slice(), members[index].as_slice()) {
        Some(earlier)
    } else {
        None
    }
}

/// Whether both are the same single fault, the first of them before the instruction before that of the second.
fn is_before(earlier: &[Fault], later: &[Fault]) -> bool
    ensures { result ≡ true → IsBefore earlier.now later.now }
{
    match (only_fault(earlier), only_fault(later)) {
        (Some(one), Some(other)) => other.after > 0 && one.is_same(&fault_before(&other)),
        _ => false,
    }
}

/// The same fault before the instruction before.
fn fault_before(fault: &Fault) -> Fault
    requires { 0 < fault.now.after }
    ensures { result ≡ put_at fault.now.burst (fault.now.after - 1) fault.now.kind }
{
    Fault {
        after: fault.after - 1,
        ..*fault
    }
}
