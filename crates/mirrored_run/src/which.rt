//! Which scenarios a mirror serves.

ghost use Rattle.std.specs.Prelude.{◌≡◌};
ghost use Rattle.std.specs.List.{list_all};
ghost use Rattle.mirrored_run.specs.Mirrors.{is_mirror, is_mirrored_op, is_pair, is_single};

use nook_data::calls::Op;
use nook_data::classes::Class;
use nook_data::scenario::{PartSpec, Scenario, ThreadSpec};

/// Whether a mirror serves the scenario: it has two disks of one size, and at most one thread, which only reads and
/// writes the first part.
#[tactic(auto, unfolding(crate::specs::Mirrors::is_mirror))]
pub fn is_mirror(scenario: &Scenario) -> bool
    ensures { result ≡ is_mirror scenario.now }
{
    is_pair(scenario.parts.as_slice()) && is_single(scenario.threads.as_slice())
}

/// Whether parts are two disks with the same number of blocks.
fn is_pair(parts: &[PartSpec]) -> bool
    ensures { result ≡ is_pair parts.now }
{
    match parts {
        [left, right] => {
            left.class == Class::Block && right.class == Class::Block && left.blocks == right.blocks
        }
        _ => false,
    }
}

/// Whether there is no thread, or one that only reads and writes the first part.
fn is_single(threads: &[ThreadSpec]) -> bool
    ensures { result ≡ is_single threads.now }
{
    match threads {
        [] => true,
        [thread] => are_mirrored(thread.ops.as_slice()),
        _ => false,
    }
}

/// Whether all operations read or write the first part.
fn are_mirrored(ops: &[(u32, Op)]) -> bool
    ensures { result ≡ list_all is_mirrored_op ops.now }
{
    for (part, op) in ops {
        if !is_mirrored(*part, op) {
            return false;
        }
    }
    true
}

/// Whether an operation reads or writes the first part.
fn is_mirrored(part: u32, op: &Op) -> bool
    ensures { result ≡ is_mirrored_op (part, op.now) }
{
    part == 0 && matches!(op, Op::Read { .. } | Op::Write { .. })
}
