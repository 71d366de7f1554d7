//! Where a member's row comes from.

ghost use Rattle.std.specs.Prelude.{◌≡◌, ◌<◌, drop};
ghost use Rattle.register_points.specs.Sources.{is_kept_before, is_set_from, register_source, source_of};

use crate::uses::{Use, use_of};
use nook_data::limits::MOST_INSTRUCTIONS;
use nook_data::machine::Instr;
use nook_data::scenario::FaultKind;

/// Where a member's row comes from.
#[derive(Clone, Copy)]
pub enum Source {
    /// It is the base's row.
    Base,
    /// It is the row of the member with the same kind of fault before the instruction before.
    Before,
    /// The member has to be run.
    Run,
}

/// Where the row of the member with a kind of fault, after the first `after` instructions of a burst, comes from.
/// `instrs` are those of the burst, as far as they are known.
pub fn source_of(instrs: &[Option<Instr>], kind: FaultKind, after: usize) -> Source
    ensures { result ≡ source_of instrs.now kind after }
{
    match kind {
        FaultKind::Reg { register, .. } => register_source(instrs, register, after),
        _ => Source::Run,
    }
}

/// The same of a fault that sets a register.
fn register_source(instrs: &[Option<Instr>], register: u8, after: usize) -> Source
    ensures { result ≡ register_source instrs.now register after }
{
    if is_kept_before(instrs, register, after) {
        Source::Before
    } else if is_set_from(from(instrs, after), register) {
        Source::Base
    } else {
        Source::Run
    }
}

/// Whether the instruction before keeps a register, and the burst continues after it.
fn is_kept_before(instrs: &[Option<Instr>], register: u8, after: usize) -> bool
    ensures { result ≡ is_kept_before instrs.now register after }
{
    if after == 0 || after > instrs.len() || after >= MOST_INSTRUCTIONS as usize {
        return false;
    }
    use_of(instrs[after - 1], register) == Use::Keeps
}

/// The instructions from an index on.
fn from(instrs: &[Option<Instr>], index: usize) -> &[Option<Instr>]
    ensures { result.now ≡ drop index instrs.now }
{
    if index < instrs.len() {
        &instrs[index..]
    } else {
        &[]
    }
}

/// Whether the first of some instructions that uses a register sets it without reading it.
fn is_set_from(instrs: &[Option<Instr>], register: u8) -> bool
    ensures { result ≡ is_set_from instrs.now register }
{
    for instr in instrs {
        match use_of(*instr, register) {
            Use::Keeps => {}
            Use::Sets => return true,
            Use::Reads => return false,
        }
    }
    false
}
