//! Small laws of the class tables.

ghost use Rattle.std.specs.Prelude.{◌≡◌, ◌<◌, ◌+◌, ℕ, true, Some, length, slice_get};
ghost use Rattle.nook_data.specs.Classes.{conflicts, is_of_class, entry_count, entry_address, accept, blocks_of_op};
ghost use Rattle.nook_data.specs.Classes.{first_of_op};
ghost use Rattle.nook_data.specs.declared.classes.Accept.TheVariants.{IoError};
ghost use Rattle.worked_rows.specs.EntryNames.{entry_name, entry_names};

use nook_data::calls::Op;
use nook_data::classes::Class;

/// Two operations conflict in both orders or in none.
#[tactic(auto, using(crate::proofs::ClassLaws::conflicts_symmetric))]
pub fn conflicts_are_symmetric(class: Class, first: &Op, second: &Op)
    ensures { conflicts class first.now second.now ≡ conflicts class second.now first.now }
{}

/// The name at the index of an operation's entry is that entry's name.
#[tactic(auto, using(crate::proofs::ClassLaws::entry_named))]
pub fn entries_have_their_addresses(class: Class, op: &Op)
    requires { is_of_class class op.now ≡ true }
    ensures { slice_get (entry_names class) (entry_address class op.now) ≡ Some (entry_name op.now) }
{}

/// There are as many entries as names.
#[tactic(auto, using(crate::proofs::ClassLaws::entries_counted))]
pub fn entries_are_counted(class: Class)
    ensures { entry_count class ≡ length (entry_names class) }
{}

/// The status 256 + `index` reports that the block with this index in a read or write failed.
#[tactic(auto, using(crate::proofs::ClassLaws::io_status_accepted))]
pub fn block_statuses_are_accepted(op: &Op, index: u32)
    requires { index < blocks_of_op op.now }
    ensures { accept op.now (256 + index) ≡ IoError (first_of_op op.now + index) }
{}
