//! The index of an entry by its name.

ghost use Rattle.std.specs.Prelude.{◌≡◌, ◌^◌, ◌<◌, length};
ghost use Rattle.asm_defs.specs.AsmLines.{position_among};
ghost use Rattle.asm_defs.specs.Keys.{entry_keys};

use asm_defs::keys::{Key, entry_keys, key_text};
use nook_data::classes::Class;

/// The index of an entry's name among the entries of a class.
#[tactic(auto, using(crate::proofs::EntryLines::few_entries))]
pub fn entry_address(class: Class, name: &[u8]) -> Option<u32>
    ensures { result ≡ position_among 0 (entry_keys class) name.now }
{
    address_in(entry_keys(class), name)
}

/// The index of a name among some entries.
fn address_in(entries: &[Key], name: &[u8]) -> Option<u32>
    requires { length entries.now < 2 ^ 32 }
    ensures { result ≡ position_among 0 entries.now name.now }
{
    for index in 0..entries.len() {
        if name == key_text(entries[index]).as_bytes() {
            return Some(index as u32);
        }
    }
    None
}
