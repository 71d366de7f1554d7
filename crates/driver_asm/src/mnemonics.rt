//! The names of instructions.

ghost use Rattle.std.specs.Prelude.{◌≡◌};
ghost use Rattle.machine_defs.specs.Mnemonics.{mnemonic_named, mnemonic_text, form_of};
ghost use Rattle.nook_data.specs.Names.{of_text};

use driver_isa::instructions::{MNEMONICS, row_of};
use nook_data::machine::{Form, Mnemonic};

/// The mnemonic that a name denotes.
#[tactic(auto, unfolding(machine_defs::specs::Mnemonics::mnemonic_named))]
pub fn mnemonic_named(name: &[u8]) -> Option<Mnemonic>
    ensures { result ≡ mnemonic_named name.now }
{
    mnemonic_among(&MNEMONICS, name)
}

/// The first of some mnemonics with this text.
fn mnemonic_among(mnemonics: &[Mnemonic], name: &[u8]) -> Option<Mnemonic>
    ensures { result ≡ of_text mnemonic_text mnemonics.now name.now }
{
    for index in 0..mnemonics.len() {
        if name == mnemonic_text(mnemonics[index]).as_bytes() {
            return Some(mnemonics[index]);
        }
    }
    None
}

/// The text of a mnemonic.
pub fn mnemonic_text(mnemonic: Mnemonic) -> &'static str
    ensures { result.now ≡ mnemonic_text mnemonic }
{
    row_of(mnemonic).name
}

/// Which operands follow a mnemonic.
pub fn form_of(mnemonic: Mnemonic) -> Form
    ensures { result ≡ form_of mnemonic }
{
    row_of(mnemonic).form
}
