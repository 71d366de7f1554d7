//! What an instruction does with a register.

ghost use Rattle.std.specs.Prelude.{◌≡◌};
ghost use Rattle.machine_defs.specs.Registers.{has_b, reads, sets};
ghost use Rattle.register_points.specs.Uses.{use_of};

use driver_isa::instructions::{fields_of, row_of};
use nook_data::machine::{Form, Instr};

/// What an instruction does with a register.
#[derive(Clone, Copy)]
pub enum Use {
    /// It neither reads nor sets it.
    Keeps,
    /// It sets it without reading it.
    Sets,
    /// It may read it.
    Reads,
}

/// What an instruction of a burst does with a register. A word that is no instruction counts as one that reads it.
pub fn use_of(instr: Option<Instr>, register: u8) -> Use
    ensures { result ≡ use_of instr register }
{
    match instr {
        None => Use::Reads,
        Some(instr) if reads(instr, register) => Use::Reads,
        Some(instr) if sets(instr, register) => Use::Sets,
        Some(_) => Use::Keeps,
    }
}

/// Whether what an instruction does may depend on a register.
fn reads(instr: Instr, register: u8) -> bool
    ensures { result ≡ reads instr register }
{
    let fields = fields_of(instr);
    let row = row_of(fields.mnemonic);
    row.reads && fields.a == register || has_b(row.form) && fields.b == register
}

/// Whether an instruction sets a register, unless it traps.
fn sets(instr: Instr, register: u8) -> bool
    ensures { result ≡ sets instr register }
{
    let fields = fields_of(instr);
    row_of(fields.mnemonic).sets && fields.a == register
}

/// Whether instructions of a form have an operand b.
fn has_b(form: Form) -> bool
    ensures { result ≡ has_b form }
{
    matches!(form, Form::AB | Form::ABImm)
}
