//! Instructions as words: the op in bits 31 to 24, field a in 23 to 20, field b in 19 to 16, the immediate below.

ghost use Rattle.std.specs.Prelude.{◌≡◌, ◌<◌, Some, true, IfSome};
ghost use Rattle.driver_isa.specs.Decoding.{instr_of};
ghost use Rattle.driver_isa.specs.Entries.{entry_of};
ghost use Rattle.driver_isa.specs.Fields.{has_registers};
ghost use Rattle.machine_defs.specs.Machine.{a_field, b_field, decode_of, encode_of, has_no_other, imm_field, op_field};
ghost use Rattle.machine_defs.specs.Machine.{word_of};

use crate::instructions::{
    Decoded, Op, decoded_with, entry_from, fields_of, instr_of, mnemonic_numbered, op_of, row_of,
};
use nook_data::lists::Word;
use nook_data::machine::{Form, Instr};

/// Decodes a word: `None` exactly if no row of the instruction table fits, or a field that the row does not
/// name is not zero.
#[tactic(auto, using(crate::proofs::Decoding::decoded_registers, machine_defs::proofs::Words::encodes_back))]
pub fn decode(word: Word) -> Option<Instr>
    ensures row { result ≡ decode_of word }
    ensures registers { IfSome result (λ instr. has_registers instr ≡ true) }
    ensures encodes { IfSome result (λ instr. encode_of instr ≡ word) }
{
    instr_of(&decoded_of(word))
}

/// Decodes a word to a form that a burst reads fast.
#[tactic(auto, using(machine_defs::proofs::Words::decoded_row, machine_defs::proofs::Words::decoded_none))]
pub fn decoded_of(word: Word) -> Decoded
    ensures { instr_of result ≡ decode_of word }
{
    let (a, b, imm) = (a_of(word), b_of(word), imm_of(word));
    match mnemonic_numbered(number_of(word)) {
        Some(mnemonic) if has_no_other(row_of(mnemonic).form, a, b, imm) => {
            decoded_with(op_of(mnemonic), a, b, imm)
        }
        _ => decoded_with(Op::None, 0, 0, 0),
    }
}

/// Decodes a word of text for the burst loop.
pub fn entry_of(word: Word) -> Decoded
    ensures { instr_of result ≡ entry_of word }
{
    entry_from(decoded_of(word))
}

/// Returns whether the fields that a form does not have are 0.
fn has_no_other(form: Form, a: u8, b: u8, imm: u16) -> bool
    ensures { result ≡ has_no_other form a b imm }
{
    match form {
        Form::Bare => a == 0 && b == 0 && imm == 0,
        Form::A => b == 0 && imm == 0,
        Form::Imm => a == 0 && b == 0,
        Form::AB => imm == 0,
        Form::AImm => b == 0,
        Form::ABImm => true,
    }
}

/// The number of a word's row.
fn number_of(word: Word) -> u8
    ensures { result ≡ op_field word }
{
    ((word >> 24) % 0x100) as u8
}

/// Field a of a word.
fn a_of(word: Word) -> u8
    ensures { result ≡ a_field word }
{
    ((word >> 20) % 0x10) as u8
}

/// Field b of a word.
fn b_of(word: Word) -> u8
    ensures { result ≡ b_field word }
{
    ((word >> 16) % 0x10) as u8
}

/// The immediate of a word.
fn imm_of(word: Word) -> u16
    ensures { result ≡ imm_field word }
{
    (word % 0x1_0000) as u16
}

/// Encodes an instruction, whose register numbers are at most 15, as a word.
pub fn encode(instr: Instr) -> Word
    requires { has_registers instr ≡ true }
    ensures word { result ≡ encode_of instr }
    ensures decodes { decode_of result ≡ Some instr }
{
    let fields = fields_of(instr);
    pack(
        row_of(fields.mnemonic).number,
        fields.a,
        fields.b,
        fields.imm,
    )
}

/// A word made of its four fields.
fn pack(op: u8, a: u8, b: u8, imm: u16) -> Word
    requires first { a < 16 }
    requires second { b < 16 }
    ensures word { result ≡ word_of op a b imm }
    ensures imm { imm_field result ≡ imm }
{
    u32::from(op) * 0x100_0000 + u32::from(a) * 0x10_0000 + u32::from(b) * 0x1_0000 + u32::from(imm)
}
