//! The instruction table: the one file here that goes through all instructions, but for what they do (`turn`).

ghost use Rattle.std.specs.Prelude.{◌≡◌, ℕ, Some, false, true};
ghost use Rattle.driver_isa.specs.Decoding.{instr_of, op_instr};
ghost use Rattle.driver_isa.specs.Entries.{in_text};
ghost use Rattle.machine_defs.specs.Mnemonics.{fields, fields_of, instr_with, instruction_row, mnemonic_numbered};

use nook_data::machine::{Form, Instr, Mnemonic};
use nook_data::memory_map::TEXT_WORDS;
use std::marker::Model;

/// A row of the table: an instruction's name, number and form, and whether it reads and whether it sets register a.
#[derive(Clone, Copy)]
pub struct InstructionRow {
    pub name: &'static str,
    pub number: u8,
    pub form: Form,
    pub reads: bool,
    pub sets: bool,
}

/// All mnemonics, in the order of their numbers.
pub const MNEMONICS: [Mnemonic; 24] = [
    Mnemonic::Li,
    Mnemonic::Lui,
    Mnemonic::Mov,
    Mnemonic::Add,
    Mnemonic::Sub,
    Mnemonic::And,
    Mnemonic::Or,
    Mnemonic::Xor,
    Mnemonic::Shl,
    Mnemonic::Shr,
    Mnemonic::Addi,
    Mnemonic::Ld,
    Mnemonic::St,
    Mnemonic::Jmp,
    Mnemonic::Beq,
    Mnemonic::Bne,
    Mnemonic::Blt,
    Mnemonic::Jal,
    Mnemonic::Jr,
    Mnemonic::In,
    Mnemonic::Out,
    Mnemonic::Kcall,
    Mnemonic::Ret,
    Mnemonic::Fault,
];

/// The row of a mnemonic.
pub fn row_of(mnemonic: Mnemonic) -> InstructionRow
    ensures name { result.name.now ≡ (instruction_row mnemonic).name }
    ensures number { result.number ≡ (instruction_row mnemonic).number }
    ensures form { result.form ≡ (instruction_row mnemonic).form }
    ensures reads { result.reads ≡ (instruction_row mnemonic).reads }
    ensures sets { result.sets ≡ (instruction_row mnemonic).sets }
{
    match mnemonic {
        Mnemonic::Li => sets("LI", 0x01, Form::AImm),
        Mnemonic::Lui => changes("LUI", 0x02, Form::AImm),
        Mnemonic::Mov => sets("MOV", 0x03, Form::AB),
        Mnemonic::Add => changes("ADD", 0x04, Form::AB),
        Mnemonic::Sub => changes("SUB", 0x05, Form::AB),
        Mnemonic::And => changes("AND", 0x06, Form::AB),
        Mnemonic::Or => changes("OR", 0x07, Form::AB),
        Mnemonic::Xor => changes("XOR", 0x08, Form::AB),
        Mnemonic::Shl => changes("SHL", 0x09, Form::AB),
        Mnemonic::Shr => changes("SHR", 0x0a, Form::AB),
        Mnemonic::Addi => sets("ADDI", 0x0b, Form::ABImm),
        Mnemonic::Ld => sets("LD", 0x0c, Form::ABImm),
        Mnemonic::St => reads("ST", 0x0d, Form::ABImm),
        Mnemonic::Jmp => row("JMP", 0x0e, Form::Imm),
        Mnemonic::Beq => reads("BEQ", 0x0f, Form::ABImm),
        Mnemonic::Bne => reads("BNE", 0x10, Form::ABImm),
        Mnemonic::Blt => reads("BLT", 0x11, Form::ABImm),
        Mnemonic::Jal => sets("JAL", 0x12, Form::AImm),
        Mnemonic::Jr => reads("JR", 0x13, Form::A),
        Mnemonic::In => sets("IN", 0x14, Form::AImm),
        Mnemonic::Out => reads("OUT", 0x15, Form::AImm),
        Mnemonic::Kcall => row("KCALL", 0x16, Form::Imm),
        Mnemonic::Ret => reads("RET", 0x17, Form::A),
        Mnemonic::Fault => row("FAULT", 0x18, Form::Bare),
    }
}

/// The row of an instruction that sets register a without reading it.
fn sets(name: &'static str, number: u8, form: Form) -> InstructionRow
    ensures name { result.name.now ≡ name.now }
    ensures number { result.number ≡ number }
    ensures form { result.form ≡ form }
    ensures reads { result.reads ≡ false }
    ensures sets { result.sets ≡ true }
{
    InstructionRow {
        name,
        number,
        form,
        reads: false,
        sets: true,
    }
}

/// The row of an instruction that reads register a and then sets it.
fn changes(name: &'static str, number: u8, form: Form) -> InstructionRow
    ensures name { result.name.now ≡ name.now }
    ensures number { result.number ≡ number }
    ensures form { result.form ≡ form }
    ensures reads { result.reads ≡ true }
    ensures sets { result.sets ≡ true }
{
    InstructionRow {
        name,
        number,
        form,
        reads: true,
        sets: true,
    }
}

/// The row of an instruction that only reads register a.
fn reads(name: &'static str, number: u8, form: Form) -> InstructionRow
    ensures name { result.name.now ≡ name.now }
    ensures number { result.number ≡ number }
    ensures form { result.form ≡ form }
    ensures reads { result.reads ≡ true }
    ensures sets { result.sets ≡ false }
{
    InstructionRow {
        name,
        number,
        form,
        reads: true,
        sets: false,
    }
}

/// The row of an instruction without registers.
fn row(name: &'static str, number: u8, form: Form) -> InstructionRow
    ensures name { result.name.now ≡ name.now }
    ensures number { result.number ≡ number }
    ensures form { result.form ≡ form }
    ensures reads { result.reads ≡ false }
    ensures sets { result.sets ≡ false }
{
    InstructionRow {
        name,
        number,
        form,
        reads: false,
        sets: false,
    }
}

/// The mnemonic with this number: numbers are those of the table, from 1.
pub fn mnemonic_numbered(number: u8) -> Option<Mnemonic>
    ensures { result ≡ mnemonic_numbered number }
{
    if number == 0 || number as usize > MNEMONICS.len() {
        return None;
    }
    Some(MNEMONICS[number as usize - 1])
}

/// The instruction of a mnemonic and its operands; operands that its form lacks are ignored.
pub fn instr_with(mnemonic: Mnemonic, a: u8, b: u8, imm: u16) -> Instr
    ensures { result ≡ instr_with mnemonic a b imm }
{
    match mnemonic {
        Mnemonic::Li => Instr::Li { a, imm },
        Mnemonic::Lui => Instr::Lui { a, imm },
        Mnemonic::Mov => Instr::Mov { a, b },
        Mnemonic::Add => Instr::Add { a, b },
        Mnemonic::Sub => Instr::Sub { a, b },
        Mnemonic::And => Instr::And { a, b },
        Mnemonic::Or => Instr::Or { a, b },
        Mnemonic::Xor => Instr::Xor { a, b },
        Mnemonic::Shl => Instr::Shl { a, b },
        Mnemonic::Shr => Instr::Shr { a, b },
        Mnemonic::Addi => Instr::Addi { a, b, imm },
        Mnemonic::Ld => Instr::Ld { a, b, imm },
        Mnemonic::St => Instr::St { a, b, imm },
        Mnemonic::Jmp => Instr::Jmp { imm },
        Mnemonic::Beq => Instr::Beq { a, b, imm },
        Mnemonic::Bne => Instr::Bne { a, b, imm },
        Mnemonic::Blt => Instr::Blt { a, b, imm },
        Mnemonic::Jal => Instr::Jal { a, imm },
        Mnemonic::Jr => Instr::Jr { a },
        Mnemonic::In => Instr::In { a, imm },
        Mnemonic::Out => Instr::Out { a, imm },
        Mnemonic::Kcall => Instr::Kcall { imm },
        Mnemonic::Ret => Instr::Ret { a },
        Mnemonic::Fault => Instr::Fault,
    }
}

/// An instruction as a mnemonic and operands; those that its form lacks are 0.
#[derive(Drop)]
pub struct Fields {
    pub mnemonic: Mnemonic,
    pub a: u8,
    pub b: u8,
    pub imm: u16,
}

impl Model for Fields {
    ghost use Rattle.machine_defs.specs.Mnemonics as specs;

    ghost Value = { specs.Fields };

    ghost view = { λ s. record { mnemonic = s.mnemonic; a = s.a; b = s.b; imm = s.imm } };
}

/// A mnemonic with these operands.
fn fields_with(mnemonic: Mnemonic, a: u8, b: u8, imm: u16) -> Fields
    ensures { result ≡ fields mnemonic a b imm }
{
    Fields {
        mnemonic,
        a,
        b,
        imm,
    }
}

/// The mnemonic and operands of an instruction.
pub fn fields_of(instr: Instr) -> Fields
    ensures { result ≡ fields_of instr }
{
    match instr {
        Instr::Li { a, imm } => fields_with(Mnemonic::Li, a, 0, imm),
        Instr::Lui { a, imm } => fields_with(Mnemonic::Lui, a, 0, imm),
        Instr::Mov { a, b } => fields_with(Mnemonic::Mov, a, b, 0),
        Instr::Add { a, b } => fields_with(Mnemonic::Add, a, b, 0),
        Instr::Sub { a, b } => fields_with(Mnemonic::Sub, a, b, 0),
        Instr::And { a, b } => fields_with(Mnemonic::And, a, b, 0),
        Instr::Or { a, b } => fields_with(Mnemonic::Or, a, b, 0),
        Instr::Xor { a, b } => fields_with(Mnemonic::Xor, a, b, 0),
        Instr::Shl { a, b } => fields_with(Mnemonic::Shl, a, b, 0),
        Instr::Shr { a, b } => fields_with(Mnemonic::Shr, a, b, 0),
        Instr::Addi { a, b, imm } => fields_with(Mnemonic::Addi, a, b, imm),
        Instr::Ld { a, b, imm } => fields_with(Mnemonic::Ld, a, b, imm),
        Instr::St { a, b, imm } => fields_with(Mnemonic::St, a, b, imm),
        Instr::Jmp { imm } => fields_with(Mnemonic::Jmp, 0, 0, imm),
        Instr::Beq { a, b, imm } => fields_with(Mnemonic::Beq, a, b, imm),
        Instr::Bne { a, b, imm } => fields_with(Mnemonic::Bne, a, b, imm),
        Instr::Blt { a, b, imm } => fields_with(Mnemonic::Blt, a, b, imm),
        Instr::Jal { a, imm } => fields_with(Mnemonic::Jal, a, 0, imm),
        Instr::Jr { a } => fields_with(Mnemonic::Jr, a, 0, 0),
        Instr::In { a, imm } => fields_with(Mnemonic::In, a, 0, imm),
        Instr::Out { a, imm } => fields_with(Mnemonic::Out, a, 0, imm),
        Instr::Kcall { imm } => fields_with(Mnemonic::Kcall, 0, 0, imm),
        Instr::Ret { a } => fields_with(Mnemonic::Ret, a, 0, 0),
        Instr::Fault => fields_with(Mnemonic::Fault, 0, 0, 0),
    }
}

/// The op of a word, or that the word is no instruction.
#[derive(Clone, Copy)]
pub enum Op {
    None,
    Li,
    Lui,
    Mov,
    Add,
    Sub,
    And,
    Or,
    Xor,
    Shl,
    Shr,
    Addi,
    Ld,
    St,
    Jmp,
    Beq,
    Bne,
    Blt,
    Jal,
    Jr,
    In,
    Out,
    Kcall,
    Ret,
    Fault,
}

/// The op of a mnemonic.
pub fn op_of(mnemonic: Mnemonic) -> Op
    ensures { (a b imm : ℕ) → op_instr result a b imm ≡ Some (instr_with mnemonic a b imm) }
{
    match mnemonic {
        Mnemonic::Li => Op::Li,
        Mnemonic::Lui => Op::Lui,
        Mnemonic::Mov => Op::Mov,
        Mnemonic::Add => Op::Add,
        Mnemonic::Sub => Op::Sub,
        Mnemonic::And => Op::And,
        Mnemonic::Or => Op::Or,
        Mnemonic::Xor => Op::Xor,
        Mnemonic::Shl => Op::Shl,
        Mnemonic::Shr => Op::Shr,
        Mnemonic::Addi => Op::Addi,
        Mnemonic::Ld => Op::Ld,
        Mnemonic::St => Op::St,
        Mnemonic::Jmp => Op::Jmp,
        Mnemonic::Beq => Op::Beq,
        Mnemonic::Bne => Op::Bne,
        Mnemonic::Blt => Op::Blt,
        Mnemonic::Jal => Op::Jal,
        Mnemonic::Jr => Op::Jr,
        Mnemonic::In => Op::In,
        Mnemonic::Out => Op::Out,
        Mnemonic::Kcall => Op::Kcall,
        Mnemonic::Ret => Op::Ret,
        Mnemonic::Fault => Op::Fault,
    }
}

/// A word's op and fields.
// In an `Option<Instr>` the same bytes are other fields in other variants, so every field would be read for every
// instruction. Here each is read where it is used. It has eight bytes, so that its address in a list is one step.
#[derive(Clone, Copy)]
pub struct Decoded {
    pub(crate) op: Op,
    pub(crate) a: u8,
    pub(crate) b: u8,
    pub(crate) imm: u16,
    unused: u16,
}

/// An op with these fields.
pub fn decoded_with(op: Op, a: u8, b: u8, imm: u16) -> Decoded
    ensures { instr_of result ≡ op_instr op a b imm }
{
    Decoded {
        op,
        a,
        b,
        imm,
        unused: 0,
    }
}

/// The same word, copied field by field.
// Copied as a whole, it would be one number, from which each field is then computed.
pub(crate) fn same(decoded: &Decoded) -> Decoded
    ensures { result ≡ decoded.now }
{
    Decoded {
        op: decoded.op,
        a: decoded.a,
        b: decoded.b,
        imm: decoded.imm,
        unused: decoded.unused,
    }
}

/// The instruction, if it is one.
pub fn instr_of(decoded: &Decoded) -> Option<Instr>
    ensures { result ≡ instr_of decoded.now }
{
    match decoded.op {
        Op::None => None,
        Op::Li => Some(Instr::Li {
            a: decoded.a,
            imm: decoded.imm,
        }),
        Op::Lui => Some(Instr::Lui {
            a: decoded.a,
            imm: decoded.imm,
        }),
        Op::Mov => Some(Instr::Mov {
            a: decoded.a,
            b: decoded.b,
        }),
        Op::Add => Some(Instr::Add {
            a: decoded.a,
            b: decoded.b,
        }),
        Op::Sub => Some(Instr::Sub {
            a: decoded.a,
            b: decoded.b,
        }),
        Op::And => Some(Instr::And {
            a: decoded.a,
            b: decoded.b,
        }),
        Op::Or => Some(Instr::Or {
            a: decoded.a,
            b: decoded.b,
        }),
        Op::Xor => Some(Instr::Xor {
            a: decoded.a,
            b: decoded.b,
        }),
        Op::Shl => Some(Instr::Shl {
            a: decoded.a,
            b: decoded.b,
        }),
        Op::Shr => Some(Instr::Shr {
            a: decoded.a,
            b: decoded.b,
        }),
        Op::Addi => Some(Instr::Addi {
            a: decoded.a,
            b: decoded.b,
            imm: decoded.imm,
        }),
        Op::Ld => Some(Instr::Ld {
            a: decoded.a,
            b: decoded.b,
            imm: decoded.imm,
        }),
        Op::St => Some(Instr::St {
            a: decoded.a,
            b: decoded.b,
            imm: decoded.imm,
        }),
        Op::Jmp => Some(Instr::Jmp { imm: decoded.imm }),
        Op::Beq => Some(Instr::Beq {
            a: decoded.a,
            b: decoded.b,
            imm: decoded.imm,
        }),
        Op::Bne => Some(Instr::Bne {
            a: decoded.a,
            b: decoded.b,
            imm: decoded.imm,
        }),
        Op::Blt => Some(Instr::Blt {
            a: decoded.a,
            b: decoded.b,
            imm: decoded.imm,
        }),
        Op::Jal => Some(Instr::Jal {
            a: decoded.a,
            imm: decoded.imm,
        }),
        Op::Jr => Some(Instr::Jr { a: decoded.a }),
        Op::In => Some(Instr::In {
            a: decoded.a,
            imm: decoded.imm,
        }),
        Op::Out => Some(Instr::Out {
            a: decoded.a,
            imm: decoded.imm,
        }),
        Op::Kcall => Some(Instr::Kcall { imm: decoded.imm }),
        Op::Ret => Some(Instr::Ret { a: decoded.a }),
        Op::Fault => Some(Instr::Fault),
    }
}

/// A decoded word as an entry of the text: a jump to an address outside it is no instruction here.
// So a burst follows a jump without a test of its target.
pub fn entry_from(decoded: Decoded) -> Decoded
    ensures { instr_of result ≡ in_text (instr_of decoded) }
{
    let jumps = matches!(decoded.op, Op::Jmp | Op::Beq | Op::Bne | Op::Blt | Op::Jal);
    if jumps && u32::from(decoded.imm) >= TEXT_WORDS {
        return decoded_with(Op::None, 0, 0, 0);
    }
    decoded
}
