//! The elements of the assembler's language, and the errors of assembler texts.

use nook_data::classes::Class;
use nook_data::lists::Words8;
use nook_data::machine::Mnemonic;

/// An error of an assembler text. The numbers that the program prints count from 1, in this order.
#[derive(Clone, Copy, Debug)]
pub enum AsmKind {
    /// A run of bytes that is no token.
    BadToken,
    /// A name that is no mnemonic, class or entry where one is required.
    UnknownName,
    /// Operands of the wrong kind or number, or a statement that may not occur there.
    WrongOperands,
    /// An immediate above 65,535, a word above 4,294,967,295 or an entry above 2,047.
    NumberRange,
    /// A label, the class or an entry is given a second time.
    DoubleLabel,
    /// A label is used but never defined.
    MissingLabel,
    /// The 2,049th text word.
    TextTooLong,
    /// The 2,049th initial word.
    DataTooLong,
    /// The text ends without a class or one of its entries.
    MissingEntry,
}

/// The first error of an assembler text: its line, counted from 1, and the smallest kind that the line has.
#[derive(Clone, Copy)]
pub struct AsmFault {
    pub kind: AsmKind,
    pub line: u64,
}

/// What a token is.
#[derive(Clone, Copy)]
pub enum TokenKind {
    /// A letter or `_`, then letters, digits and `_`, at most 32 bytes.
    Name,
    /// A name and a colon.
    Definition,
    /// A dot and a name.
    Directive,
    /// Decimal digits, or `0x` and hexadecimal digits; 2^32 represents all numbers from 2^32 on.
    Number { value: u64 },
    /// Anything else.
    Bad,
}

/// An operand that is a number or a label.
#[derive(Clone, Copy)]
pub enum Value {
    /// The number, or the label's address.
    Known { number: u64 },
    /// The label is never defined.
    Missing,
}

/// The operands of an instruction. Operands that its form lacks are 0.
#[derive(Clone, Copy)]
pub struct Operands {
    pub a: u8,
    pub b: u8,
    pub imm: Value,
}

/// Where the words of the following lines go.
#[derive(Clone, Copy)]
pub enum Section {
    Text,
    Data,
}

/// A label's definition: its name, the address of the next word of its section, and its line.
#[derive(Drop)]
pub struct Label {
    pub name: Words8,
    pub address: u64,
    pub line: u64,
}

/// What a line says after its label.
#[derive(Clone, Copy)]
pub enum Statement {
    Nothing,
    Class(Class),
    /// The entry with this index in the class's order.
    Entry { index: u32, value: Value },
    Section(Section),
    Word(Value),
    Instr(Mnemonic, Operands),
}
