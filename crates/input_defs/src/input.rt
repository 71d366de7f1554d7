//! Why an input is refused, and where.

use asm_defs::assembler::AsmFault;
use asm_defs::keys::Key;
use nook_data::lists::Items;

/// Why an input is refused. The numbers that the program prints count from 1, in this order.
#[derive(Clone, Copy)]
pub enum InputFault {
    /// The bytes are not a JSON text.
    NotJson,
    /// An object has a key that objects of its kind do not have.
    UnknownKey,
    /// A required key is absent.
    MissingKey,
    /// A value is of the wrong kind: no object, no list, no text, no non-negative whole number, or no such name.
    WrongKind,
    /// A number is out of its range, or a list has no items.
    NumberRange,
    /// A list, or the whole input, is too long.
    TooMany,
    /// A word of an image does not have eight hexadecimal digits, or an image is not of its part's class.
    BadImage,
    /// An assembler text has an error.
    BadAsm(AsmFault),
    /// A text names no class.
    BadClass,
    /// An earlier part or thread has this name.
    DoubleName,
}

/// A step from an object or a list to something inside it. Indexes count from 0.
#[derive(Clone, Copy)]
pub enum PathStep {
    At(Key),
    Position(u32),
}

/// The path from the whole input to a value in it.
pub type Path = Items<PathStep>;

/// The first input error, and its path.
#[derive(Drop)]
pub struct Refusal {
    pub fault: InputFault,
    pub path: Path,
}
