//! The driver machine's plain data: instructions, the processor, and how a burst ends.

use crate::lists::{Items, Word, Words};

/// What a driver did with its device.
#[derive(PartialEq, Eq, Drop)]
pub enum Act {
    Load { block: u32 },
    Store { block: u32, words: Words },
    /// A command on a bad block; `store` says which of the two commands.
    Failed { block: u32, store: bool },
    Sent { frame: Words },
    Popped { frame: Words },
    Played { sample: u32, rate: u32, volume: u32 },
    Register { key: u32, value: u32 },
}

/// Why the machine stopped a driver.
#[derive(Clone, Copy)]
pub enum TrapCause {
    BadOpcode,
    BadFetch,
    BadRead { address: u32 },
    ForeignWrite { address: u32 },
    BadPort { port: u32 },
    Hang,
    Explicit,
    Injected,
}

/// A list of device acts.
pub type Acts = Items<Act>;

/// One instruction of the driver machine. Fields `a` and `b` are register numbers (0 to 15), `imm` is the
/// unsigned immediate. R(a) is register a.
#[derive(Clone, Copy)]
pub enum Instr {
    /// R(a) = imm.
    Li { a: u8, imm: u16 },
    /// The upper 16 bits of R(a) = imm; the lower 16 stay.
    Lui { a: u8, imm: u16 },
    /// R(a) = R(b).
    Mov { a: u8, b: u8 },
    /// R(a) = R(a) + R(b), modulo 2^32.
    Add { a: u8, b: u8 },
    /// R(a) = R(a) - R(b), modulo 2^32.
    Sub { a: u8, b: u8 },
    /// R(a) = R(a) and R(b), bit by bit.
    And { a: u8, b: u8 },
    /// R(a) = R(a) or R(b), bit by bit.
    Or { a: u8, b: u8 },
    /// R(a) = R(a) exclusive or R(b), bit by bit.
    Xor { a: u8, b: u8 },
    /// R(a) is shifted left by R(b) modulo 32; zeros come in.
    Shl { a: u8, b: u8 },
    /// R(a) is shifted right by R(b) modulo 32; zeros come in.
    Shr { a: u8, b: u8 },
    /// R(a) = R(b) + imm, modulo 2^32.
    Addi { a: u8, b: u8, imm: u16 },
    /// R(a) = the word at R(b) + imm.
    Ld { a: u8, b: u8, imm: u16 },
    /// The word at R(b) + imm = R(a).
    St { a: u8, b: u8, imm: u16 },
    /// The counter becomes imm.
    Jmp { imm: u16 },
    /// The counter becomes imm if R(a) and R(b) are equal.
    Beq { a: u8, b: u8, imm: u16 },
    /// The counter becomes imm if R(a) and R(b) differ.
    Bne { a: u8, b: u8, imm: u16 },
    /// The counter becomes imm if R(a) is less than R(b), unsigned.
    Blt { a: u8, b: u8, imm: u16 },
    /// R(a) = counter + 1, and the counter becomes imm.
    Jal { a: u8, imm: u16 },
    /// The counter becomes R(a).
    Jr { a: u8 },
    /// R(a) = the word that the device returns at port imm.
    In { a: u8, imm: u16 },
    /// The device gets R(a) at port imm.
    Out { a: u8, imm: u16 },
    /// A crossing: a call of kernel service imm.
    Kcall { imm: u16 },
    /// A crossing: a reply with status R(a).
    Ret { a: u8 },
    /// An explicit trap by the driver.
    Fault,
}

/// The program counter and the 16 registers.
#[derive(Clone, Copy)]
pub struct Cpu {
    pub counter: Word,
    pub registers: [Word; 16],
}

/// How a burst ends.
#[derive(Clone, Copy)]
pub enum BurstEnd {
    /// The driver calls a kernel service.
    Kcall { service: u32 },
    /// The driver replies with a status.
    Reply { status: u32 },
    /// The driver did its 64th device act.
    Pause,
    /// The driver was stopped.
    Trap(TrapCause),
}

/// A context that is Inside: its processor, and the number of bursts of its attempt so far.
#[derive(Clone, Copy)]
pub struct Context {
    pub cpu: Cpu,
    pub bursts: u32,
}

/// A kernel service whose arguments passed their check.
#[derive(Clone, Copy)]
pub enum Service {
    /// Allocates `n` words of the heap, 1 to 2,048.
    Alloc { n: u32 },
    /// Frees the heap words that start at `address`.
    Free { address: u32 },
    /// Registers the driver.
    Register,
    /// Copies kernel object 1 to 12 to the heap.
    Borrow { object: u32 },
    /// Writes the copy back to the object.
    GiveBack { object: u32 },
    /// Hands up a received frame of `len` words (1 to 64) at `start`.
    NetRx { start: u32, len: u32 },
    /// Logs a word, which the event shows.
    Log,
    /// Does nothing.
    Yield,
}

/// A kernel call that failed its check: its first invalid argument, or 0 if the service itself is invalid.
#[derive(Clone, Copy)]
pub struct BadParam {
    pub service: u32,
    pub argument: u32,
}

/// The name of an instruction.
#[derive(Clone, Copy)]
pub enum Mnemonic {
    Li,
    Lui,
    Mov,
    Add,
    Sub,
    And,
    Or,
    Xor,
    Shl,
    Shr,
    Addi,
    Ld,
    St,
    Jmp,
    Beq,
    Bne,
    Blt,
    Jal,
    Jr,
    In,
    Out,
    Kcall,
    Ret,
    Fault,
}

/// Which operands an instruction has, in this order: registers a and b, the immediate.
#[derive(Clone, Copy)]
pub enum Form {
    Bare,
    A,
    Imm,
    AB,
    AImm,
    ABImm,
}
