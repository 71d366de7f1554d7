//! What applications ask of a part, and the answers that they get.

ghost use Rattle.std.specs.Prelude.{◌≡◌};
ghost use Rattle.nook_data.specs.OpNames.{op_name, op_named, op_word};

use crate::lists::{Items, Words};
use crate::steps::Stage;

/// What an application asks of a part.
#[derive(PartialEq, Eq, Drop)]
pub enum Op {
    /// Reads `count` blocks (1 to 8), starting at block `first`.
    Read { first: u32, count: u32 },
    /// Writes the words of 1 to 8 blocks, 16 each, starting at block `first`.
    Write { first: u32, words: Words },
    /// Sends a frame of 1 to 64 words.
    Send { frame: Words },
    /// Takes the next received frame, if there is one.
    Recv,
    /// Opens the stream for the calling thread.
    Open,
    /// Plays 1 to 64 samples.
    Play { samples: Words },
    /// Closes the stream.
    Close,
    /// Reads a configuration word, key 0 to 3.
    Get { key: u32 },
    /// Sets a configuration word to a value.
    Set { key: u32, value: u32 },
}

/// The names of the operations.
#[derive(Clone, Copy)]
pub enum OpName {
    Read,
    Write,
    Send,
    Recv,
    Open,
    Play,
    Close,
    Get,
    Set,
}

/// The name of an operation.
pub fn op_name(op: &Op) -> OpName
    ensures { result ≡ op_name op.now }
{
    match op {
        Op::Read { .. } => OpName::Read,
        Op::Write { .. } => OpName::Write,
        Op::Send { .. } => OpName::Send,
        Op::Recv => OpName::Recv,
        Op::Open => OpName::Open,
        Op::Play { .. } => OpName::Play,
        Op::Close => OpName::Close,
        Op::Get { .. } => OpName::Get,
        Op::Set { .. } => OpName::Set,
    }
}

/// The word for an operation, in inputs and reports.
pub fn op_word(name: OpName) -> &'static str
    ensures { result.now ≡ op_word name }
{
    match name {
        OpName::Read => "read",
        OpName::Write => "write",
        OpName::Send => "send",
        OpName::Recv => "recv",
        OpName::Open => "open",
        OpName::Play => "play",
        OpName::Close => "close",
        OpName::Get => "get",
        OpName::Set => "set",
    }
}

/// The operation with a word.
#[tactic(auto, unfolding(crate::specs::OpNames::op_named))]
pub fn op_named(word: &str) -> Option<OpName>
    ensures { result ≡ op_named word.now }
{
    let names = [
        OpName::Read,
        OpName::Write,
        OpName::Send,
        OpName::Recv,
        OpName::Open,
        OpName::Play,
        OpName::Close,
        OpName::Get,
        OpName::Set,
    ];
    for index in 0..names.len() {
        if word == op_word(names[index]) {
            return Some(names[index]);
        }
    }
    None
}

/// The answer that an application gets.
#[derive(PartialEq, Eq, Drop)]
pub enum Answer {
    Done,
    Blocks(Words),
    Value(u32),
    Frame(Words),
    Empty,
    /// The part recovers and is at this stage.
    Busy { stage: Stage },
    /// This thread holds the stream.
    InUse { holder: u8 },
    NotOpen,
    BadRange,
    BadLength,
    BadKey,
    BadValue,
    BadClass,
    /// The medium failed at this block.
    IoError { block: u32 },
    /// The part was given up after this many failures.
    Gone { failures: u32 },
}

/// A call that is open: Held or Inside, with the number of its attempts.
#[derive(Drop)]
pub struct CallEntry {
    pub call: u32,
    pub thread: u8,
    pub op: Op,
    pub inside: bool,
    pub attempts: u32,
}

/// Numbers of calls, each with its answer.
pub type CallAnswers = Items<(u32, Answer)>;

/// A script: pairs of a part's index and an operation.
pub type PartOps = Items<(u32, Op)>;

/// A thread's answers: pairs of a part's index and an answer.
pub type PartAnswers = Items<(u32, Answer)>;

/// Each thread's answers.
pub type AnswerTable = Items<PartAnswers>;
