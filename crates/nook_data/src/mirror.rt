//! The answers of a mirror.

use crate::lists::{Items, Words};

/// An answer of a mirror of two disks.
#[derive(Drop)]
pub enum MirrorAnswer {
    Done,
    Blocks(Words),
    /// The medium failed at this block, on each side that was asked and is not lost.
    IoError { block: u32 },
    BadRange,
    BadLength,
    /// Both sides are lost.
    BothLost,
}

/// A mirror's answers, in the order of its operations.
pub type MirrorAnswers = Items<MirrorAnswer>;
