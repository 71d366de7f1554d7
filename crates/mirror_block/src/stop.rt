//! Why a mirror stops.

/// Why a mirror has no answer. After either of the first two it answers nothing more.
#[derive(Clone, Copy)]
pub enum MirrorStop {
    /// Memory ran out: at the desk of this side, 0 or 1, or, without a side, for the mirror's own copy of the words.
    NoMemory { side: Option<u8> },
    /// The part of this side, 0 or 1, has all the calls that a part may have, which are 100,000.
    TooManyCalls { side: u8 },
    /// An earlier operation ended with one of the above.
    Stopped,
}
