//! The clauses of the contract of a class.

ghost use Rattle.std.specs.Prelude.{◌≡◌};
ghost use Rattle.nook_data.specs.Clauses.{clause_number};

/// A clause of the contract of a class, named by what breaks it.
#[derive(Clone, Copy)]
pub enum Clause {
    /// A block is stored that no Write that is Inside covers.
    UnaskedStore,
    /// A block that a Write that is Inside covers is stored with words other than that Write's.
    OtherStore,
    /// A Write is accepted, but a block that it covers does not hold its words.
    UnstoredWrite,
    /// A Read is accepted with words other than the medium's.
    OtherRead,
    /// A frame is sent outside a burst of a Send, or a frame other than that Send's.
    UnaskedFrame,
    /// A second frame is sent in one Send.
    SecondFrame,
    /// A Send is accepted, but no frame was sent in it.
    UnsentSend,
    /// After a frame is handed up, the frames handed up since the last Load are not the first of those
    /// popped since then.
    OutOfOrder,
    /// A Recv is accepted while the ring is not empty, although no frame was handed up in a burst of
    /// that attempt.
    LeftInRing,
    /// A sample is played that is not the next one of the Play that is Inside, or although no Play is
    /// Inside.
    OtherSample,
    /// A Play is accepted although it was not played to its end.
    UnplayedPlay,
    /// A register is changed to a value that no Set or ReplaySet that is Inside gives it.
    UnaskedRegister,
    /// A Set or a ReplaySet is accepted, but the register does not hold its value.
    UnmadeSet,
    /// A Get is accepted with a value other than the register's.
    OtherGet,
    /// A Read or a Write is accepted with a failure of a block, although no command on it failed in that
    /// attempt.
    UnseenFailure,
}

impl Clause {
    /// The number that is printed for the clause, 1 to 15.
    pub fn number(self) -> u8
        ensures { result ≡ clause_number self }
    {
        match self {
            Clause::UnaskedStore => 1,
            Clause::OtherStore => 2,
            Clause::UnstoredWrite => 3,
            Clause::OtherRead => 4,
            Clause::UnaskedFrame => 5,
            Clause::SecondFrame => 6,
            Clause::UnsentSend => 7,
            Clause::OutOfOrder => 8,
            Clause::LeftInRing => 9,
            Clause::OtherSample => 10,
            Clause::UnplayedPlay => 11,
            Clause::UnaskedRegister => 12,
            Clause::UnmadeSet => 13,
            Clause::OtherGet => 14,
            Clause::UnseenFailure => 15,
        }
    }
}
