//! The steps of a part, and the events that they leave in its journal.

use crate::calls::{Answer, CallAnswers, Op};
use crate::entries::Released;
use crate::lists::Words;
use crate::machine::{Acts, TrapCause};

/// A stage of the boot or of a recovery.
#[derive(Clone, Copy, PartialEq, Eq)]
pub enum Stage {
    /// Every context ends, and open calls are answered or held.
    Stop,
    /// What the driver held is released.
    Collect,
    /// The device is reset.
    Reset,
    /// The image is loaded.
    Load,
    /// The driver's init entry runs.
    Init,
    /// A configuration word that differs from its default is set again.
    ReplaySet { key: u32, value: u32 },
    /// The stream is opened again for its holder.
    ReplayOpen,
    /// The driver serves calls again.
    Resume,
}

/// What a part is doing.
#[derive(Clone, Copy, PartialEq, Eq)]
pub enum Mode {
    /// From the start to the first Resume or failure.
    Boot { stage: Stage },
    /// The driver serves calls.
    Running,
    /// From a failure to the Resume.
    Recovering { stage: Stage },
    /// The part is given up; `collected` says whether its last Collect is done.
    Dead { collected: bool },
}

/// Why a driver failed.
#[derive(Clone, Copy)]
pub enum FailCause {
    Trap(TrapCause),
    /// A kernel call whose argument is invalid; 0 is the service itself.
    BadParam { service: u32, argument: u32 },
    /// The 32nd burst of an attempt did not end with a reply.
    TooManyCrossings,
    BadReply { status: u32 },
    BadInit { status: u32 },
}

/// The crossing at the end of a burst, as an event shows it.
#[derive(Drop)]
pub enum End {
    /// A kernel call; it has no result if it was not served. `moved` has the words that it moved.
    Service {
        service: u32,
        first: u32,
        second: u32,
        answer: Option<u32>,
        moved: Words,
    },
    Reply {
        status: u32,
    },
    Pause,
    Trap,
}

/// One atomic step of a part.
#[derive(Drop)]
pub enum Step {
    Invoke { thread: u8, op: Op },
    Enter { thread: u8 },
    Burst { context: u8 },
    Stage,
    Arrive { frame: Words },
}

/// What one step did. Calls and bursts are numbered from 1.
#[derive(Drop)]
pub enum Event {
    Invoke {
        call: u32,
        thread: u8,
        op: Op,
        answer: Option<Answer>,
    },
    Enter {
        call: u32,
        thread: u8,
        attempt: u32,
        answer: Option<Answer>,
    },
    /// `call` is 0 for the shadow's own calls; `count` is the number of instructions.
    Burst {
        context: u8,
        call: u32,
        burst: u32,
        count: u32,
        end: End,
        acts: Acts,
        answer: Option<Answer>,
        failure: Option<FailCause>,
    },
    Stage {
        stage: Stage,
        answers: CallAnswers,
        released: Released,
    },
    Arrive {
        frame: Words,
        kept: bool,
    },
}
