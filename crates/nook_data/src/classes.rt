//! What a class decides about a call at its Enter and at its driver's reply.

ghost use Rattle.std.specs.Prelude.{◌≡◌};
ghost use Rattle.nook_data.specs.ClassNames.{class_named, class_text};
ghost use Rattle.nook_data.specs.Classes.{class_code};

use crate::calls::Answer;
use crate::steps::FailCause;

/// The class of a driver and its device.
#[derive(Clone, Copy)]
pub enum Class {
    Block,
    Net,
    Sound,
}

/// The number by which a driver registers for its class.
pub fn class_code(class: Class) -> u32
    ensures { result ≡ class_code class }
{
    match class {
        Class::Block => 0,
        Class::Net => 1,
        Class::Sound => 2,
    }
}

/// What becomes of a held call at its Enter.
#[derive(Drop)]
pub enum Admit {
    /// It is answered at once.
    Reply(Answer),
    /// It is answered with the first frame of the kernel's receive queue.
    TakeFrame,
    /// It goes to its driver, at the entry with this index in the class's order.
    Enter { entry: u32 },
}

/// What becomes of a call when its driver replies.
#[derive(Clone, Copy)]
pub enum Accept {
    /// The reply is accepted, and the call is answered.
    Take,
    /// The reply is accepted, and reports that the medium failed at this block.
    IoError { block: u32 },
    /// The reply is a failure of the driver.
    Fail(FailCause),
}

/// What a class needs to know of a part's state: the thread that holds the stream, and the number of frames in the
/// kernel's receive queue.
#[derive(Clone, Copy)]
pub struct ClassState {
    pub holder: Option<u8>,
    pub queued: usize,
}

/// The name of a class.
pub fn class_text(class: Class) -> &'static str
    ensures { result.now ≡ class_text class }
{
    match class {
        Class::Block => "block",
        Class::Net => "net",
        Class::Sound => "sound",
    }
}

/// The class with a name.
#[tactic(auto, unfolding(crate::specs::ClassNames::class_named))]
pub fn class_named(name: &[u8]) -> Option<Class>
    ensures { result ≡ class_named name.now }
{
    if name == class_text(Class::Block).as_bytes() {
        Some(Class::Block)
    } else if name == class_text(Class::Net).as_bytes() {
        Some(Class::Net)
    } else if name == class_text(Class::Sound).as_bytes() {
        Some(Class::Sound)
    } else {
        None
    }
}
