//! Room for what a crossing may copy.

ghost use Rattle.std.specs.Prelude.{◌≡◌, ◌≤◌, true, OnOk};

use nook_data::limits::{MOST_ANSWER_WORDS, MOST_FRAME_WORDS};
use nook_data::lists::Word;
use nook_data::memory::{NoMemory, Room};
use std::alloc::Global;
use std::marker::Model;

/// Room for what a crossing may copy: the words of an answer, those that a kernel call moves, and a frame. Each burst
/// of a part passes what it did not use to the next. Contracts see whether all of it is there.
pub struct Rooms {
    answer: Option<Room<Word>>,
    moved: Option<Room<Word>>,
    frame: Option<Room<Word>>,
}

impl Model for Rooms {
    ghost use Rattle.std.specs.Prelude.{◌≤◌, Bool, IfSome, is_some, ◌&&◌};
    ghost use Rattle.nook_data.specs.declared.limits.TheConstants.{MOST_ANSWER_WORDS, MOST_FRAME_WORDS};

    ghost Value = { Bool };

    ghost view = { λ s. is_some s.answer && is_some s.moved && is_some s.frame };

    ghost invariant = { λ s. IfSome s.answer (λ room. MOST_ANSWER_WORDS ≤ room)
        × IfSome s.moved (λ room. MOST_FRAME_WORDS ≤ room)
        × IfSome s.frame (λ room. MOST_FRAME_WORDS ≤ room) };
}

impl Drop for Rooms {
    /// Written by hand, so that it is proved once and not in each function that owns rooms.
    fn drop(self) {
        let Rooms {
            answer: _,
            moved: _,
            frame: _,
        } = self;
    }
}

impl Rooms {
    /// No room yet. It takes no memory.
    pub fn none() -> Rooms {
        Rooms {
            answer: None,
            moved: None,
            frame: None,
        }
    }

    /// Allocates what is missing: room for 128 words of an answer, and for 64 of each other.
    pub fn fill(&mut self, alloc: Global) -> Result<(), NoMemory>
        ensures { OnOk result (self.new ≡ true) }
    {
        if self.answer.is_none() {
            self.answer = Some(Room::new(alloc, MOST_ANSWER_WORDS)?);
        }
        if self.moved.is_none() {
            self.moved = Some(Room::new(alloc, MOST_FRAME_WORDS)?);
        }
        if self.frame.is_none() {
            self.frame = Some(Room::new(alloc, MOST_FRAME_WORDS)?);
        }
        Ok(())
    }

    /// Takes the room for an answer.
    pub fn use_answer(&mut self) -> Room<Word>
        requires { self.old ≡ true }
        ensures { MOST_ANSWER_WORDS ≤ result }
    {
        self.answer.take().unwrap()
    }

    /// Takes the room for what a kernel call moves and the one for a frame.
    pub fn use_for_service(&mut self) -> (Room<Word>, Room<Word>)
        requires { self.old ≡ true }
        ensures moved { MOST_FRAME_WORDS ≤ result.0 }
        ensures frame { MOST_FRAME_WORDS ≤ result.1 }
    {
        (self.moved.take().unwrap(), self.frame.take().unwrap())
    }
}
