//! The journal of a part, with room that is allocated before an event is made, and the log of a burst's acts.

ghost use Rattle.std.specs.Prelude.{◌≡◌, ◌<◌, ◌≤◌, [], ◌∷◌, ◌++◌, ◌+◌, All, length, slice_get, IfOk, OnErr, OnOk};

use crate::limits::{MOST_ACTS, MOST_FRAME_WORDS};
use crate::lists::{Items, Words, copy_all};
use crate::machine::{Act, Acts};
use crate::memory::{NoMemory, Room};
use crate::steps::Event;
use std::alloc::Global;
use std::marker::Model;
use std::mem;

/// The events of a part in order, and spare room for more. Contracts see the list and the spare.
pub struct Journal {
    events: Vec<Event>,
}

impl Model for Journal {
    ghost use Rattle.std.specs.Prelude.{◌-◌, vec_capacity, vec_len};
    ghost use Rattle.nook_data.specs.Views.Room.{Kept};
    ghost use Rattle.nook_data.specs.declared.steps.Event.{Event};

    ghost Value = { Kept Event };

    ghost view = { λ s. record {
      list = s.events.items;
      spare = vec_capacity s.events - vec_len s.events;
    } };
}

impl Drop for Journal {
    /// Written by hand, so that it is proved once and not in each function that owns a journal.
    fn drop(self) {
        let Journal { events: _ } = self;
    }
}

impl Journal {
    /// The empty journal. It allocates no memory.
    pub fn new(alloc: Global) -> Journal
        ensures { result.list ≡ [] }
    {
        Journal {
            events: Vec::new(alloc),
        }
    }

    /// Allocates room for at least one more event.
    pub fn reserve(&mut self) -> Result<(), NoMemory>
        ensures same { self.new.list ≡ self.old.list }
        ensures room { OnOk result (1 ≤ self.new.spare) }
    {
        self.events.reserve(1)?;
        Ok(())
    }

    /// Appends an event. It allocates no memory.
    pub fn push_reserved(&mut self, event: Event)
        requires { 1 ≤ self.old.spare }
        ensures { self.new.list ≡ self.old.list ++ event ∷ [] }
    {
        self.events.push(event).unwrap();
    }

    /// A separate journal with equal events.
    pub fn copied(&self, alloc: Global) -> Result<Journal, NoMemory>
        ensures { IfOk result (λ made. made.list ≡ self.now.list) }
    {
        Ok(Journal {
            events: copy_all(alloc, &self.events)?,
        })
    }

    /// The number of events.
    pub fn len(&self) -> usize
        ensures { result ≡ length self.now.list }
    {
        self.events.len()
    }

    /// The event at index `i`.
    pub fn get(&self, i: usize) -> &Event
        requires { i < length self.now.list }
        ensures { slice_get self.now.list i ≡ Some result.now }
    {
        &self.events[i]
    }

    /// All events, in order.
    pub fn as_slice(&self) -> &[Event]
        ensures { result.now ≡ self.now.list }
    {
        self.events.as_slice()
    }
}

/// The most words of one act: those of a frame.
const ACT_WORDS: usize = MOST_FRAME_WORDS;

/// The acts of a burst as they are made, with room for 64 that is allocated before the burst. Contracts see the list.
/// `SpareRooms` opens and closes it.
#[derive(Drop)]
pub struct ActLog {
    alloc: Global,
    acts: Vec<Act>,
    rooms: Vec<Room<u32>>,
}

impl Model for ActLog {
    ghost use Rattle.std.specs.Prelude.{◌≤◌, ◌+◌, List, All, length, vec_capacity};
    ghost use Rattle.nook_data.specs.declared.machine.Act.{Act};
    ghost use Rattle.nook_data.specs.declared.limits.TheConstants.{MOST_ACTS, MOST_FRAME_WORDS};

    ghost Value = { List Act };

    ghost view = { λ s. s.acts.items };

    ghost invariant = { λ s. (MOST_ACTS ≤ vec_capacity s.acts)
        × (MOST_ACTS ≤ length s.acts.items + length s.rooms.items)
        × All (λ room. MOST_FRAME_WORDS ≤ room) s.rooms.items };
}

impl ActLog {
    /// The number of acts.
    pub fn len(&self) -> usize
        ensures { result ≡ length self.now }
    {
        self.acts.len()
    }

    /// Records that a block was loaded from the medium.
    pub fn load(&mut self, block: u32)
        requires { length self.old < MOST_ACTS }
        ensures { self.new ≡ self.old ++ Act.Load block ∷ [] }
    {
        self.acts.push(Act::Load { block }).unwrap();
    }

    /// Records that a block was stored on the medium.
    pub fn store(&mut self, block: u32, words: &[u32; 16])
        requires { length self.old < MOST_ACTS }
        ensures { self.new ≡ self.old ++ Act.Store block words.now ∷ [] }
    {
        let words = kept(self.alloc, &mut self.rooms, words);
        self.acts.push(Act::Store { block, words }).unwrap();
    }

    /// Records that a command met a bad block; `store` says which command.
    pub fn failed(&mut self, block: u32, store: bool)
        requires { length self.old < MOST_ACTS }
        ensures { self.new ≡ self.old ++ Act.Failed block store ∷ [] }
    {
        self.acts.push(Act::Failed { block, store }).unwrap();
    }

    /// Records that a frame of at most 64 words was sent.
    pub fn sent(&mut self, frame: &[u32])
        requires room { length self.old < MOST_ACTS }
        requires words { length frame.now ≤ ACT_WORDS }
        ensures { self.new ≡ self.old ++ Act.Sent frame.now ∷ [] }
    {
        let frame = kept(self.alloc, &mut self.rooms, frame);
        self.acts.push(Act::Sent { frame }).unwrap();
    }

    /// Records that a frame left the ring.
    pub fn popped(&mut self, frame: Words)
        requires { length self.old < MOST_ACTS }
        ensures { self.new ≡ self.old ++ Act.Popped frame ∷ [] }
    {
        self.acts.push(Act::Popped { frame }).unwrap();
    }

    /// Records that a sample was played at a rate and a volume.
    pub fn played(&mut self, sample: u32, rate: u32, volume: u32)
        requires { length self.old < MOST_ACTS }
        ensures { self.new ≡ self.old ++ Act.Played sample rate volume ∷ [] }
    {
        self.acts
            .push(Act::Played {
                sample,
                rate,
                volume,
            })
            .unwrap();
    }

    /// Records that a configuration register was set to a value.
    pub fn register(&mut self, key: u32, value: u32)
        requires { length self.old < MOST_ACTS }
        ensures { self.new ≡ self.old ++ Act.Register key value ∷ [] }
    {
        self.acts.push(Act::Register { key, value }).unwrap();
    }
}

/// Memory for acts and rooms for their words. The bursts of a part share it: a burst allocates again what the previous
/// one used up. Contracts see the number of rooms.
pub struct SpareRooms {
    alloc: Global,
    /// An empty list: the memory for the acts of the next burst.
    acts: Vec<Act>,
    rooms: Vec<Room<u32>>,
}

impl Model for SpareRooms {
    ghost use Rattle.std.specs.Prelude.{◌≡◌, ◌≤◌, ℕ, [], All, length};
    ghost use Rattle.nook_data.specs.declared.limits.TheConstants.{MOST_FRAME_WORDS};

    ghost Value = { ℕ };

    ghost view = { λ s. length s.rooms.items };

    ghost invariant = { λ s. (s.acts.items ≡ [])
        × All (λ room. MOST_FRAME_WORDS ≤ room) s.rooms.items };
}

impl Drop for SpareRooms {
    /// Written by hand, so that it is proved once and not in each function that owns spare rooms.
    fn drop(self) {
        let SpareRooms {
            alloc: _,
            acts: _,
            rooms: _,
        } = self;
    }
}

impl SpareRooms {
    /// No rooms yet. It allocates no memory.
    pub fn new(alloc: Global) -> SpareRooms
        ensures { result ≡ 0 }
    {
        SpareRooms {
            alloc,
            acts: Vec::new(alloc),
            rooms: Vec::new(alloc),
        }
    }

    /// The empty log of a burst, with room for 64 acts and 64 words of each. It takes over the memory of `self`, and
    /// what is missing. After `NoMemory` no room is lost: there are as many as before, or more.
    pub fn open_log(&mut self) -> Result<ActLog, NoMemory>
        ensures log { IfOk result (λ log. log ≡ []) }
        ensures used { OnOk result (self.new ≡ 0) }
        ensures left { OnErr result (self.old ≤ self.new) }
    {
        fill_rooms(self.alloc, &mut self.rooms)?;
        self.acts.reserve(MOST_ACTS)?;
        let alloc = self.alloc;
        let acts = mem::replace(&mut self.acts, Vec::new(alloc));
        let rooms = mem::replace(&mut self.rooms, Vec::new(alloc));
        Ok(ActLog { alloc, acts, rooms })
    }

    /// The acts of a log, in a list of their size if there is memory for it. The log's remaining rooms replace
    /// those of `self`; an act uses at most one.
    pub fn close_log(&mut self, log: ActLog) -> Acts
        ensures acts { result ≡ log }
        ensures kept { MOST_ACTS ≤ length log + self.new }
    {
        let ActLog {
            mut acts,
            rooms,
            ..
        } = log;
        self.rooms = rooms;
        // Keep the long list for the next burst, if its acts can move.
        let Ok(mut own) = Vec::with_capacity(self.alloc, acts.len()) else {
            return Items::from_vec(acts);
        };
        if own.append(&mut acts).is_err() {
            return Items::from_vec(acts);
        }
        self.acts = acts;
        Items::from_vec(own)
    }
}

/// Allocates rooms for 64 words until there are 64 rooms. The existing rooms stay, also after `NoMemory`.
fn fill_rooms(alloc: Global, rooms: &mut Vec<Room<u32>>) -> Result<(), NoMemory>
    requires rooms { All (λ room. ACT_WORDS ≤ room) rooms.old.items }
    ensures rooms { All (λ room. ACT_WORDS ≤ room) rooms.new.items }
    ensures count { OnOk result (MOST_ACTS ≤ length rooms.new.items) }
    ensures kept { length rooms.old.items ≤ length rooms.new.items }
{
    for _count in rooms.len()..MOST_ACTS {
        rooms.push(Room::new(alloc, ACT_WORDS)?)?;
    }
    Ok(())
}

/// A separate list of the words: in memory of its size or, if that is refused, in a room taken from `rooms`.
fn kept(alloc: Global, rooms: &mut Vec<Room<u32>>, words: &[u32]) -> Words
    requires some { 0 < length rooms.old.items }
    requires rooms { All (λ room. ACT_WORDS ≤ room) rooms.old.items }
    requires words { length words.now ≤ ACT_WORDS }
    ensures words { result ≡ words.now }
    ensures used { length rooms.old.items ≤ length rooms.new.items + 1 }
    ensures rooms { All (λ room. ACT_WORDS ≤ room) rooms.new.items }
{
    if let Ok(own) = words.to_vec(alloc) {
        return Items::from_vec(own);
    }
    let room = rooms.pop().unwrap();
    let mut items = room.into_vec();
    items.extend_from_slice(words).unwrap();
    Items::from_vec(items).fitted()
}
