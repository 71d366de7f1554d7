//! The receive ring of a net device, with room for its frames that is allocated before any frame arrives.

ghost use Rattle.std.specs.Prelude.{◌≡◌, ◌<◌, ◌≤◌, [], ◌∷◌, ◌++◌, length, slice_index_or, Decides, IfOk, MatchOption};
ghost use Rattle.nook_data.specs.Frames.{head_of};

use crate::limits::{MOST_FRAME_WORDS, MOST_RING_FRAMES};
use crate::lists::{TryCopy, Word, Words};
use crate::memory::NoMemory;
use crate::same::Same;
use std::alloc::Global;
use std::collections::VecDeque;
use std::marker::Model;

/// At most 16 frames in the order of their arrival, each of 1 to 64 words. Contracts see the list of the frames.
#[derive(Drop)]
pub struct Ring {
    frames: VecDeque<Words>,
}

impl Model for Ring {
    ghost use Rattle.std.specs.Prelude.{ℕ, ◌≤◌, List, All, length};
    ghost use Rattle.std.specs.VecDeque.{deque_capacity};
    ghost use Rattle.nook_data.specs.declared.limits.TheConstants.{MOST_FRAME_WORDS, MOST_RING_FRAMES};

    ghost Value = { List (List ℕ) };

    ghost view = { λ s. s.frames.items };

    ghost invariant = { λ s. (MOST_RING_FRAMES ≤ deque_capacity s.frames)
        × (length s.frames.items ≤ MOST_RING_FRAMES)
        × All (λ frame. (1 ≤ length frame) × (length frame ≤ MOST_FRAME_WORDS)) s.frames.items };
}

impl Ring {
    /// The empty ring, with room for 16 frames.
    pub fn new(alloc: Global) -> Result<Ring, NoMemory>
        ensures { IfOk result (λ ring. ring ≡ []) }
    {
        Ok(Ring {
            frames: VecDeque::with_capacity(alloc, MOST_RING_FRAMES)?,
        })
    }

    /// The number of frames, at most 16.
    pub fn len(&self) -> usize
        ensures count { result ≡ length self.now }
        ensures most { result ≤ MOST_RING_FRAMES }
    {
        self.frames.len()
    }

    /// Appends a frame. It allocates no memory.
    pub fn push(&mut self, frame: Words)
        requires room { length self.old < MOST_RING_FRAMES }
        requires some { 1 ≤ length frame }
        requires most { length frame ≤ MOST_FRAME_WORDS }
        ensures { self.new ≡ self.old ++ frame ∷ [] }
    {
        self.frames.push_back_reserved(frame);
    }

    /// The length of the first frame, 0 if the ring is empty.
    pub fn head_len(&self) -> Word
        ensures len { result ≡ length (head_of self.now) }
        ensures most { result ≤ MOST_FRAME_WORDS }
    {
        match self.frames.front() {
            Some(head) => head.len() as Word,
            None => 0,
        }
    }

    /// The first frame's word at an index, 0 past its end or if the ring is empty.
    pub fn head_word(&self, index: Word) -> Word
        ensures { result ≡ slice_index_or (head_of self.now) index 0 }
    {
        match self.frames.front() {
            Some(head) => head.as_slice().get(index as usize).copied().unwrap_or(0),
            None => 0,
        }
    }

    /// Takes the first frame off the ring, if there is one.
    pub fn pop(&mut self) -> Option<Words>
        ensures { MatchOption result ((self.old ≡ []) × (self.new ≡ []))
            (λ frame. self.old ≡ frame ∷ self.new) }
    {
        self.frames.pop_front()
    }

    /// Takes all frames off the ring.
    pub fn clear(&mut self)
        ensures { self.new ≡ [] }
    {
        self.frames.clear();
    }
}

impl Same for Ring {
    fn is_same(&self, other: &Ring) -> bool {
        are_same_queues(&self.frames, &other.frames)
    }
}

/// Whether two queues have the same frames in the same order.
pub fn are_same_queues(frames: &VecDeque<Words>, others: &VecDeque<Words>) -> bool
    ensures { Decides result (frames.now.items ≡ others.now.items) }
{
    if frames.len() != others.len() {
        return false;
    }
    for index in 0..frames.len() {
        if !frames[index].is_same(&others[index]) {
            return false;
        }
    }
    true
}

impl TryCopy for Ring {
    fn copy(&self, alloc: Global) -> Result<Ring, NoMemory> {
        let mut made = Ring::new(alloc)?;
        for index in 0..self.frames.len() {
            made.push(self.frames[index].copy(alloc)?);
        }
        Ok(made)
    }
}
