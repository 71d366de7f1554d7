//! The kernel's queue of received frames.

ghost use Rattle.std.specs.Prelude.{◌≡◌, ◌<◌, [], length, nat_lt, IfOk};
ghost use Rattle.nook_data.specs.Frames.{tail_of};
ghost use Rattle.nook_data.specs.Frames.{front_of};
ghost use Rattle.kernel_services.specs.Outcome.{with_frame};

use nook_data::limits::MOST_QUEUED_FRAMES;
use nook_data::lists::{TryCopy, Words};
use nook_data::memory::NoMemory;
use nook_data::ring::are_same_queues;
use nook_data::rx_front::RxFront;
use nook_data::same::Same;
use std::alloc::Global;
use std::collections::VecDeque;
use std::marker::Model;

/// The frames that were handed up and wait, the oldest first; at most 64. Contracts see the list.
pub struct RxQueue {
    frames: VecDeque<Words>,
}

impl Model for RxQueue {
    ghost use Rattle.std.specs.Prelude.{◌≤◌, ℕ, List};
    ghost use Rattle.std.specs.VecDeque.{deque_capacity};
    ghost use Rattle.nook_data.specs.declared.limits.TheConstants.{MOST_QUEUED_FRAMES};

    ghost Value = { List (List ℕ) };

    ghost view = { λ s. s.frames.items };

    ghost invariant = { λ s. MOST_QUEUED_FRAMES ≤ deque_capacity s.frames };
}

impl Drop for RxQueue {
    /// Written by hand, so that it is proved once and not in each function that owns a queue.
    fn drop(self) {
        let RxQueue { frames: _ } = self;
    }
}

impl RxQueue {
    /// The empty queue. It allocates room for 64 entries.
    pub fn new(alloc: Global) -> Result<RxQueue, NoMemory>
        ensures { IfOk result (λ made. made ≡ []) }
    {
        Ok(RxQueue {
            frames: VecDeque::with_capacity(alloc, MOST_QUEUED_FRAMES)?,
        })
    }

    /// The number of frames.
    pub fn len(&self) -> usize
        ensures { result ≡ length self.now }
    {
        self.frames.len()
    }

    /// Adds a frame at the back; if 64 wait, drops it and returns false. It takes no memory.
    pub fn offer(&mut self, frame: Words) -> bool
        ensures taken { result ≡ nat_lt (length self.old) MOST_QUEUED_FRAMES }
        ensures queue { self.new ≡ with_frame frame self.old }
    {
        let taken = self.frames.len() < MOST_QUEUED_FRAMES;
        if taken {
            self.frames.push_back(frame).unwrap();
        }
        taken
    }
}

impl RxFront for RxQueue {
    ghost frames = { λ s. s };

    fn take_front(&mut self) -> Option<Words> {
        self.frames.pop_front()
    }
}

impl TryCopy for RxQueue {
    fn copy(&self, alloc: Global) -> Result<RxQueue, NoMemory> {
        let mut frames = VecDeque::with_capacity(alloc, MOST_QUEUED_FRAMES)?;
        for index in 0..self.frames.len() {
            frames.push_back(self.frames[index].copied(alloc)?)?;
        }
        Ok(RxQueue { frames })
    }
}

impl Same for RxQueue {
    fn is_same(&self, other: &RxQueue) -> bool {
        are_same_queues(&self.frames, &other.frames)
    }
}
