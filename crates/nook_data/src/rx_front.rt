//! The source of received frames for the shadow.

ghost use Rattle.std.specs.Prelude.{◌≡◌, ℕ, List};
ghost use Rattle.nook_data.specs.Frames.{front_of, tail_of};

use crate::lists::Words;

/// The kernel's receive queue, from which the shadow takes frames.
pub trait RxFront {
    // the frames that wait, the oldest first
    ghost frames: { Self → List (List ℕ) };

    /// Takes the oldest frame, if one waits. It allocates no memory.
    fn take_front(&mut self) -> Option<Words>
        ensures taken { result ≡ front_of (frames self.old) }
        ensures left { frames self.new ≡ tail_of (frames self.old) };
}
