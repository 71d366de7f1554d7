//! The traits of the outside: where bytes come from and go to, what holds up a worker, and who listens.
//!
//! A source and a sink each count their I/O errors. The count never falls, so contracts can distinguish what fails from
//! what claims to fail. A failure raises the count by one, and a success leaves it. A count at the end of its type,
//! 2^64 - 1, stays there.

ghost use Rattle.std.specs.Prelude.{◌≡◌, ◌<◌, ◌≤◌, ℕ, List, Option, length};
ghost use Rattle.std.specs.Io.{ReadsAtMost, WritesAtMost};
ghost use Rattle.std.specs.Io.KnownBytes.{ReadConsumes, WriteAppends};
ghost use Rattle.nook_io.specs.Causes.{HasCause, HasWriteCause};
ghost use Rattle.nook_io.specs.Listening.{Listening, heard};

use nook_data::steps::Event;

/// A read or a write failed.
#[derive(Clone, Copy)]
pub struct Failed;

/// Where input comes from.
pub trait Source {
    // the bytes that are left, if contracts know them, and the count of I/O errors
    ghost left: { Self → Option (List ℕ) };

    ghost count: { Self → ℕ };

    /// Reads the next bytes, at most as many as the buffer holds. It returns `Ok(0)` only at the end of input. `Failed`
    /// raises the count of I/O errors by one and takes no bytes; anything else leaves the count.
    fn read(&mut self, buf: &mut [u8]) -> Result<usize, Failed>
        requires { 0 < length buf.old }
        ensures bound { ReadsAtMost result buf.new }
        ensures bytes { ReadConsumes (left self.old) (left self.new) result buf.new }
        ensures cause { HasCause (count self.old) (count self.new) result };

    /// The number of I/O errors so far.
    fn faults(&self) -> u64
        ensures { result ≡ count self.now };
}

/// Where output goes.
pub trait Sink {
    // the bytes that it holds, if contracts know them, and the count of I/O errors
    ghost held: { Self → Option (List ℕ) };

    ghost count: { Self → ℕ };

    /// Takes bytes from the beginning of the piece and returns how many. `Ok(0)` and `Failed` raise the count of I/O
    /// errors by one and take nothing; anything else leaves the count.
    fn write(&mut self, piece: &[u8]) -> Result<usize, Failed>
        requires { 0 < length piece.now }
        ensures bound { WritesAtMost result piece.now }
        ensures bytes { WriteAppends (held self.old) (held self.new) result piece.now }
        ensures cause { HasWriteCause (count self.old) (count self.new) result };

    /// The number of I/O errors so far.
    fn faults(&self) -> u64
        ensures { result ≡ count self.now };
}

/// What may hold up a worker.
pub trait Gate: Sync {
    /// A thread's worker calls this once before each operation, outside every turn. It passes the operation's index in
    /// the script. The call may wait.
    fn pass(&self, thread: u8, index: u32);
}

/// Who hears the events of a run.
pub trait Listener: Drop {
    ghost listening: { Self → Listening };

    /// A bit for each part that it hears; part 0 has the lowest bit.
    fn part_mask(&self) -> u8
        ensures { result ≡ (listening self.now).part_mask };

    /// A bit for each kind of event that it hears.
    fn kind_mask(&self) -> u8
        ensures { result ≡ (listening self.now).kind_mask };

    /// The total at which it has heard enough.
    fn limit(&self) -> u64
        ensures { result ≡ (listening self.now).limit };

    /// How many events it has heard.
    fn total(&self) -> u64
        ensures { result ≡ (listening self.now).total };

    /// Hears an event of a part. The total rises by one exactly if the masks have the part's bit and a bit of the
    /// event's kinds.
    fn hear(&mut self, part: u8, event: &Event)
        requires { (listening self.old).total < (listening self.old).limit }
        ensures { listening self.new ≡ heard part event.now (listening self.old) };
}
