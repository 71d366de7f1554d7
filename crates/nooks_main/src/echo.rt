//! A sink that keeps the first bytes that went through it.

ghost use Rattle.std.specs.Prelude.{◌≡◌, ◌<◌, ◌≤◌, length};
ghost use Rattle.std.specs.Io.{WritesAtMost};
ghost use Rattle.std.specs.Io.KnownBytes.{WriteAppends};
ghost use Rattle.nook_io.specs.Causes.{HasWriteCause};

use nook_io::outside::{Failed, Sink};

/// More bytes than the line of an input error has.
const MOST: usize = 512;

/// A sink over another, with the first bytes that the other took.
#[derive(Drop)]
pub struct Echo<K> {
    inner: K,
    front: [u8; MOST],
    len: usize,
    ghost within: { len ≤ 512 },
}

impl<K: Sink> Echo<K> {
    /// A sink over this one, through which nothing has gone yet.
    pub fn new(inner: K) -> Echo<K>
        ensures inner { result.inner ≡ inner }
        ensures empty { result.len ≡ 0 }
    {
        Echo {
            inner,
            front: [0; MOST],
            len: 0,
        }
    }

    /// The first bytes that went through it.
    pub fn front(&self) -> &[u8]
        ensures { length result.now ≡ self.now.len }
    {
        let (front, _) = self.front.split_at(self.len);
        front
    }
}

/// Puts bytes after the first `len` of a buffer, as far as there is room, and returns how many it holds then.
fn keep(front: &mut [u8], len: usize, bytes: &[u8]) -> usize
    requires { len ≤ length front.old }
    ensures { result ≤ length front.old }
{
    let (_, rest) = front.split_at_mut(len);
    let n = bytes.len().min(rest.len());
    let (index, _) = rest.split_at_mut(n);
    let (piece, _) = bytes.split_at(n);
    index.copy_from_slice(piece);
    len + n
}

impl<K: Sink> Sink for Echo<K> {
    ghost held = { λ s. K.held s.inner };

    ghost count = { λ s. K.count s.inner };

    fn write(&mut self, piece: &[u8]) -> Result<usize, Failed> {
        let n = self.inner.write(piece)?;
        let (taken, _) = piece.split_at(n);
        self.len = keep(&mut self.front, self.len, taken);
        Ok(n)
    }

    fn faults(&self) -> u64 {
        self.inner.faults()
    }
}
