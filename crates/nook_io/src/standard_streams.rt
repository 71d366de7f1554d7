//! A source over any reader and a sink over any writer. Their contents are those of the reader or writer, and they
//! count its I/O errors.

ghost use Rattle.std.specs.Prelude.{◌≡◌};

use crate::outside::{Failed, Sink, Source};
use std::io::{Read, Write};

/// A source over a reader, such as standard input.
#[derive(Drop)]
pub struct InSource<R> {
    inner: R,
    faults: u64,
}

impl<R: Read> InSource<R> {
    /// A source over this reader, with no I/O errors so far.
    pub fn new(inner: R) -> InSource<R>
        ensures { result ≡ record { inner = inner; faults = 0 } }
    {
        InSource { inner, faults: 0 }
    }
}

impl<R: Read> Source for InSource<R> {
    ghost left = { λ s. R.remaining s.inner };

    ghost count = { λ s. s.faults };

    fn read(&mut self, buf: &mut [u8]) -> Result<usize, Failed> {
        match self.inner.read(buf) {
            Ok(n) => Ok(n),
            Err(_) => {
                self.faults = self.faults.saturating_add(1);
                Err(Failed)
            }
        }
    }

    fn faults(&self) -> u64 {
        self.faults
    }
}

/// A sink over a writer, such as standard output.
#[derive(Drop)]
pub struct OutSink<W> {
    inner: W,
    faults: u64,
}

impl<W: Write> OutSink<W> {
    /// A sink over this writer, with no I/O errors so far.
    pub fn new(inner: W) -> OutSink<W>
        ensures { result ≡ record { inner = inner; faults = 0 } }
    {
        OutSink { inner, faults: 0 }
    }
}

impl<W: Write> Sink for OutSink<W> {
    ghost held = { λ s. W.contents s.inner };

    ghost count = { λ s. s.faults };

    /// A write that takes nothing counts as an I/O error too.
    fn write(&mut self, piece: &[u8]) -> Result<usize, Failed> {
        match self.inner.write(piece) {
            Ok(0) | Err(_) => {
                self.faults = self.faults.saturating_add(1);
                Err(Failed)
            }
            Ok(n) => Ok(n),
        }
    }

    fn faults(&self) -> u64 {
        self.faults
    }
}
