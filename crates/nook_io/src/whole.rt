//! Whole reads and writes: a source read to its end, a text written whole.

ghost use Rattle.std.specs.Prelude.{◌≡◌, ◌+◌, ◌≤◌, ◌<◌, IsErrOf, IfOk, OnErr, OnOk, length};
ghost use Rattle.std.specs.Io.KnownBytes.{Appends};
ghost use Rattle.nook_io.specs.Causes.{AppendsPrefix, HasCause, HoldsMore, ReadsAll, Rose, TakesAtMost};

use crate::outside::{Failed, Sink, Source};
use nook_data::memory::NoMemory;
use std::alloc::{AllocError, Global};

/// Why a source was not read to its end.
#[derive(Clone, Copy)]
pub enum ReadStop {
    /// It holds more bytes than the limit.
    TooLong,
    /// A read failed.
    Fault,
    /// An allocation for its bytes failed.
    NoMemory,
}

impl From<Failed> for ReadStop {
    ghost use Rattle.nook_io.specs.declared.whole.ReadStop.TheVariants.{Fault};

    ghost from_gives = { λ _ stop. stop ≡ Fault };

    fn from(_failed: Failed) -> ReadStop {
        ReadStop::Fault
    }
}

impl From<AllocError> for ReadStop {
    ghost use Rattle.nook_io.specs.declared.whole.ReadStop.TheVariants.{NoMemory};

    ghost from_gives = { λ _ stop. stop ≡ NoMemory };

    fn from(_refused: AllocError) -> ReadStop {
        ReadStop::NoMemory
    }
}

/// Reads all bytes that a source has left, at most `limit`. It stops at the end, or at the first byte over the limit,
/// and never takes a byte after that one. It also stops at the source's first I/O error and then returns `Fault`.
#[tactic(auto, using(crate::proofs::KnownLemmas::consumes_none, crate::proofs::KnownLemmas::consumes_more, crate::proofs::KnownLemmas::reads_all, crate::proofs::KnownLemmas::holds_more, crate::proofs::KnownLemmas::takes_front, crate::proofs::KnownLemmas::takes_more, crate::proofs::KnownLemmas::takes_kept))]
pub fn read_all<S: Source>(alloc: Global, source: &mut S, limit: u32) -> Result<Vec<u8>, ReadStop>
    ensures all { IfOk result
        (λ made. ReadsAll (S.left source.old) (S.left source.new) made.items) }
    ensures short { IfOk result (λ made. length made.items ≤ limit) }
    ensures too_long { IsErrOf result ReadStop.TooLong → HoldsMore (S.left source.old) limit }
    ensures taken { TakesAtMost (S.left source.old) (S.left source.new) (limit + 1) }
    ensures later { S.count source.old ≤ S.count source.new }
    ensures fault { IsErrOf result ReadStop.Fault → Rose (S.count source.old) (S.count source.new) }
    ensures no_fault { (IsErrOf result ReadStop.Fault → ⊥)
        → S.count source.new ≡ S.count source.old }
{
    let limit = limit as usize;
    let mut bytes = Vec::new(alloc);
    let mut buf = [0; 4096];
    'reads: while bytes.len() <= limit {
        let most = buf.len().min(limit + 1 - bytes.len());
        let (front, _) = buf.split_at_mut(most);
        let n = source.read(front)?;
        if n == 0 {
            return Ok(bytes);
        }
        let (piece, _) = front.split_at(n);
        bytes.extend_from_slice(piece)?;
    }
    Err(ReadStop::TooLong)
}

/// Writes a text whole. It stops at the sink's first I/O error; then the sink has gained a prefix of the text.
#[tactic(auto, using(crate::proofs::KnownLemmas::appends_none, crate::proofs::KnownLemmas::appends_next, crate::proofs::KnownLemmas::appends_front, crate::proofs::KnownLemmas::appends_whole))]
pub fn write_all<K: Sink>(sink: &mut K, text: &[u8]) -> Result<(), Failed>
    ensures ok { OnOk result (Appends (K.held sink.old) (K.held sink.new) text.now) }
    ensures err { OnErr result (AppendsPrefix (K.held sink.old) (K.held sink.new) text.now) }
    ensures cause { HasCause (K.count sink.old) (K.count sink.new) result }
{
    let mut at = 0;
    'writes: while at < text.len() {
        let (_, rest) = text.split_at(at);
        let n = sink.write(rest)?;
        if n == 0 {
            return Err(Failed);
        }
        at += n;
    }
    Ok(())
}
