//! Sources and sinks in memory: two that fail at listed calls, and two that never fail.

ghost use Rattle.std.specs.Prelude.{◌≡◌, ◌+◌, ◌<◌, ◌≤◌, [], ◌++◌, Some, None, Ok, IsErr, IsOk, IfOk, OnErr, MatchBool, length, take, drop, min};
ghost use Rattle.std.specs.Io.{ReadsAtMost, WritesAtMost};
ghost use Rattle.std.specs.Io.KnownBytes.{ReadConsumes, WriteAppends};
ghost use Rattle.nook_io.specs.Causes.{HasCause, HasWriteCause};
ghost use Rattle.nook_io.specs.Views.Streams.{IsRefusal, bytes_taken, given, is_listed as listed, one_more, read_fails};
ghost use Rattle.nook_io.specs.Views.Streams.{write_fails};

use crate::outside::{Failed, Sink, Source};
use nook_data::lists::{Words, Words8};
use nook_data::memory::NoMemory;
use std::alloc::Global;
use std::marker::Model;

/// A source over bytes in memory. Its calls are numbered from 1, and the listed ones fail.
#[derive(Drop)]
pub struct ListSource {
    bytes: Words8,
    at: usize,
    per_read: u32,
    failing: Words,
    calls: u64,
    faults: u64,
}

impl Model for ListSource {
    ghost use Rattle.std.specs.Prelude.{◌≤◌, length, drop};
    ghost use Rattle.nook_io.specs.Views.Streams.{ListedSource};

    ghost Value = { ListedSource };

    ghost view = { λ s. record {
      left = drop s.at s.bytes;
      per_read = s.per_read;
      failing = s.failing;
      calls = s.calls;
      faults = s.faults;
    } };

    ghost invariant = { λ s. (s.at ≤ length s.bytes) × (1 ≤ s.per_read) };
}

impl ListSource {
    /// A source of these bytes. One read returns at most `per_read` bytes (at least 1), and the calls with listed
    /// numbers fail. This allocates no memory.
    pub fn new(bytes: Words8, failing: Words, per_read: u32) -> ListSource
        requires { 1 ≤ per_read }
        ensures { result ≡ record {
          left = bytes;
          per_read = per_read;
          failing = failing;
          calls = 0;
          faults = 0;
        } }
    {
        ListSource {
            bytes,
            at: 0,
            per_read,
            failing,
            calls: 0,
            faults: 0,
        }
    }
}

impl Source for ListSource {
    ghost left = { λ s. Some s.left };

    ghost count = { λ s. s.faults };

    /// Fails exactly at a listed call. Otherwise it returns as many bytes as are left, `per_read` allows and fit.
    fn read(&mut self, buf: &mut [u8]) -> Result<usize, Failed>
        requires { 0 < length buf.old }
        ensures bound { ReadsAtMost result buf.new }
        ensures bytes { ReadConsumes (Some self.old.left) (Some self.new.left) result buf.new }
        ensures cause { HasCause self.old.faults self.new.faults result }
        ensures outcome { MatchBool (read_fails self.old)
            (IsErr result)
            (result ≡ Ok (given self.old buf.old)) }
        ensures fails { MatchBool (read_fails self.old)
            (self.new ≡ record self.old {
              calls = one_more self.old.calls;
              faults = one_more self.old.faults;
            })
            (self.new ≡ record self.old {
              calls = one_more self.old.calls;
              left = drop (given self.old buf.old) self.old.left;
            }) }
    {
        self.calls = self.calls.saturating_add(1);
        if is_listed(&self.failing, self.calls) {
            self.faults = self.faults.saturating_add(1);
            return Err(Failed);
        }
        let n = copy_from(self.bytes.as_slice(), self.at, self.per_read as usize, buf);
        self.at += n;
        Ok(n)
    }

    fn faults(&self) -> u64 {
        self.faults
    }
}

/// A sink that keeps its bytes in memory. Its calls are numbered from 1. A call fails if it is listed or if the sink
/// is full.
#[derive(Drop)]
pub struct ListSink {
    bytes: Vec<u8>,
    room: usize,
    failing: Words,
    nothing: bool,
    calls: u64,
    faults: u64,
}

impl Model for ListSink {
    ghost use Rattle.std.specs.Prelude.{◌≤◌, length, vec_capacity};
    ghost use Rattle.nook_io.specs.Views.Streams.{ListedSink};

    ghost Value = { ListedSink };

    ghost view = { λ s. record {
      bytes = s.bytes.items;
      room = s.room;
      failing = s.failing;
      nothing = s.nothing;
      calls = s.calls;
      faults = s.faults;
    } };

    ghost invariant = { λ s. (length s.bytes.items ≤ s.room) × (s.room ≤ vec_capacity s.bytes) };
}

impl ListSink {
    /// An empty sink with room for `room` bytes, which it allocates now. A failing call returns `Ok(0)` if `nothing` is
    /// true, else `Failed`.
    pub fn new(
        alloc: Global,
        room: u32,
        failing: Words,
        nothing: bool,
    ) -> Result<ListSink, NoMemory>
        ensures { IfOk result (λ made. made ≡ record {
          bytes = [];
          room = room;
          failing = failing;
          nothing = nothing;
          calls = 0;
          faults = 0;
        }) }
    {
        let bytes = Vec::with_capacity(alloc, room as usize)?;
        Ok(ListSink {
            bytes,
            room: room as usize,
            failing,
            nothing,
            calls: 0,
            faults: 0,
        })
    }

    /// The bytes that it holds.
    pub fn bytes(&self) -> &[u8]
        ensures { result.now ≡ self.now.bytes }
    {
        self.bytes.as_slice()
    }

    /// What a failing call returns.
    fn refusal(&self) -> Result<usize, Failed>
        ensures { IsRefusal self.now.nothing result }
    {
        if self.nothing { Ok(0) } else { Err(Failed) }
    }
}

impl Sink for ListSink {
    ghost held = { λ s. Some s.bytes };

    ghost count = { λ s. s.faults };

    /// Fails exactly at a listed call or if the sink is full. Otherwise it takes as much of the piece as fits.
    fn write(&mut self, piece: &[u8]) -> Result<usize, Failed>
        requires { 0 < length piece.now }
        ensures bound { WritesAtMost result piece.now }
        ensures bytes { WriteAppends (Some self.old.bytes) (Some self.new.bytes) result piece.now }
        ensures cause { HasWriteCause self.old.faults self.new.faults result }
        ensures outcome { MatchBool (write_fails self.old)
            (IsRefusal self.old.nothing result)
            (result ≡ Ok (bytes_taken self.old piece.now)) }
        ensures fails { MatchBool (write_fails self.old)
            (self.new ≡ record self.old {
              calls = one_more self.old.calls;
              faults = one_more self.old.faults;
            })
            (self.new ≡ record self.old {
              calls = one_more self.old.calls;
              bytes = self.old.bytes ++ take (bytes_taken self.old piece.now) piece.now;
            }) }
    {
        self.calls = self.calls.saturating_add(1);
        let free = self.room - self.bytes.len();
        if free == 0 || is_listed(&self.failing, self.calls) {
            self.faults = self.faults.saturating_add(1);
            return self.refusal();
        }
        let n = piece.len().min(free);
        let (front, _) = piece.split_at(n);
        self.bytes.extend_from_slice(front).unwrap();
        Ok(n)
    }

    fn faults(&self) -> u64 {
        self.faults
    }
}

/// A source over bytes in memory that never fails.
#[derive(Drop)]
pub struct PlainSource {
    bytes: Words8,
    at: usize,
}

impl Model for PlainSource {
    ghost use Rattle.std.specs.Prelude.{◌≤◌, ℕ, List, length, drop};

    ghost Value = { List ℕ };

    ghost view = { λ s. drop s.at s.bytes };

    ghost invariant = { λ s. s.at ≤ length s.bytes };
}

impl PlainSource {
    /// A source of these bytes. This allocates no memory.
    pub fn new(bytes: Words8) -> PlainSource
        ensures { result ≡ bytes }
    {
        PlainSource { bytes, at: 0 }
    }
}

impl Source for PlainSource {
    ghost left = { λ s. Some s };

    ghost count = { λ _. 0 };

    /// Returns as many bytes as are left and fit.
    fn read(&mut self, buf: &mut [u8]) -> Result<usize, Failed>
        requires { 0 < length buf.old }
        ensures bound { ReadsAtMost result buf.new }
        ensures bytes { ReadConsumes (Some self.old) (Some self.new) result buf.new }
        ensures cause { HasCause 0 0 result }
        ensures amount { result ≡ Ok (min (length self.old) (length buf.old)) }
    {
        let n = copy_from(self.bytes.as_slice(), self.at, buf.len(), buf);
        self.at += n;
        Ok(n)
    }

    fn faults(&self) -> u64 {
        0
    }
}

/// A sink that takes each piece whole, keeps nothing and never fails.
#[derive(Drop)]
pub struct PlainSink;

impl PlainSink {
    /// A new sink.
    pub fn new() -> PlainSink {
        PlainSink
    }
}

impl Sink for PlainSink {
    ghost held = { λ _. None };

    ghost count = { λ _. 0 };

    /// Takes the whole piece.
    fn write(&mut self, piece: &[u8]) -> Result<usize, Failed>
        requires { 0 < length piece.now }
        ensures bound { WritesAtMost result piece.now }
        ensures bytes { WriteAppends None None result piece.now }
        ensures cause { HasWriteCause 0 0 result }
        ensures whole { result ≡ Ok (length piece.now) }
    {
        Ok(piece.len())
    }

    fn faults(&self) -> u64 {
        0
    }
}

/// Whether the number of a call is listed.
fn is_listed(failing: &Words, call: u64) -> bool
    ensures { result ≡ listed failing.now call }
{
    failing
        .as_slice()
        .iter()
        .any(|number| *number as u64 == call)
}

/// Copies at most `most` bytes, from index `at` on, to the beginning of the buffer and returns how many.
fn copy_from(bytes: &[u8], at: usize, most: usize, buf: &mut [u8]) -> usize
    requires { at ≤ length bytes.now }
    ensures count { result ≡ min (min (length (drop at bytes.now)) most) (length buf.old) }
    ensures bytes { drop at bytes.now ≡ take result buf.new ++ drop (at + result) bytes.now }
{
    let (_, rest) = bytes.split_at(at);
    let n = rest.len().min(most).min(buf.len());
    let (piece, _) = rest.split_at(n);
    let (front, _) = buf.split_at_mut(n);
    front.copy_from_slice(piece);
    n
}
