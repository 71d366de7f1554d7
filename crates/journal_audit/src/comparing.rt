//! A sink that compares what is written with a text, and keeps none of it.

ghost use Rattle.std.specs.Prelude.{◌≡◌, ◌+◌, ◌<◌, ◌≤◌, None, Some, false, true, length, take, drop, slice_index};
ghost use Rattle.std.specs.Io.{WritesAtMost};
ghost use Rattle.std.specs.Io.KnownBytes.{WriteAppends};
ghost use Rattle.nook_io.specs.Causes.{HasWriteCause};
ghost use Rattle.journal_audit.specs.Comparisons.{held_in, is_other, untouched};
ghost use Rattle.journal_audit.specs.Position.{begins_with};

use nook_io::outside::{Failed, Sink};
use std::marker::Model;

/// A sink that compares what is written with a text. It takes the bytes that match the text, and the first one that
/// does not; then it fails.
#[derive(Drop)]
pub struct Comparing<'a> {
    text: &'a [u8],
    at: usize,
    wrong: Option<u8>,
    faults: u64,
}

impl<'a> Model for Comparing<'a> {
    ghost use Rattle.std.specs.Prelude.{◌≡◌, ◌≤◌, None, length, drop, true};
    ghost use Rattle.journal_audit.specs.Comparisons.{Comparison, is_other};

    ghost Value = { Comparison };

    ghost view = { λ s. record {
      text = s.text.now;
      at = s.at;
      wrong = s.wrong;
      faults = s.faults;
    } };

    ghost invariant = { λ s. (s.at ≤ length s.text.now)
        × (is_other s.wrong (drop s.at s.text.now) ≡ true)
        × (s.wrong ≡ None → s.faults ≡ 0) };
}

impl<'a> Comparing<'a> {
    /// A sink that has taken nothing.
    pub fn new(text: &'a [u8]) -> Comparing<'a>
        ensures { result ≡ untouched text.now }
    {
        Comparing {
            text,
            at: 0,
            wrong: None,
            faults: 0,
        }
    }

    /// How many of the text's first bytes were written.
    pub fn matched(&self) -> usize
        ensures result { result ≡ self.now.at }
        ensures within { result ≤ length self.now.text }
    {
        self.at
    }

    /// The first byte that was written and does not match the text, or is past its end.
    pub fn wrong(&self) -> Option<u8>
        ensures result { result ≡ self.now.wrong }
        ensures other { is_other self.now.wrong (drop self.now.at self.now.text) ≡ true }
        ensures faults { self.now.wrong ≡ None → self.now.faults ≡ 0 }
    {
        self.wrong
    }
}

impl<'a> Sink for Comparing<'a> {
    ghost held = { λ s. Some (held_in s) };

    ghost count = { λ s. s.faults };

    /// Takes the bytes up to the first that does not match the text, and that one. After such a byte it fails.
    fn write(&mut self, piece: &[u8]) -> Result<usize, Failed>
        requires { 0 < length piece.now }
        ensures bound { WritesAtMost result piece.now }
        ensures bytes { WriteAppends (Some (held_in self.old))
            (Some (held_in self.new)) result piece.now }
        ensures cause { HasWriteCause self.old.faults self.new.faults result }
        ensures text { self.new.text ≡ self.old.text }
    {
        if self.wrong.is_some() {
            self.faults = self.faults.saturating_add(1);
            return Err(Failed);
        }
        let (_, rest) = self.text.split_at(self.at);
        let common = common_front(piece, rest);
        self.at += common;
        if common == piece.len() {
            return Ok(common);
        }
        self.wrong = Some(piece[common]);
        Ok(common + 1)
    }

    fn faults(&self) -> u64 {
        self.faults
    }
}

/// The length of the longest common prefix of two texts.
#[tactic(auto, using(crate::proofs::Compared::begins_other, crate::proofs::Compared::begins_none))]
fn common_front(piece: &[u8], text: &[u8]) -> usize
    ensures within { result ≤ length piece.now }
    ensures fits { result ≤ length text.now }
    ensures same { take result piece.now ≡ take result text.now }
    ensures other { result < length piece.now
        → begins_with (slice_index piece.now result) (drop result text.now) ≡ false }
{
    let most = piece.len().min(text.len());
    for i in 0..most {
        if piece[i] != text[i] {
            return i;
        }
    }
    most
}
