//! The position of an audit in a report.

ghost use Rattle.std.specs.Prelude.{◌≡◌, ◌+◌, ◌==◌, ◌<◌, ◌≤◌, IfOk, MatchOption, OnOk, ℕ, List, None, Some, count_by};
ghost use Rattle.std.specs.Prelude.{length};
ghost use Rattle.std.specs.List.{position};
ghost use Rattle.journal_audit.specs.Comparisons.{change_in, untouched};
ghost use Rattle.journal_audit.specs.Position.{past, Departs, Follows, HasNoLine, IsNextLine};
ghost use Rattle.journal_audit.specs.Stopping.{OnUnfit};
ghost use Rattle.report_text.specs.Writing.{Wrote};

use crate::comparing::Comparing;
use crate::stop::Stop;
use report_text::WriteStop;
use std::marker::Model;

/// The position of an audit in a report: a byte, and the number of its line.
#[derive(Drop)]
pub struct Cursor<'a> {
    rest: &'a [u8],
    number: u64,
}

impl<'a> Model for Cursor<'a> {
    ghost use Rattle.std.specs.Prelude.{◌+◌, ◌<◌, ◌^◌, length};
    ghost use Rattle.journal_audit.specs.Position.{Position};

    ghost Value = { Position };

    ghost view = { λ s. record { rest = s.rest.now; number = s.number } };

    ghost invariant = { λ s. s.number + length s.rest.now < 2 ^ 64 };
}

impl<'a> Cursor<'a> {
    /// Starts at the first byte of a report.
    pub fn new(report: &'a [u8]) -> Cursor<'a>
        ensures { result ≡ record { rest = report.now; number = 1 } }
    {
        Cursor {
            rest: report,
            number: 1,
        }
    }

    /// The number of the line that comes next, from 1.
    pub fn number(&self) -> u64
        ensures { result ≡ self.now.number }
    {
        self.number
    }

    /// What has not been read.
    pub fn rest(&self) -> &'a [u8]
        ensures { result.now ≡ self.now.rest }
    {
        self.rest
    }

    /// The next line with its line feed. It stops if no line feed is left.
    pub fn line(&self) -> Result<&'a [u8], Stop>
        ensures ok { IfOk result (λ line. IsNextLine self.now line.now) }
        ensures unfit { OnUnfit result (HasNoLine self.now) }
    {
        match line_feed_in(self.rest) {
            Some(end) => Ok(&self.rest[..end + 1]),
            None => Err(Stop::Unfit { line: self.number }),
        }
    }

    /// Skips this many bytes.
    pub fn skip(&mut self, count: usize)
        requires { count ≤ length self.old.rest }
        ensures { self.new ≡ past count self.old }
    {
        let (front, rest) = self.rest.split_at(count);
        self.number += lines_in(front) as u64;
        self.rest = rest;
    }

    /// Skips what was compared with the text from here on. It stops if that is not the whole of what was to be
    /// written.
    pub fn settle(
        &mut self,
        compared: &Comparing,
        written: Result<(), WriteStop>,
    ) -> Result<(), Stop>
        requires { compared.now.text ≡ self.old.rest }
        ensures ok { OnOk result ((text : List ℕ)
            → Wrote (change_in (untouched self.old.rest) compared.now) written text
            → Follows text self.old self.new) }
        ensures unfit { OnUnfit result (λ line. (text : List ℕ)
            → Wrote (change_in (untouched self.old.rest) compared.now) written text
            → Departs text self.old line) }
    {
        if written == Err(WriteStop::NoMemory) {
            return Err(Stop::NoMemory);
        }
        self.skip(compared.matched());
        if compared.wrong().is_some() {
            return Err(Stop::Unfit { line: self.number });
        }
        Ok(())
    }
}

/// The index of the first line feed.
fn line_feed_in(text: &[u8]) -> Option<usize>
    ensures { result ≡ position (λ b. b == 10) text.now }
{
    text.iter().position(|byte| *byte == b'\n')
}

/// How many lines end in a text.
fn lines_in(text: &[u8]) -> usize
    ensures { result ≡ count_by (λ b. b == 10) text.now }
{
    text.iter().filter(|byte| **byte == b'\n').count()
}
