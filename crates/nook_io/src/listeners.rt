//! A listener that counts, and a gate that is always open.

ghost use Rattle.std.specs.Prelude.{◌≡◌, is_some, length, nat_lt};
ghost use Rattle.nook_io.specs.Listening.{kinds_of};
ghost use Rattle.nook_io.specs.Views.Masks.{bit_if, masks_meet};

use crate::outside::{Gate, Listener};
use nook_data::calls::{Answer, CallAnswers};
use nook_data::lists::Items;
use nook_data::steps::{Event, FailCause};

/// Each listener's total, and whether it is still attached.
pub type TapTotals = Items<(u64, bool)>;

/// Counts the events that its masks meet, up to a limit.
#[derive(Drop)]
pub struct CountListener {
    part_mask: u8,
    kind_mask: u8,
    limit: u64,
    total: u64,
}

impl CountListener {
    /// A listener with a total of 0.
    pub fn new(part_mask: u8, kind_mask: u8, limit: u64) -> CountListener
        ensures { result
            ≡ record { part_mask = part_mask; kind_mask = kind_mask; limit = limit; total = 0 } }
    {
        CountListener {
            part_mask,
            kind_mask,
            limit,
            total: 0,
        }
    }
}

impl Listener for CountListener {
    ghost use Rattle.nook_io.specs.Listening.{Listening};

    ghost listening = { λ s. record {
      part_mask = s.part_mask;
      kind_mask = s.kind_mask;
      limit = s.limit;
      total = s.total;
    } };

    fn part_mask(&self) -> u8 {
        self.part_mask
    }

    fn kind_mask(&self) -> u8 {
        self.kind_mask
    }

    fn limit(&self) -> u64 {
        self.limit
    }

    fn total(&self) -> u64 {
        self.total
    }

    fn hear(&mut self, part: u8, event: &Event) {
        if part < 8 && meet(self.part_mask, 1 << part) && meet(self.kind_mask, event_kinds(event)) {
            self.total += 1;
        }
    }
}

/// Whether two masks have a common bit.
fn meet(a: u8, b: u8) -> bool
    ensures { result ≡ masks_meet a b }
{
    a & b > 0
}

/// The kinds of an event as bits: 0 Invoke, 1 Enter, 2 Burst, 3 Stage, 4 Arrive, 5 if it carries a failure, 6 if it
/// carries an answer.
pub fn event_kinds(event: &Event) -> u8
    ensures { result ≡ kinds_of event.now }
{
    match event {
        Event::Invoke { answer, .. } => 1 + answer_kind(answer),
        Event::Enter { answer, .. } => 2 + answer_kind(answer),
        Event::Burst {
            answer,
            failure,
            ..
        } => 4 + failure_kind(failure) + answer_kind(answer),
        Event::Stage { answers, .. } => 8 + answers_kind(answers),
        Event::Arrive { .. } => 16,
    }
}

fn answer_kind(answer: &Option<Answer>) -> u8
    ensures { result ≡ bit_if 64 (is_some answer.now) }
{
    if answer.is_some() { 64 } else { 0 }
}

fn failure_kind(failure: &Option<FailCause>) -> u8
    ensures { result ≡ bit_if 32 (is_some failure.now) }
{
    if failure.is_some() { 32 } else { 0 }
}

fn answers_kind(answers: &CallAnswers) -> u8
    ensures { result ≡ bit_if 64 (nat_lt 0 (length answers.now)) }
{
    if answers.is_empty() { 0 } else { 64 }
}

/// A gate that never holds up a worker.
#[derive(Clone, Copy)]
pub struct FreeGate;

impl Gate for FreeGate {
    fn pass(&self, _thread: u8, _index: u32) {}
}
