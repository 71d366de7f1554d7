//! The outcome of a run.

ghost use Rattle.std.specs.Prelude.{◌≡◌, Decides};

use nook_data::calls::AnswerTable;
use nook_data::lists::{Frames, Items};
use nook_data::machine::Acts;
use nook_data::same::Same;
use nook_data::verdicts::Losses;

/// What the report shows of a part after its events.
#[derive(Drop)]
pub struct PartOutcome {
    /// The words of kernel objects 1 to 12.
    pub objects: Frames,
    /// The blocks of a disk.
    pub medium: Frames,
    /// The frames that a link sent, or the samples that a stream played.
    pub given: Acts,
    /// The last acknowledged configuration.
    pub config: [u32; 4],
    pub losses: Losses,
    pub failures: u32,
    /// The clause of the first break.
    pub broken: Option<u8>,
}

/// The outcome of a run: the answers of its threads and, for each part, what the report shows after its events.
#[derive(Drop)]
pub struct Outcome {
    pub answers: AnswerTable,
    pub parts: Items<PartOutcome>,
}

/// Whether the losses are the same.
fn are_same_losses(losses: &Losses, others: &Losses) -> bool
    ensures { Decides result (losses.now ≡ others.now) }
{
    losses.sends == others.sends
        && losses.samples == others.samples
        && losses.busy == others.busy
        && losses.arrived == others.arrived
        && losses.received == others.received
        && losses.queued == others.queued
        && losses.ring == others.ring
        && losses.driver == others.driver
        && losses.reset == others.reset
        && losses.full_ring == others.full_ring
        && losses.full_queue == others.full_queue
}

impl Same for PartOutcome {
    fn is_same(&self, other: &PartOutcome) -> bool {
        self.failures == other.failures
            && self.broken.is_same(&other.broken)
            && self.config.is_same(&other.config)
            && are_same_losses(&self.losses, &other.losses)
            && self.given.is_same(&other.given)
            && self.medium.is_same(&other.medium)
            && self.objects.is_same(&other.objects)
    }
}

impl Same for Outcome {
    fn is_same(&self, other: &Outcome) -> bool {
        self.answers.is_same(&other.answers) && self.parts.is_same(&other.parts)
    }
}
