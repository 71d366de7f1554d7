//! Which sides stay, and what a mirror answers, from what the sides said.

ghost use Rattle.std.specs.Prelude.{◌≡◌};
ghost use Rattle.mirror_block.specs.Rule.{after_asking, after_failed_write, after_read, after_write, failed_block};
ghost use Rattle.mirror_block.specs.Rule.{failed_read, is_done, read_answer, stays_after_read, words_read};
ghost use Rattle.mirror_block.specs.Outcomes.{Decides};

use nook_data::calls::{Answer, Op};
use nook_data::mirror::MirrorAnswer;

/// Which sides stay, and what the mirror answers.
#[derive(Drop)]
pub struct Outcome {
    pub left: bool,
    pub right: bool,
    pub answer: MirrorAnswer,
}

/// Whether a side did a write.
fn is_done(said: &Option<Answer>) -> bool
    ensures { result ≡ is_done said.now }
{
    matches!(said, Some(Answer::Done))
}

/// The block at which a side's medium failed.
fn failed_block(said: &Option<Answer>) -> Option<u32>
    ensures { result ≡ failed_block said.now }
{
    match said {
        Some(Answer::IoError { block }) => Some(*block),
        _ => None,
    }
}

/// Whether a side is present after a read.
fn stays_after_read(present: bool, said: &Option<Answer>) -> bool
    ensures { result ≡ stays_after_read present said.now }
{
    match said {
        None => present,
        Some(Answer::Blocks(_) | Answer::IoError { .. }) => true,
        Some(_) => false,
    }
}

/// The outcome if no side did a write: the first side whose medium failed stays alone.
fn after_failed_write(left: Option<u32>, right: Option<u32>) -> Outcome
    ensures { Decides result (after_failed_write left right) }
{
    match (left, right) {
        (Some(block), _) => Outcome {
            left: true,
            right: false,
            answer: MirrorAnswer::IoError { block },
        },
        (None, Some(block)) => Outcome {
            left: false,
            right: true,
            answer: MirrorAnswer::IoError { block },
        },
        (None, None) => Outcome {
            left: false,
            right: false,
            answer: MirrorAnswer::BothLost,
        },
    }
}

/// The outcome of a write: the sides that did it stay.
fn after_write(left: &Option<Answer>, right: &Option<Answer>) -> Outcome
    ensures { Decides result (after_write left.now right.now) }
{
    let left_did = is_done(left);
    let right_did = is_done(right);
    if left_did || right_did {
        return Outcome {
            left: left_did,
            right: right_did,
            answer: MirrorAnswer::Done,
        };
    }
    after_failed_write(failed_block(left), failed_block(right))
}

/// The answer to a read if no side gave blocks.
fn failed_read(left: Option<u32>, right: Option<u32>) -> MirrorAnswer
    ensures { result ≡ failed_read left right }
{
    match left.or(right) {
        Some(block) => MirrorAnswer::IoError { block },
        None => MirrorAnswer::BothLost,
    }
}

/// The answer to a read: the blocks of the first side that gave any.
fn read_answer(left: Option<Answer>, right: Option<Answer>) -> MirrorAnswer
    ensures { result ≡ read_answer (words_read left) (words_read right)
        (failed_read (failed_block left) (failed_block right)) }
{
    let failed = failed_read(failed_block(&left), failed_block(&right));
    match (left, right) {
        (Some(Answer::Blocks(words)), _) => MirrorAnswer::Blocks(words),
        (_, Some(Answer::Blocks(words))) => MirrorAnswer::Blocks(words),
        _ => failed,
    }
}

/// The outcome of a read, given which sides were present.
fn after_read(
    left_present: bool,
    right_present: bool,
    left: Option<Answer>,
    right: Option<Answer>,
) -> Outcome
    ensures { Decides result
        (after_read (record { left = left_present; right = right_present }) left right) }
{
    let left_stays = stays_after_read(left_present, &left);
    let right_stays = stays_after_read(right_present, &right);
    Outcome {
        left: left_stays,
        right: right_stays,
        answer: read_answer(left, right),
    }
}

/// The outcome of a read or a write, given which sides were present.
pub fn after_asking(
    op: &Op,
    left_present: bool,
    right_present: bool,
    left: Option<Answer>,
    right: Option<Answer>,
) -> Outcome
    ensures { Decides result
        (after_asking (record { left = left_present; right = right_present }) op.now left right) }
{
    match op {
        Op::Write { .. } => after_write(&left, &right),
        _ => after_read(left_present, right_present, left, right),
    }
}
