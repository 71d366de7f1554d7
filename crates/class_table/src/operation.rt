//! The static check: what is wrong with an operation, whatever its part's state.

ghost use Rattle.std.specs.Prelude.{◌≡◌, ◌+◌, ◌<◌, ◌≤◌, ◌^◌, IsNone};
ghost use Rattle.nook_data.specs.Classes.{blocks_of_op, check_length, check_op, check_range, first_of_op, is_of_class};
ghost use Rattle.nook_data.specs.Classes.{static_check};

use crate::config::maximum_of;
use nook_data::calls::{Answer, Op};
use nook_data::classes::Class;
use nook_data::limits::{BLOCK_WORDS, MOST_BLOCKS, MOST_FRAME_WORDS};
use nook_data::lists::Words;

/// The answer that an operation gets in every state, if there is one: it is of another class, a length or a key
/// is wrong, a value is too large, or a block is past the end of a disk of `blocks` blocks.
pub fn static_check(class: Class, blocks: u32, op: &Op) -> Option<Answer>
    ensures answer { result ≡ static_check class blocks op.now }
    ensures range { IsNone result → first_of_op op.now + blocks_of_op op.now ≤ blocks }
{
    if is_of_class(class, op) {
        check_op(class, blocks, op)
    } else {
        Some(Answer::BadClass)
    }
}

/// Whether the class has the operation.
pub fn is_of_class(class: Class, op: &Op) -> bool
    ensures { result ≡ is_of_class class op.now }
{
    match op {
        Op::Read { .. } | Op::Write { .. } => matches!(class, Class::Block),
        Op::Send { .. } | Op::Recv => matches!(class, Class::Net),
        Op::Open | Op::Play { .. } | Op::Close => matches!(class, Class::Sound),
        Op::Get { .. } | Op::Set { .. } => true,
    }
}

/// What is wrong with an operation of the class.
fn check_op(class: Class, blocks: u32, op: &Op) -> Option<Answer>
    ensures { result ≡ check_op class blocks op.now }
{
    match op {
        Op::Read { first, count } => {
            if 1 <= *count && *count <= MOST_BLOCKS {
                check_range(blocks, *first, *count)
            } else {
                Some(Answer::BadLength)
            }
        }
        Op::Write { first, words } => {
            let len = words.len();
            if BLOCK_WORDS <= len
                && len <= BLOCK_WORDS * MOST_BLOCKS as usize
                && len % BLOCK_WORDS == 0
            {
                check_range(blocks, *first, (len / BLOCK_WORDS) as u32)
            } else {
                Some(Answer::BadLength)
            }
        }
        Op::Send { frame: words } | Op::Play { samples: words } => check_length(words),
        Op::Recv | Op::Open | Op::Close => None,
        Op::Get { key } => {
            if *key <= 3 {
                None
            } else {
                Some(Answer::BadKey)
            }
        }
        Op::Set { key, value } => {
            if *key > 3 {
                Some(Answer::BadKey)
            } else if *value <= maximum_of(class, *key) {
                None
            } else {
                Some(Answer::BadValue)
            }
        }
    }
}

/// What is wrong with a range of blocks on a disk of `blocks`. The sum of the range does not wrap.
fn check_range(blocks: u32, first: u32, count: u32) -> Option<Answer>
    ensures { result ≡ check_range blocks first count }
{
    if u64::from(first) + u64::from(count) <= u64::from(blocks) {
        None
    } else {
        Some(Answer::BadRange)
    }
}

/// What is wrong with the length of a frame or of samples.
fn check_length(words: &Words) -> Option<Answer>
    ensures { result ≡ check_length words.now }
{
    if 1 <= words.len() && words.len() <= MOST_FRAME_WORDS {
        None
    } else {
        Some(Answer::BadLength)
    }
}

/// How many blocks a Read or Write covers; 0 for any other operation.
pub fn blocks_of_op(op: &Op) -> u64
    ensures count { result ≡ blocks_of_op op.now }
    ensures bound { result < 2 ^ 60 }
{
    match op {
        Op::Read { count, .. } => u64::from(*count),
        Op::Write { words, .. } => (words.len() / BLOCK_WORDS) as u64,
        _ => 0,
    }
}

/// The first block of a Read or Write; 0 for any other operation.
pub fn first_of_op(op: &Op) -> u32
    ensures { result ≡ first_of_op op.now }
{
    match op {
        Op::Read { first, .. } | Op::Write { first, .. } => *first,
        _ => 0,
    }
}
