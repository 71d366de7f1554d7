//! What is wrong with an operation, whatever the state of the sides.

ghost use Rattle.std.specs.Prelude.{◌≡◌, length};
ghost use Rattle.nook_data.specs.Classes.{static_check};
ghost use Rattle.mirror_block.specs.Rule.{blocks_filled, refusal_by};

use class_table::static_check;
use nook_data::calls::{Answer, Op};
use nook_data::classes::Class;
use nook_data::limits::{BLOCK_WORDS, MOST_BLOCKS};
use nook_data::lists::Words;
use nook_data::mirror::MirrorAnswer;

/// The number of words in the most blocks that one operation may cover.
const MOST_WORDS: usize = BLOCK_WORDS * MOST_BLOCKS as usize;

/// What a mirror with `blocks` blocks answers to an operation on `count` blocks from `first` on, without asking a side.
pub fn refusal(blocks: u32, first: u32, count: u32) -> Option<MirrorAnswer>
    ensures { result ≡ refusal_by (static_check Class.Block blocks (Op.Read first count)) }
{
    let op = Op::Read { first, count };
    match static_check(Class::Block, blocks, &op) {
        Some(Answer::BadLength) => Some(MirrorAnswer::BadLength),
        Some(Answer::BadRange) => Some(MirrorAnswer::BadRange),
        _ => None,
    }
}

/// How many blocks these words fill; 0 if they do not fill whole blocks, or fill more than one operation may cover.
pub fn blocks_filled(words: &Words) -> u32
    ensures { result ≡ blocks_filled (length words.now) }
{
    let len = words.len();
    if len > MOST_WORDS || len % BLOCK_WORDS != 0 {
        return 0;
    }
    (len / BLOCK_WORDS) as u32
}
