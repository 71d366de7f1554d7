//! The blocks of a disk, as the contract compares them.

ghost use Rattle.std.specs.Prelude.{◌≡◌, ◌++◌, ◌*◌, [], length, take, drop, replicate, slice_get, slice_set, unwrap_or};
ghost use Rattle.std.specs.Prelude.{IfOk, OnOk};
ghost use Rattle.promise_defs.specs.Blocks.{blank_blocks, get_blocks, has_block, holds_from, words_for};
ghost use Rattle.nook_data.specs.Classes.{covers};
ghost use Rattle.contract_monitor.specs.Questions.{holds_block};

use class_table::{blocks_of_op, first_of_op};
use nook_data::calls::Op;
use nook_data::classes::Class;
use nook_data::limits::BLOCK_WORDS;
use nook_data::lists::{TryCopy, Words};
use nook_data::memory::NoMemory;
use std::alloc::Global;
use std::collections::VecDeque;

/// Whether a Read or Write covers the block.
pub fn covers(op: &Op, block: u64) -> bool
    ensures { result ≡ covers op.now block }
{
    let first = u64::from(first_of_op(op));
    first <= block && block < first + blocks_of_op(op)
}

/// The words of one block among those of several blocks; missing words are left out.
fn block_at(words: &[u32], index: u64) -> &[u32]
    ensures { result.now ≡ take BLOCK_WORDS (drop (BLOCK_WORDS * index) words.now) }
{
    let at = index.saturating_mul(BLOCK_WORDS as u64);
    if words.len() as u64 <= at {
        return &[];
    }
    let (_, rest) = words.split_at(at as usize);
    if rest.len() <= BLOCK_WORDS {
        return rest;
    }
    rest.split_at(BLOCK_WORDS).0
}

/// A Write's words for a block that it covers.
pub fn words_for(op: &Op, block: u64) -> &[u32]
    ensures { result.now ≡ words_for op.now block }
{
    match op {
        Op::Write { first, words } => {
            let index = block.saturating_sub(u64::from(*first));
            block_at(words.as_slice(), index)
        }
        _ => &[],
    }
}

/// A disk of `count` zeroed blocks; the other classes have no blocks.
pub fn blank_blocks(alloc: Global, class: Class, count: u32) -> Result<Vec<Words>, NoMemory>
    ensures { IfOk result (λ made. made.items ≡ blank_blocks class count) }
{
    match class {
        Class::Block => blank(alloc, count),
        Class::Net | Class::Sound => Ok(Vec::new(alloc)),
    }
}

/// A list of zeroed blocks.
fn blank(alloc: Global, count: u32) -> Result<Vec<Words>, NoMemory>
    ensures { IfOk result (λ made. made.items ≡ replicate count (replicate BLOCK_WORDS 0)) }
{
    let mut made = Vec::new(alloc);
    for _block in 0..count {
        made.push(Words::from_vec(vec![in alloc; 0; BLOCK_WORDS]?))?;
    }
    Ok(made)
}

/// A copy of blocks or frames.
pub fn copy_blocks(alloc: Global, blocks: &[Words]) -> Result<Vec<Words>, NoMemory>
    ensures { IfOk result (λ made. made.items ≡ blocks.now) }
{
    let mut made = Vec::with_capacity(alloc, blocks.len())?;
    for block in blocks {
        made.push(block.copied(alloc)?)?;
    }
    Ok(made)
}

/// A copy of a queue.
pub fn copy_queue<T: TryCopy + Drop>(
    alloc: Global,
    queue: &VecDeque<T>,
) -> Result<VecDeque<T>, NoMemory>
    ensures { IfOk result (λ made. made.items ≡ queue.now.items) }
{
    let mut made = VecDeque::new(alloc);
    for i in 0..queue.len() {
        made.push_back(queue[i].copy(alloc)?)?;
    }
    Ok(made)
}

/// Sets a block's words; a number past the last block changes nothing. It takes no memory for as many words as before.
pub fn set_block(
    alloc: Global,
    medium: &mut [Words],
    block: u32,
    words: &Words,
) -> Result<(), NoMemory>
    ensures { OnOk result (medium.new ≡ slice_set medium.old block words.now) }
{
    if (block as usize) < medium.len() {
        set_words(alloc, &mut medium[block as usize], words)?;
    }
    Ok(())
}

/// Gives a list the words of another one.
fn set_words(alloc: Global, list: &mut Words, words: &Words) -> Result<(), NoMemory>
    ensures { OnOk result (list.new ≡ words.now) }
{
    if list.len() == words.len() {
        overwrite(list, words);
    } else {
        *list = words.copied(alloc)?;
    }
    Ok(())
}

/// Overwrites the words of a list by those of another one of the same length. It takes no memory.
fn overwrite(list: &mut Words, words: &Words)
    requires { length list.old ≡ length words.now }
    ensures { list.new ≡ words.now }
{
    for index in 0..words.len() {
        list.set(index, *words.get(index));
    }
}

/// Whether a block that the operation covers has its words.
fn holds_block(op: &Op, block: u64, words: &[u32]) -> bool
    ensures { result ≡ holds_block op.now block words.now }
{
    !covers(op, block) || words == words_for(op, block)
}

/// Whether each block that a Write covers has its words.
pub fn holds(op: &Op, medium: &[Words]) -> bool
    ensures { result ≡ holds_from 0 op.now medium.now }
{
    let mut block = 0_u64;
    for words in medium {
        if !holds_block(op, block, words.as_slice()) {
            return false;
        }
        block += 1;
    }
    true
}

/// A block's words, if there is such a block.
fn block_words(medium: &[Words], block: u64) -> &[u32]
    ensures { result.now ≡ unwrap_or (slice_get medium.now block) [] }
{
    if block < medium.len() as u64 {
        medium[block as usize].as_slice()
    } else {
        &[]
    }
}

/// The words of `count` blocks from a first one on, one block after the other.
pub fn get_blocks(
    alloc: Global,
    medium: &[Words],
    first: u32,
    count: u32,
) -> Result<Words, NoMemory>
    ensures { IfOk result (λ made. made ≡ get_blocks medium.now first count) }
{
    let mut made = Vec::with_capacity(alloc, count as usize * BLOCK_WORDS)?;
    for i in 0..count {
        let words = block_words(medium, u64::from(first) + u64::from(i));
        made.extend_from_slice(words)?;
    }
    Ok(Words::from_vec(made))
}

/// Whether a block is among these.
pub fn has_block(block: u32, blocks: &VecDeque<u32>) -> bool
    ensures { result ≡ has_block block blocks.now.items }
{
    for i in 0..blocks.len() {
        if blocks[i] == block {
            return true;
        }
    }
    false
}
