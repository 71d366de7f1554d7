//! The words of an operation that are copied in, and those of its answer that are copied out.

ghost use Rattle.std.specs.Prelude.{◌≡◌, ◌+◌, ◌<◌, ◌≤◌, true, false, if◌then◌else◌, length, slice_range, slice_set};
ghost use Rattle.std.specs.Prelude.{IfSome};
ghost use Rattle.std.specs.List.{list_any};
ghost use Rattle.part_defs.specs.Domain.{arguments_of, buffer_of, lent, lent_memory, lent_entries};
ghost use Rattle.machine_defs.specs.Entries.{is_buffer_of, without_buffer};
ghost use Rattle.nook_data.specs.Layout.{buffer_start};
ghost use Rattle.param_wrappers.specs.Crossing.{arguments, lent_own, with_loan};

use domain_pages::PageMap;
use nook_data::calls::Op;
use nook_data::limits::{BLOCK_WORDS, CONTEXTS};
use nook_data::lists::{Word, Words};
use nook_data::memory::Room;
use nook_data::memory_map::{BUFFER_WORDS, buffer_start};
use object_tracker::Tracker;

/// The values of registers r1 to r3 at an entry.
#[derive(Clone, Copy)]
pub struct Args {
    pub r1: Word,
    pub r2: Word,
    pub r3: Word,
}

/// Puts an operation's words, then zeros, into a context's buffer; lends it, for writing if the driver is to
/// answer words; and returns the entry's arguments. For an entry without a buffer it only returns the arguments. The
/// context is at most 16 and has no buffer, and the operation has at most 128 words. It takes no memory.
pub fn copy_in(pages: &mut PageMap, tracker: &mut Tracker, context: u8, op: &Op) -> Args
    requires context { context < CONTEXTS }
    requires free { list_any (is_buffer_of context) tracker.old.entries ≡ false }
    requires few { IfSome (buffer_of op.now) (λ l. length l.words ≤ BUFFER_WORDS) }
    ensures arguments { arguments result ≡ arguments_of context op.now }
    ensures words { pages.new.words ≡ lent_memory context (buffer_of op.now) pages.old.words }
    ensures loans { pages.new.lent ≡ with_loan context (buffer_of op.now) pages.old.lent }
    ensures own { pages.new.own ≡ lent_own context (buffer_of op.now) pages.old.own }
    ensures entries { tracker.new
        ≡ record tracker.old {
          entries = lent_entries context
              (buffer_of op.now) tracker.old.entries;
        } }
{
    let r3 = buffer_start(context);
    match op {
        Op::Read { first, count } => {
            lend(pages, tracker, context, &[], true);
            Args {
                r1: *first,
                r2: *count,
                r3,
            }
        }
        Op::Write { first, words } => {
            lend(pages, tracker, context, words.as_slice(), false);
            Args {
                r1: *first,
                r2: (words.len() / BLOCK_WORDS) as u32,
                r3,
            }
        }
        Op::Send { frame } => {
            lend(pages, tracker, context, frame.as_slice(), false);
            Args {
                r1: 0,
                r2: frame.len() as u32,
                r3,
            }
        }
        Op::Play { samples } => {
            lend(pages, tracker, context, samples.as_slice(), false);
            Args {
                r1: 0,
                r2: samples.len() as u32,
                r3,
            }
        }
        Op::Get { key } => {
            lend(pages, tracker, context, &[], true);
            Args {
                r1: *key,
                r2: 0,
                r3,
            }
        }
        Op::Set { key, value } => Args {
            r1: *key,
            r2: *value,
            r3: 0,
        },
        Op::Recv | Op::Open | Op::Close => Args {
            r1: 0,
            r2: 0,
            r3: 0,
        },
    }
}

/// Puts words, then zeros, into a context's buffer, and lends it.
fn lend(pages: &mut PageMap, tracker: &mut Tracker, context: u8, words: &[Word], writable: bool)
    requires context { context < CONTEXTS }
    requires free { list_any (is_buffer_of context) tracker.old.entries ≡ false }
    requires few { length words.now ≤ BUFFER_WORDS }
    ensures words { pages.new.words
        ≡ lent_memory context (lent writable words.now) pages.old.words }
    ensures loans { pages.new.lent ≡ with_loan context (lent writable words.now) pages.old.lent }
    ensures own { pages.new.own ≡ lent_own context (lent writable words.now) pages.old.own }
    ensures entries { tracker.new
        ≡ record tracker.old {
          entries = lent_entries context
              (lent writable words.now) tracker.old.entries;
        } }
{
    pages.put_words(buffer_start(context), words, BUFFER_WORDS);
    tracker.begin_buffer(context, writable);
    if writable {
        pages.lend(context);
    }
}

/// The first `count` words of a context's buffer, at most 128, in the memory of `room`, which has room for them; the
/// loan ends. The context is at most 16. It takes no memory.
pub fn copy_out(
    pages: &mut PageMap,
    tracker: &mut Tracker,
    context: u8,
    count: u32,
    room: Room<Word>,
) -> Words
    requires context { context < CONTEXTS }
    requires few { count ≤ BUFFER_WORDS }
    requires room { count ≤ room }
    ensures words { result
        ≡ slice_range pages.old.words (buffer_start context) (buffer_start context + count) }
    ensures pages { pages.new ≡ record pages.old { lent = slice_set pages.old.lent context false } }
    ensures entries { tracker.new
        ≡ record tracker.old { entries = without_buffer context tracker.old.entries } }
{
    let words = pages.words(buffer_start(context), count, room);
    pages.revoke(context);
    tracker.end_buffer(context);
    words
}
