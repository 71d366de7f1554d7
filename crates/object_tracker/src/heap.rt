//! The heap: the lowest free run of words.

ghost use Rattle.std.specs.Prelude.{◌≡◌, ◌+◌, ◌-◌, ◌<◌, ◌≤◌, length, count_by};
ghost use Rattle.machine_defs.specs.Entries.{is_heap_use, covers_some, overlap, is_free_run, lowest_run, free_start};

use crate::ordered::Ordered;
use nook_data::entries::Entry;
use nook_data::limits::MOST_HEAP_ENTRIES;
use nook_data::lists::Word;
use nook_data::memory_map::{DATA_END, DATA_WORDS, OBJECT_WORDS};

/// The lowest start of `n` free heap words: `None` if no run of free words is long enough, or there are already 64 heap
/// and borrow entries.
pub fn free_start(entries: &Ordered, heap_start: u32, n: u32) -> Option<Word>
    requires start { heap_start ≤ DATA_END }
    requires n { n ≤ DATA_WORDS }
    ensures { result ≡ free_start heap_start n entries.now }
{
    if heap_count(entries) < MOST_HEAP_ENTRIES {
        lowest_run(entries, heap_start, n)
    } else {
        None
    }
}

/// The number of heap and borrow entries.
fn heap_count(entries: &Ordered) -> usize
    ensures { result ≡ count_by is_heap_use entries.now }
{
    let mut count = 0;
    for index in 0..entries.len() {
        count += usize::from(is_heap_use(entries.get(index)));
    }
    count
}

fn is_heap_use(entry: Entry) -> bool
    ensures { result ≡ is_heap_use entry }
{
    matches!(
        entry,
        Entry::Heap { start: _, len: _ }
            | Entry::Borrow {
                object: _,
                start: _
            }
    )
}

/// The lowest start of `n` free heap words.
fn lowest_run(entries: &Ordered, heap_start: u32, n: u32) -> Option<Word>
    requires n { n ≤ DATA_WORDS }
    ensures { result ≡ lowest_run (DATA_END + 1 - (heap_start + n)) entries.now heap_start n }
{
    for start in heap_start..DATA_END + 1 - n {
        if is_free_run(entries, start, n) {
            return Some(start);
        }
    }
    None
}

/// Whether `n` words from a start on are free.
fn is_free_run(entries: &Ordered, start: u32, n: u32) -> bool
    ensures { result ≡ is_free_run entries.now start n }
{
    for index in 0..entries.len() {
        if covers_some(entries.get(index), start, n) {
            return false;
        }
    }
    true
}

/// Whether the entry covers one of `n` words from a start on.
fn covers_some(entry: Entry, start: u32, n: u32) -> bool
    ensures { result ≡ covers_some start n entry }
{
    match entry {
        Entry::Heap { start: other, len } => overlap(start, n, other, len),
        Entry::Borrow {
            object: _,
            start: other,
        } => overlap(start, n, other, OBJECT_WORDS),
        _ => false,
    }
}

/// Whether two runs of words overlap.
fn overlap(start: u32, n: u32, other: u32, len: u32) -> bool
    ensures { result ≡ overlap start n other len }
{
    let (start, other) = (u64::from(start), u64::from(other));
    start < other + u64::from(len) && other < start + u64::from(n)
}
