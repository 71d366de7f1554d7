//! Entries in Collect's order: where one belongs, which end, which exist.

ghost use Rattle.std.specs.Prelude.{◌≡◌, ◌+◌, ◌-◌, ◌^◌, ◌↔◌, ◌<◌, ◌≤◌, [], ◌∷◌, ◌++◌, length, take, drop, filter};
ghost use Rattle.std.specs.Prelude.{insert, not, Contains, IsTrue, IfOk};
ghost use Rattle.std.specs.List.{list_any};
ghost use Rattle.machine_defs.specs.Entries.{rank, key_of, comes_before, with_entry, with_live, registered, released};
ghost use Rattle.machine_defs.specs.Entries.{borrow_start};
ghost use Rattle.object_tracker.specs.Tracked.{fits};

use crate::ordered::Ordered;
use crate::query::{Query, fits, is_registration};
use nook_data::entries::{Entry, Released};
use nook_data::lists::{Items, Word};
use nook_data::memory::NoMemory;
use std::alloc::Global;

/// The rank of the entry's kind in Collect's order.
fn rank(entry: Entry) -> u8
    ensures { result ≡ rank entry }
{
    match entry {
        Entry::Heap { start: _, len: _ } => 0,
        Entry::Borrow {
            object: _,
            start: _,
        } => 1,
        Entry::Buffer {
            context: _,
            writable: _,
        } => 2,
        Entry::Registration { live: _ } => 3,
    }
}

/// What orders the entries of one kind.
fn key_of(entry: Entry) -> u32
    ensures { result ≡ key_of entry }
{
    match entry {
        Entry::Heap { start, len: _ } => start,
        Entry::Borrow { object, start: _ } => object,
        Entry::Buffer {
            context,
            writable: _,
        } => u32::from(context),
        Entry::Registration { live: _ } => 0,
    }
}

/// Whether the first entry comes before the second in Collect's order.
fn comes_before(first: Entry, second: Entry) -> bool
    ensures { result ≡ comes_before first second }
{
    rank(first) < rank(second) || rank(first) == rank(second) && key_of(first) < key_of(second)
}

/// The index at which an entry belongs.
fn position_of(entries: &Ordered, entry: Entry) -> usize
    ensures within { result ≤ length entries.now }
    ensures index { insert entries.now result entry ≡ with_entry entry entries.now }
{
    for index in 0..entries.len() {
        if comes_before(entry, entries.get(index)) {
            return index;
        }
    }
    entries.len()
}

/// Inserts an entry where it belongs.
pub fn add(entries: &mut Ordered, entry: Entry)
    requires { length entries.old < 82 }
    ensures { entries.new ≡ with_entry entry entries.old }
{
    let index = position_of(entries, entry);
    entries.insert(index, entry);
}

/// Removes the entries that match.
pub fn end_all(entries: &mut Ordered, query: Query)
    ensures { entries.new ≡ filter (λ e. not (fits query e)) entries.old }
{
    let mut index = 0;
    while index < entries.len() {
        index = end_at(entries, index, query);
    }
}

/// Removes the entry at an index if it matches; returns the next index to look at.
fn end_at(entries: &mut Ordered, index: usize, query: Query) -> usize
    requires index { index < length entries.old }
    requires fits { index + 1 < 2 ^ 64 }
    ensures within { result ≤ length entries.new }
    ensures nearer { length entries.new - result < length entries.old - index }
    ensures same { take result entries.new
        ++ filter (λ e. not (fits query e)) (drop result entries.new)
        ≡ take index entries.old ++ filter (λ e. not (fits query e)) (drop index entries.old) }
{
    if fits(query, entries.get(index)) {
        entries.remove(index);
        index
    } else {
        index + 1
    }
}

/// Whether some entry matches.
pub fn has(entries: &Ordered, query: Query) -> bool
    ensures { result ≡ list_any (fits query) entries.now }
{
    for index in 0..entries.len() {
        if fits(query, entries.get(index)) {
            return true;
        }
    }
    false
}

/// Whether exactly this entry exists.
pub fn holds(entries: &Ordered, entry: Entry) -> bool
    ensures { IsTrue result ↔ Contains entries.now entry }
{
    for index in 0..entries.len() {
        if entries.get(index) == entry {
            return true;
        }
    }
    false
}

/// Where the copy of an object begins, if the object is borrowed.
pub fn borrow_start(entries: &Ordered, query: u32) -> Option<Word>
    ensures { result ≡ borrow_start query entries.now }
{
    for index in 0..entries.len() {
        if let Some(start) = copy_start(entries.get(index), query) {
            return Some(start);
        }
    }
    None
}

/// Where the copy of an object begins, if the entry is its copy.
fn copy_start(entry: Entry, query: u32) -> Option<Word>
    ensures { result ≡ borrow_start query (entry ∷ []) }
{
    match entry {
        Entry::Borrow { object, start } => if object == query { Some(start) } else { None },
        _ => None,
    }
}

/// Makes the registration live or not.
pub fn set_live(entries: &mut Ordered, live: bool)
    requires { length entries.old ≤ 82 }
    ensures { entries.new ≡ registered live entries.old }
{
    for index in 0..entries.len() {
        let entry = with_live(entries.get(index), live);
        entries.remove(index);
        entries.insert(index, entry);
    }
}

/// The registration, live or not; any other entry unchanged.
fn with_live(entry: Entry, live: bool) -> Entry
    ensures { result ≡ with_live live entry }
{
    match entry {
        Entry::Registration { live: _ } => Entry::Registration { live },
        _ => entry,
    }
}

/// A list of the entries without the registration.
pub fn held(alloc: Global, entries: &Ordered) -> Result<Released, NoMemory>
    ensures { IfOk result (λ made. made ≡ released entries.now) }
{
    let mut made = Items::new(alloc);
    for index in 0..entries.len() {
        keep_held(&mut made, entries.get(index))?;
    }
    Ok(made)
}

/// Adds the entry to the list unless it is the registration.
fn keep_held(made: &mut Released, entry: Entry) -> Result<(), NoMemory>
    ensures { IfOk result (λ _. made.new ≡ made.old ++ released (entry ∷ [])) }
{
    if is_registration(entry) {
        Ok(())
    } else {
        made.push(entry)
    }
}
