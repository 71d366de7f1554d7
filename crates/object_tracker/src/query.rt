//! Which entries are looked for.

ghost use Rattle.std.specs.Prelude.{◌≡◌, true, false};
ghost use Rattle.machine_defs.specs.Entries.{is_registration, is_live};
ghost use Rattle.object_tracker.specs.Tracked.{fits};

use nook_data::entries::Entry;

/// Which entries are looked for or ended.
#[derive(Clone, Copy)]
pub enum Query {
    /// The heap words that start there.
    Heap { start: u32 },
    /// The copy of the object.
    Borrow { object: u32 },
    /// The buffer of the context.
    Buffer { context: u8 },
    /// Everything but the registration.
    Held,
    /// A live registration.
    Live,
}

/// Whether the entry matches.
pub fn fits(query: Query, entry: Entry) -> bool
    ensures { result ≡ fits query entry }
{
    match query {
        Query::Heap { start } => is_heap_at(start, entry),
        Query::Borrow { object } => is_borrow_of(object, entry),
        Query::Buffer { context } => is_buffer_of(context, entry),
        Query::Held => !is_registration(entry),
        Query::Live => is_live(entry),
    }
}

fn is_heap_at(address: u32, entry: Entry) -> bool
    ensures { result ≡ fits (Query.Heap address) entry }
{
    match entry {
        Entry::Heap { start, len: _ } => start == address,
        _ => false,
    }
}

fn is_borrow_of(query: u32, entry: Entry) -> bool
    ensures { result ≡ fits (Query.Borrow query) entry }
{
    match entry {
        Entry::Borrow { object, start: _ } => object == query,
        _ => false,
    }
}

fn is_buffer_of(query: u8, entry: Entry) -> bool
    ensures { result ≡ fits (Query.Buffer query) entry }
{
    match entry {
        Entry::Buffer {
            context,
            writable: _,
        } => context == query,
        _ => false,
    }
}

/// Whether the entry is the registration.
pub fn is_registration(entry: Entry) -> bool
    ensures { result ≡ is_registration entry }
{
    matches!(entry, Entry::Registration { live: _ })
}

fn is_live(entry: Entry) -> bool
    ensures { result ≡ is_live entry }
{
    match entry {
        Entry::Registration { live } => live,
        _ => false,
    }
}
