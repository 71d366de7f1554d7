//! The tracker.

ghost use Rattle.std.specs.Prelude.{◌≡◌, ◌+◌, ◌↔◌, ◌<◌, ◌≤◌, true, false, not, Contains, Decides, IsTrue, IfNone, IfSome, IfOk};
ghost use Rattle.std.specs.Prelude.{OnErr, OnOk};
ghost use Rattle.std.specs.List.{list_any};
ghost use Rattle.machine_defs.specs.Entries.{opening_entries, with_entry, without_heap, without_borrow, without_buffer};
ghost use Rattle.machine_defs.specs.Entries.{is_heap_at, is_borrow_of, is_buffer_of, is_registered, registered};
ghost use Rattle.machine_defs.specs.Entries.{collected};
ghost use Rattle.machine_defs.specs.Entries.{released, borrow_start, free_start};

use crate::heap::free_start;
use crate::listing::{add, borrow_start, end_all, has, held, holds, set_live};
use crate::ordered::Ordered;
use crate::query::Query;
use nook_data::entries::{Entry, Released};
use nook_data::limits::CONTEXTS;
use nook_data::lists::{TryCopy, Word};
use nook_data::memory::NoMemory;
use nook_data::memory_map::{DATA_END, DATA_WORDS, LAST_OBJECT, OBJECT_WORDS};
use std::alloc::Global;
use std::marker::Model;

/// What a driver holds. Contracts see where the heap begins, and the entries in Collect's order: heap by start,
/// copies by object, buffers by context, the registration last.
pub struct Tracker {
    alloc: Global,
    heap_start: u32,
    entries: Ordered,
}

impl Model for Tracker {
    ghost use Rattle.machine_defs.specs.Views.Tracker.{Tracker};
    ghost use Rattle.object_tracker.specs.Tracked.{IsTracked};

    ghost Value = { Tracker };

    ghost view = { λ s. record { heap_start = s.heap_start; entries = s.entries } };

    ghost invariant = { λ s. IsTracked s.heap_start s.entries };
}

impl Drop for Tracker {
    /// Written by hand, so that it is proved once and not in each function that owns a tracker.
    fn drop(self) {
        let Tracker {
            alloc: _,
            heap_start: _,
            entries: _,
        } = self;
    }
}

impl Tracker {
    /// The tracker of a new domain, with a registration that is not live. The heap is the words from
    /// `heap_start` (2,048 to 4,096) to 4,095. It allocates room for the maximum number of entries.
    pub fn new(alloc: Global, heap_start: u32) -> Result<Tracker, NoMemory>
        requires { heap_start ≤ DATA_END }
        ensures { IfOk result
            (λ made. made ≡ record { heap_start = heap_start; entries = opening_entries }) }
    {
        let mut entries = Ordered::new(alloc)?;
        entries.insert(0, Entry::Registration { live: false });
        Ok(Tracker {
            alloc,
            heap_start,
            entries,
        })
    }

    /// Gives 1 to 2,048 heap words to the driver and returns their start, the lowest possible. `None`, with nothing
    /// changed, if no run of free words is long enough, or there are already 64 heap and borrow entries.
    pub fn alloc(&mut self, n: u32) -> Option<Word>
        requires { n ≤ DATA_WORDS }
        ensures start { result ≡ free_start self.old.heap_start n self.old.entries }
        ensures none { IfNone result (self.new ≡ self.old) }
        ensures some { IfSome result (λ start. self.new
            ≡ record self.old { entries = with_entry (Entry.Heap start n) self.old.entries }) }
    {
        let start = free_start(&self.entries, self.heap_start, n)?;
        add(&mut self.entries, Entry::Heap { start, len: n });
        Some(start)
    }

    /// Ends the heap words that start there; false exactly if there are none.
    pub fn free(&mut self, address: u32) -> bool
        ensures held { result ≡ list_any (is_heap_at address) self.old.entries }
        ensures ended { self.new
            ≡ record self.old { entries = without_heap address self.old.entries } }
    {
        let query = Query::Heap { start: address };
        let held = has(&self.entries, query);
        end_all(&mut self.entries, query);
        held
    }

    /// Whether heap words start there.
    pub fn is_heap_start(&self, address: u32) -> bool
        ensures { result ≡ list_any (is_heap_at address) self.now.entries }
    {
        has(&self.entries, Query::Heap { start: address })
    }

    /// Gives 64 heap words to the copy of a kernel object up to 12, as `alloc` does.
    pub fn borrow(&mut self, object: u32) -> Option<Word>
        requires { object ≤ LAST_OBJECT }
        ensures within { IfSome result (λ start. start + OBJECT_WORDS ≤ DATA_END) }
        ensures start { result ≡ free_start self.old.heap_start OBJECT_WORDS self.old.entries }
        ensures none { IfNone result (self.new ≡ self.old) }
        ensures some { IfSome result (λ start. self.new
            ≡ record self.old {
              entries = with_entry
                  (Entry.Borrow object start) self.old.entries;
            }) }
    {
        let start = free_start(&self.entries, self.heap_start, OBJECT_WORDS)?;
        add(&mut self.entries, Entry::Borrow { object, start });
        Some(start)
    }

    /// Ends the copy of the object and returns its start; `None`, with nothing changed, exactly if the
    /// object is not borrowed.
    pub fn give_back(&mut self, object: u32) -> Option<Word>
        ensures start { result ≡ borrow_start object self.old.entries }
        ensures within { IfSome result (λ start. start + OBJECT_WORDS ≤ DATA_END) }
        ensures none { IfNone result (self.new ≡ self.old) }
        ensures some { IfSome result (λ _. self.new
            ≡ record self.old { entries = without_borrow object self.old.entries }) }
    {
        let start = borrow_start(&self.entries, object)?;
        end_all(&mut self.entries, Query::Borrow { object });
        Some(start)
    }

    /// Whether the object is borrowed.
    pub fn is_borrowed(&self, object: u32) -> bool
        ensures borrowed { result ≡ list_any (is_borrow_of object) self.now.entries }
        ensures known { IsTrue result → object ≤ LAST_OBJECT }
    {
        has(&self.entries, Query::Borrow { object })
    }

    /// Lends the context's buffer, for writing or for reading. The context is at most 16 and has no buffer lent.
    pub fn begin_buffer(&mut self, context: u8, writable: bool)
        requires context { context < CONTEXTS }
        requires none { list_any (is_buffer_of context) self.old.entries ≡ false }
        ensures { self.new ≡
            record self.old {
              entries = with_entry
                  (Entry.Buffer context writable) self.old.entries;
            } }
    {
        add(&mut self.entries, Entry::Buffer { context, writable });
    }

    /// Whether the context's buffer is lent.
    pub fn has_buffer(&self, context: u8) -> bool
        ensures { result ≡ list_any (is_buffer_of context) self.now.entries }
    {
        has(&self.entries, Query::Buffer { context })
    }

    /// Ends the loan of the context's buffer.
    pub fn end_buffer(&mut self, context: u8)
        ensures { self.new ≡ record self.old { entries = without_buffer context self.old.entries } }
    {
        end_all(&mut self.entries, Query::Buffer { context });
    }

    /// Makes the registration live; false exactly if it was live already.
    pub fn register(&mut self) -> bool
        ensures first { result ≡ not (is_registered self.old.entries) }
        ensures live { self.new ≡ record self.old { entries = registered true self.old.entries } }
    {
        let was_live = has(&self.entries, Query::Live);
        set_live(&mut self.entries, true);
        !was_live
    }

    /// Makes the registration not live.
    pub fn unregister(&mut self)
        ensures { self.new ≡ record self.old { entries = registered false self.old.entries } }
    {
        set_live(&mut self.entries, false);
    }

    /// Whether the registration is live.
    pub fn is_registered(&self) -> bool
        ensures { result ≡ is_registered self.now.entries }
    {
        has(&self.entries, Query::Live)
    }

    /// Whether exactly this entry is in the list.
    pub fn holds(&self, entry: &Entry) -> bool
        ensures { IsTrue result ↔ Contains self.now.entries entry.now }
    {
        holds(&self.entries, *entry)
    }

    /// Whether the other tracker is the same.
    pub fn is_same(&self, other: &Tracker) -> bool
        ensures { Decides result (self.now ≡ other.now) }
    {
        self.heap_start == other.heap_start && self.entries.is_same(&other.entries)
    }

    /// Ends everything but the registration; returns what ended, in order.
    pub fn collect(&mut self) -> Result<Released, NoMemory>
        ensures released { IfOk result (λ ended. ended ≡ released self.old.entries) }
        ensures ok { OnOk result
            (self.new ≡ record self.old { entries = collected self.old.entries }) }
        ensures err { OnErr result (self.new ≡ self.old) }
    {
        let ended = held(self.alloc, &self.entries)?;
        end_all(&mut self.entries, Query::Held);
        Ok(ended)
    }
}

impl TryCopy for Tracker {
    fn copy(&self, alloc: Global) -> Result<Tracker, NoMemory> {
        let entries = self.entries.copied(alloc)?;
        Ok(Tracker {
            alloc,
            heap_start: self.heap_start,
            entries,
        })
    }
}
