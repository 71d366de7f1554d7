//! What a driver holds of the kernel's resources.

use crate::lists::Items;

/// One resource that a driver holds, as the tracker records it.
#[derive(Clone, Copy, PartialEq, Eq)]
pub enum Entry {
    /// Heap words.
    Heap { start: u32, len: u32 },
    /// The copy of a kernel object, 64 heap words.
    Borrow { object: u32, start: u32 },
    /// A context's buffer pages.
    Buffer { context: u8, writable: bool },
    /// Whether the driver is registered.
    Registration { live: bool },
}

/// A list of tracker entries.
pub type Released = Items<Entry>;
