//! The memory map of a domain: which region each address belongs to.
//!
//! | First address | Words | Region |
//! |---|---|---|
//! | 0 | 2,048 | text |
//! | 2,048 | 2,048 | data: the initial words of the image, and then the heap |
//! | 4,096 | 64 for each of the 17 contexts | stacks |
//! | 5,184 | 128 for each of the 17 contexts | buffers |
//! | 7,360 | 64 for each of the 13 kernel objects | kernel objects |
//! | 8,192 | | past the end |
//!
//! Code, clauses and definitions use these names, never the bare numbers.

ghost use Rattle.std.specs.Prelude.{◌≡◌, ◌+◌, ◌<◌, ◌≤◌};
ghost use Rattle.nook_data.specs.Layout.{buffer_start, object_start, stack_end};

use crate::limits::CONTEXTS;

/// The number of words of a page.
pub const PAGE_WORDS: u32 = 64;

/// The number of words of text, which has the lowest addresses.
pub const TEXT_WORDS: u32 = 2048;

/// The first address of the data.
pub const DATA_START: u32 = TEXT_WORDS;

/// The number of words of data: the initial words of the image, followed by the heap.
pub const DATA_WORDS: u32 = 2048;

/// The first address past the data, where the stacks begin.
pub const DATA_END: u32 = DATA_START + DATA_WORDS;

/// The number of words of a context's stack.
pub const STACK_WORDS: u32 = PAGE_WORDS;

/// The first address past the stacks, where the buffers begin.
pub const STACKS_END: u32 = DATA_END + STACK_WORDS * CONTEXTS as u32;

/// The number of words of a context's buffer.
pub const BUFFER_WORDS: u32 = 2 * PAGE_WORDS;

/// The first address past the buffers, where the kernel objects begin.
pub const BUFFERS_END: u32 = STACKS_END + BUFFER_WORDS * CONTEXTS as u32;

/// The number of words of a kernel object.
pub const OBJECT_WORDS: u32 = PAGE_WORDS;

/// The number of kernel objects: object 0 is the driver's record, and the driver may borrow the others.
pub const OBJECTS: u32 = 13;

/// The last kernel object.
pub const LAST_OBJECT: u32 = OBJECTS - 1;

/// The number of words of a domain.
pub const MEMORY_WORDS: u32 = BUFFERS_END + OBJECT_WORDS * OBJECTS;

/// The number of pages of a domain.
pub const PAGES: usize = (MEMORY_WORDS / PAGE_WORDS) as usize;

/// The number of pages below the kernel objects.
pub const OWN_PAGES: usize = (BUFFERS_END / PAGE_WORDS) as usize;

const _: () = prove!(DATA_END == 4096);

const _: () = prove!(STACKS_END == 5184);

const _: () = prove!(BUFFERS_END == 7360);

const _: () = prove!(MEMORY_WORDS == 8192);

/// The first address past a context's stack. The context is at most 16.
pub fn stack_end(context: u8) -> u32
    requires { context < CONTEXTS }
    ensures end { result ≡ stack_end context }
    ensures within { result ≤ STACKS_END }
{
    DATA_END + STACK_WORDS * (u32::from(context) + 1)
}

/// The first word of a context's buffer. The context is at most 16.
pub fn buffer_start(context: u8) -> u32
    requires { context < CONTEXTS }
    ensures start { result ≡ buffer_start context }
    ensures within { result + BUFFER_WORDS ≤ BUFFERS_END }
{
    STACKS_END + BUFFER_WORDS * u32::from(context)
}

/// The first word of a kernel object, which is at most 12.
pub fn object_start(object: u32) -> u32
    requires { object ≤ LAST_OBJECT }
    ensures start { result ≡ object_start object }
    ensures within { result + OBJECT_WORDS ≤ MEMORY_WORDS }
{
    BUFFERS_END + OBJECT_WORDS * object
}
