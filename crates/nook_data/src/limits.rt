//! The limits of a system, of one part and of one burst. Code, clauses and definitions name these numbers.

/// The most threads of applications. Each uses the context with its number.
pub const MOST_THREADS: usize = 16;

/// The context of the shadow, after those of the threads.
pub const SHADOW: u8 = 16;

/// The number of contexts of a domain: one for each thread, and the shadow's.
pub const CONTEXTS: usize = 17;

/// The number of words of a block.
pub const BLOCK_WORDS: usize = 16;

/// The most blocks of one Read or Write.
pub const MOST_BLOCKS: u32 = 8;

/// The most words of a frame, and the most samples of one Play.
pub const MOST_FRAME_WORDS: usize = 64;

/// The most frames in a device's ring.
pub const MOST_RING_FRAMES: usize = 16;

/// The most frames in the kernel's receive queue.
pub const MOST_QUEUED_FRAMES: usize = 64;

/// The most words of an answer: those of a whole buffer.
pub const MOST_ANSWER_WORDS: usize = 128;

/// The most instructions of a burst. A burst without a crossing within them is a hang.
pub const MOST_INSTRUCTIONS: u32 = 4096;

/// The most acts of a burst. The last of them ends the burst.
pub const MOST_ACTS: usize = 64;

/// The most bursts of an attempt.
pub const MOST_BURSTS: u32 = 32;

/// The most heap blocks and copies of kernel objects that a domain holds.
pub const MOST_HEAP_ENTRIES: usize = 64;

/// The most calls of a part, and the most arrivals.
pub const MOST_CALLS: u32 = 100_000;

/// The most parts of a scenario.
pub const MOST_PARTS: usize = 8;

/// The most operations of a thread.
pub const MOST_OPS: usize = 256;

/// The most blocks of a disk.
pub const MOST_DISK_BLOCKS: u32 = 256;

/// The most frames that arrive at a part in a scenario.
pub const MOST_ARRIVALS: usize = 256;

/// The most bytes of a name.
pub const MOST_NAME_BYTES: usize = 16;

/// The most faults that strike a part's driver.
pub const MOST_FAULTS: usize = 64;

/// The most bad blocks of a disk.
pub const MOST_BAD_BLOCKS: usize = 64;

/// The greatest limit on a part's failures before it is given up.
pub const MOST_FAILURES: u32 = 16;

/// The most faults of a campaign.
pub const MOST_CAMPAIGN_FAULTS: usize = 4096;

/// The most operations of all threads of a campaign together.
pub const MOST_CAMPAIGN_OPS: usize = 64;
