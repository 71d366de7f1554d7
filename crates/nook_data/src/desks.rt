//! What a desk returns to the threads that call its part.

use crate::calls::Answer;
use crate::lists::Items;

/// A call that was answered, and the numbers of the events that invoke and answer it.
#[derive(Drop)]
pub struct Receipt {
    pub call: u32,
    pub at_invoke: u64,
    pub at_reply: u64,
    pub answer: Answer,
}

/// Why a desk refused.
#[derive(Clone, Copy)]
pub enum DeskRefused {
    /// If a call is named, it was invoked and is open.
    NoMemory { call: Option<u32> },
    TooManyCalls,
    OpenCall { call: u32 },
    NoOpenCall,
    TooManyArrivals,
}

/// A thread's receipts.
pub type Receipts = Items<Receipt>;

/// Each thread's receipts.
pub type WorkerTable = Items<Receipts>;
