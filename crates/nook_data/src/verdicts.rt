//! Verdicts on a journal, and counts of it.

/// The first event that breaks a clause of the class's contract, and the clause.
#[derive(Clone, Copy)]
pub struct Break {
    pub event: u64,
    pub clause: u8,
}

/// What was lost, and where frames went.
#[derive(Clone, Copy)]
pub struct Losses {
    pub sends: u64,
    pub samples: u64,
    pub busy: u64,
    pub arrived: u64,
    pub received: u64,
    pub queued: u64,
    pub ring: u64,
    pub driver: u64,
    pub reset: u64,
    pub full_ring: u64,
    pub full_queue: u64,
}
