//! The entries of a desk's lock.
use nook_data::steps::Event;

/// An event of a part with its stamp. It exists only in contracts: no value of it is made.
pub struct Stamped {
    pub event: Event,
    pub stamp: u64,
}
