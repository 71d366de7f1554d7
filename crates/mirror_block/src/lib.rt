//! One disk over two drivers: a mirror of two block parts, through any desk, for a single owner.
//!
//! A write goes to both sides, a read to the first that gives blocks. The mirror outlives a side that is given up, or
//! whose answer no disk would give. While a side is left, the answers are those of one plain disk with bad blocks, if
//! both drivers keep the contract of their class.
#![tactic(auto)]

mod check;
mod laws;
mod mirror;
mod outcome;
mod side;
mod stop;

pub use laws::the_answers_are_those_of_one_disk;
pub use mirror::Mirror;
pub use stop::MirrorStop;
