//! What open calls claim, indexed by what is claimed: for each block the calls that read and write it, and the calls
//! that claim everything, the link's frames or the stream.
//!
//! So the call that another has to wait for is found without looking at every open call.
#![tactic(auto)]

mod by_block;
mod claim;
mod claimants;
mod index;

pub use claim::{Claim, Claimed};
pub use index::ClaimIndex;
