//! What a campaign runs: a scenario, and the faults of each of its members.

use nook_data::lists::Items;
use nook_data::scenario::{FaultKind, Faults, Scenario};

/// The most faults of one member.
pub const MOST_MEMBER_FAULTS: usize = 16;
/// The most kinds of fault for a campaign that runs every fault of them.
pub const MOST_EVERY_KINDS: usize = 64;

/// The faults that strike the members. A member's faults come after those that the struck part has in the base.
#[derive(Drop)]
pub enum Strikes {
    /// A member for each of these faults.
    Faults(Faults),
    /// A member for each of these lists of faults.
    Members(Items<Faults>),
    /// A member for each fault of these kinds, at each burst and instruction of the base's run at which it strikes.
    Every(Items<FaultKind>),
}

/// A scenario that is run once for each member, with that member's faults in one of its parts.
#[derive(Drop)]
pub struct Plan {
    pub base: Scenario,
    /// The index of the struck part.
    pub part: u32,
    pub strikes: Strikes,
    /// Whether each run is guarded.
    pub guard: bool,
    /// Whether each row compares its run with the base's.
    pub detail: bool,
}
