//! What a scenario consists of: its parts with their drivers and faults, its threads, and its schedule.

ghost use Rattle.std.specs.Prelude.{◌≡◌};
ghost use Rattle.nook_data.specs.FaultNames.{fault_name, fault_named, fault_word};

use crate::calls::PartOps;
use crate::classes::Class;
use crate::lists::{Frames, Items, Picks, Words};
use crate::name::Name;

/// What an injected fault does.
#[derive(Clone, Copy, PartialEq, Eq)]
pub enum FaultKind {
    /// The burst ends with the trap Injected.
    Trap,
    /// The burst ends with the trap Hang.
    Hang,
    /// A word is written if the driver may write it; otherwise nothing happens.
    Poke { address: u32, value: u32 },
    /// A text word is written if the address is below 2,048; otherwise nothing happens.
    Code { address: u32, value: u32 },
    /// A register is set if its number is 0 to 15; otherwise nothing happens.
    Reg { register: u8, value: u32 },
}

/// The names of the kinds of fault.
#[derive(Clone, Copy)]
pub enum FaultName {
    Trap,
    Hang,
    Poke,
    Code,
    Reg,
}

/// The kind of a fault by its name.
pub fn fault_name(kind: FaultKind) -> FaultName
    ensures { result ≡ fault_name kind }
{
    match kind {
        FaultKind::Trap => FaultName::Trap,
        FaultKind::Hang => FaultName::Hang,
        FaultKind::Poke { .. } => FaultName::Poke,
        FaultKind::Code { .. } => FaultName::Code,
        FaultKind::Reg { .. } => FaultName::Reg,
    }
}

/// The word for a kind of fault, in inputs and traces.
pub fn fault_word(name: FaultName) -> &'static str
    ensures { result.now ≡ fault_word name }
{
    match name {
        FaultName::Trap => "trap",
        FaultName::Hang => "hang",
        FaultName::Poke => "poke",
        FaultName::Code => "code",
        FaultName::Reg => "reg",
    }
}

/// The kind of fault with a word.
#[tactic(auto, unfolding(crate::specs::FaultNames::fault_named))]
pub fn fault_named(word: &str) -> Option<FaultName>
    ensures { result ≡ fault_named word.now }
{
    let names = [
        FaultName::Trap,
        FaultName::Hang,
        FaultName::Poke,
        FaultName::Code,
        FaultName::Reg,
    ];
    for index in 0..names.len() {
        if word == fault_word(names[index]) {
            return Some(names[index]);
        }
    }
    None
}

/// A fault that strikes in burst `burst`, before its instruction number `after + 1`.
#[derive(Clone, Copy)]
pub struct Fault {
    pub burst: u32,
    pub after: u32,
    pub kind: FaultKind,
}

/// A driver program: the entries of its class in the class's order, text words and initial words.
pub struct Image {
    pub class: Class,
    pub entries: Words,
    pub text: Words,
    pub initial: Words,
}

impl Drop for Image {
    /// Written by hand, so that it is proved once and not in each function that owns an image.
    fn drop(self) {
        let Image {
            class: _,
            entries: _,
            text: _,
            initial: _,
        } = self;
    }
}

/// Commands on `block` fail from its command number `after + 1` on.
#[derive(Clone, Copy)]
pub struct BadBlock {
    pub block: u32,
    pub after: u32,
}

/// A part as a scenario describes it. `blocks` is 0 and `bad` is empty for classes other than block; `arrivals`
/// is empty for classes other than net.
pub struct PartSpec {
    pub name: Name,
    pub class: Class,
    pub blocks: u32,
    pub bad: BadBlocks,
    pub limit: u32,
    pub image: Image,
    pub faults: Faults,
    pub arrivals: Frames,
}

impl Drop for PartSpec {
    /// Written by hand, so that it is proved once and not in each function that owns a part.
    fn drop(self) {
        let PartSpec {
            name: _,
            class: _,
            blocks: _,
            bad: _,
            limit: _,
            image: _,
            faults: _,
            arrivals: _,
        } = self;
    }
}

/// An application thread and its script, a list of pairs of a part and an operation.
pub struct ThreadSpec {
    pub name: Name,
    pub ops: PartOps,
}

impl Drop for ThreadSpec {
    /// Written by hand, so that it is proved once and not in each function that owns a thread.
    fn drop(self) {
        let ThreadSpec { name: _, ops: _ } = self;
    }
}

/// The order in which the actors of a run take their steps.
#[derive(Drop)]
pub enum ScheduleSpec {
    RoundRobin,
    Drawn { start: u64 },
    Listed { picks: Picks },
}

/// Everything that determines a run.
pub struct Scenario {
    pub schedule: ScheduleSpec,
    pub parts: Parts,
    pub threads: ThreadSpecs,
}

impl Drop for Scenario {
    /// Written by hand, so that it is proved once and not in each function that owns a scenario.
    fn drop(self) {
        let Scenario {
            schedule: _,
            parts: _,
            threads: _,
        } = self;
    }
}

/// A list of faults.
pub type Faults = Items<Fault>;

/// A list of bad blocks.
pub type BadBlocks = Items<BadBlock>;

/// The parts of a scenario.
pub type Parts = Items<PartSpec>;

/// The threads of a scenario.
pub type ThreadSpecs = Items<ThreadSpec>;
