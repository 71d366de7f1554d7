//! Comparison of values.

ghost use Rattle.std.specs.Prelude.{◌≡◌, Decides};

use crate::calls::{Answer, CallEntry, Op};
use crate::devices::{DeviceKind, DeviceState, Disk, Link};
use crate::entries::Entry;
use crate::lists::{Items, Word};
use crate::machine::{Act, Context, Cpu};
use crate::name::Name;
use crate::scenario::{BadBlock, Fault, FaultKind, Image, PartSpec};
use crate::steps::{Mode, Stage};

/// A comparison of whole values.
pub trait Same {
    /// Whether the other value is the same.
    fn is_same(&self, other: &Self) -> bool
        ensures { Decides result (self.now ≡ other.now) };
}

/// Whether two lists have the same items in the same order.
pub fn are_same<T: Same>(items: &[T], others: &[T]) -> bool
    ensures { Decides result (items.now ≡ others.now) }
{
    if items.len() != others.len() {
        return false;
    }
    for index in 0..items.len() {
        if !items[index].is_same(&others[index]) {
            return false;
        }
    }
    true
}

impl Same for u8 {
    fn is_same(&self, other: &u8) -> bool {
        *self == *other
    }
}

impl Same for u32 {
    fn is_same(&self, other: &u32) -> bool {
        *self == *other
    }
}

impl<const N: usize> Same for [Word; N] {
    fn is_same(&self, other: &[Word; N]) -> bool {
        self == other
    }
}

impl<T: Same> Same for Items<T> {
    fn is_same(&self, other: &Items<T>) -> bool {
        are_same(self.as_slice(), other.as_slice())
    }
}

impl<T: Same> Same for Option<T> {
    fn is_same(&self, other: &Option<T>) -> bool {
        match (self, other) {
            (Some(value), Some(other)) => value.is_same(other),
            (None, None) => true,
            _ => false,
        }
    }
}

impl<A: Same, B: Same> Same for (A, B) {
    fn is_same(&self, other: &(A, B)) -> bool {
        self.0.is_same(&other.0) && self.1.is_same(&other.1)
    }
}

impl Same for Name {
    fn is_same(&self, other: &Name) -> bool {
        are_same(self.as_slice(), other.as_slice())
    }
}

impl Same for Op {
    fn is_same(&self, other: &Op) -> bool {
        self == other
    }
}

impl Same for Answer {
    fn is_same(&self, other: &Answer) -> bool {
        self == other
    }
}

impl Same for CallEntry {
    fn is_same(&self, other: &CallEntry) -> bool {
        self.call == other.call
            && self.thread == other.thread
            && self.inside == other.inside
            && self.attempts == other.attempts
            && self.op.is_same(&other.op)
    }
}

impl Same for Act {
    fn is_same(&self, other: &Act) -> bool {
        self == other
    }
}

impl Same for Cpu {
    fn is_same(&self, other: &Cpu) -> bool {
        self.counter == other.counter && self.registers.is_same(&other.registers)
    }
}

impl Same for Context {
    fn is_same(&self, other: &Context) -> bool {
        self.bursts == other.bursts && self.cpu.is_same(&other.cpu)
    }
}

impl Same for Stage {
    fn is_same(&self, other: &Stage) -> bool {
        self == other
    }
}

impl Same for Mode {
    fn is_same(&self, other: &Mode) -> bool {
        self == other
    }
}

impl Same for Entry {
    fn is_same(&self, other: &Entry) -> bool {
        self == other
    }
}

impl Same for BadBlock {
    fn is_same(&self, other: &BadBlock) -> bool {
        self.block == other.block && self.after == other.after
    }
}

impl Same for FaultKind {
    fn is_same(&self, other: &FaultKind) -> bool {
        self == other
    }
}

impl Same for Fault {
    fn is_same(&self, other: &Fault) -> bool {
        self.burst == other.burst && self.after == other.after && self.kind.is_same(&other.kind)
    }
}

impl Same for Image {
    fn is_same(&self, other: &Image) -> bool {
        self.class == other.class
            && self.entries.is_same(&other.entries)
            && self.text.is_same(&other.text)
            && self.initial.is_same(&other.initial)
    }
}

impl Same for PartSpec {
    fn is_same(&self, other: &PartSpec) -> bool {
        self.class == other.class
            && self.blocks == other.blocks
            && self.limit == other.limit
            && self.name.is_same(&other.name)
            && self.image.is_same(&other.image)
            && self.bad.is_same(&other.bad)
            && self.faults.is_same(&other.faults)
            && self.arrivals.is_same(&other.arrivals)
    }
}

impl Same for Disk {
    fn is_same(&self, other: &Disk) -> bool {
        self.block == other.block
            && self.position == other.position
            && self.status == other.status
            && self.buffer.is_same(&other.buffer)
            && self.counts.is_same(&other.counts)
            && self.bad.is_same(&other.bad)
            && self.medium.is_same(&other.medium)
    }
}

impl Same for Link {
    fn is_same(&self, other: &Link) -> bool {
        self.length == other.length
            && self.position == other.position
            && self.reading == other.reading
            && self.buffer.is_same(&other.buffer)
            && self.ring.is_same(&other.ring)
    }
}

impl Same for DeviceKind {
    fn is_same(&self, other: &DeviceKind) -> bool {
        match (self, other) {
            (DeviceKind::Disk(disk), DeviceKind::Disk(other)) => disk.is_same(other),
            (DeviceKind::Link(link), DeviceKind::Link(other)) => link.is_same(other),
            (DeviceKind::Speaker, DeviceKind::Speaker) => true,
            _ => false,
        }
    }
}

impl Same for DeviceState {
    fn is_same(&self, other: &DeviceState) -> bool {
        self.registers.is_same(&other.registers) && self.kind.is_same(&other.kind)
    }
}
