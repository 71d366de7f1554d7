//! The devices: a disk, a link and a sound stream.

use crate::limits::{BLOCK_WORDS, MOST_FRAME_WORDS};
use crate::lists::{Items, Words};
use crate::ring::Ring;
use crate::scenario::BadBlocks;

/// The state of a disk apart from its registers. `counts` has each block's number of commands.
pub struct Disk {
    pub medium: Items<[u32; BLOCK_WORDS]>,
    pub bad: BadBlocks,
    pub counts: Words,
    pub block: u32,
    pub buffer: [u32; BLOCK_WORDS],
    pub position: u32,
    pub status: u32,
}

impl Drop for Disk {
    /// Written by hand, so that it is proved once and not in each function that owns a disk.
    fn drop(self) {
        let Disk {
            medium: _,
            bad: _,
            counts: _,
            block: _,
            buffer: _,
            position: _,
            status: _,
        } = self;
    }
}

/// The state of a net device apart from its registers. The ring holds at most 16 frames.
pub struct Link {
    pub length: u32,
    pub buffer: [u32; MOST_FRAME_WORDS],
    pub position: u32,
    pub ring: Ring,
    pub reading: u32,
}

impl Drop for Link {
    /// Written by hand, so that it is proved once and not in each function that owns a link.
    fn drop(self) {
        let Link {
            length: _,
            buffer: _,
            position: _,
            ring: _,
            reading: _,
        } = self;
    }
}

/// The state of a device apart from its registers.
#[derive(Drop)]
pub enum DeviceKind {
    Disk(Disk),
    Link(Link),
    Speaker,
}

/// A device: its four configuration registers, and the state of its kind.
pub struct DeviceState {
    pub registers: [u32; 4],
    pub kind: DeviceKind,
}

impl Drop for DeviceState {
    /// Written by hand, so that it is proved once and not in each function that owns a state.
    fn drop(self) {
        let DeviceState {
            registers: _,
            kind: _,
        } = self;
    }
}
