//! A device of any class.

ghost use Rattle.std.specs.Prelude.{◌≡◌, ◌<◌, ◌≤◌, ℕ, List, length, IfOk, IsNone};
ghost use Rattle.nook_data.specs.Classes.{defaults_of};
ghost use Rattle.machine_defs.specs.Devices.{has_room, input_of, kind_output, medium_of, opening_device, output_of};
ghost use Rattle.machine_defs.specs.Devices.{reset_device, speaker_output, with_arrival};
ghost use Rattle.machine_defs.specs.Views.Ports.{class_of, class_of_kind, defaults_for, device_of, given_by, IsTaken};
ghost use Rattle.device_models.specs.Kept.{IsKept};
ghost use Rattle.nook_data.specs.declared.devices.DeviceKind.TheVariants as speaker;
ghost use Rattle.nook_data.specs.declared.scenario.BadBlock.{BadBlock};

use crate::{disk, link};
use class_table::defaults_of;
use nook_data::classes::Class;
use nook_data::devices::{DeviceKind, DeviceState, Disk, Link};
use nook_data::journal::ActLog;
use nook_data::limits::{BLOCK_WORDS, MOST_ACTS, MOST_FRAME_WORDS, MOST_RING_FRAMES};
use nook_data::lists::{Items, TryCopy, Word, Words};
use nook_data::memory::NoMemory;
use nook_data::ring::Ring;
use nook_data::same::Same;
use nook_data::scenario::BadBlocks;
use std::alloc::Global;
use std::marker::Model;

/// The ports of the four registers, which every device has.
const FIRST_REGISTER: u32 = 8;

const LAST_REGISTER: u32 = 11;

/// A device, as its driver's machine reaches it.
pub struct Device {
    state: DeviceState,
}

impl Model for Device {
    ghost use Rattle.device_models.specs.Kept.{IsKept};
    ghost use Rattle.nook_data.specs.declared.devices.DeviceState.{DeviceState};

    ghost Value = { DeviceState };

    ghost view = { λ s. s.state };

    ghost invariant = { λ s. IsKept s.state.kind };
}

impl Drop for Device {
    /// Written by hand, so that it is proved once and not in each function that owns a device.
    fn drop(self) {
        let Device { state: _ } = self;
    }
}

impl Device {
    /// A disk of `blocks` blocks of zeros, of which those in `bad` fail. In a valid part `blocks` is 1 to 256, and
    /// each bad block is one of them.
    #[tactic(auto, unfolding(machine_defs::specs::Devices::opening_device))]
    pub fn disk(alloc: Global, blocks: u32, bad: &BadBlocks) -> Result<Device, NoMemory>
        ensures { IfOk result
            (λ made. made ≡ opening_device Class.Block blocks bad.now (defaults_of Class.Block)) }
    {
        let medium = disk::blank(alloc, blocks as usize)?;
        let counts = Items::from_vec(vec![in alloc; 0; blocks as usize]?);
        let kind = DeviceKind::Disk(Disk {
            medium,
            bad: bad.copy(alloc)?,
            counts,
            block: 0,
            buffer: [0; BLOCK_WORDS],
            position: 0,
            status: 0,
        });
        Ok(Device {
            state: DeviceState {
                registers: defaults_of(Class::Block),
                kind,
            },
        })
    }

    /// A net device with an empty ring.
    #[tactic(auto, unfolding(machine_defs::specs::Devices::opening_device))]
    pub fn net(alloc: Global) -> Result<Device, NoMemory>
        ensures { (blocks : ℕ) (bad : List BadBlock)
            → IfOk result (λ made. made ≡ opening_device Class.Net blocks bad
            (defaults_of Class.Net)) }
    {
        let kind = DeviceKind::Link(Link {
            length: 0,
            buffer: [0; MOST_FRAME_WORDS],
            position: 0,
            ring: Ring::new(alloc)?,
            reading: 0,
        });
        Ok(Device {
            state: DeviceState {
                registers: defaults_of(Class::Net),
                kind,
            },
        })
    }

    /// A sound device. It takes no memory.
    #[tactic(auto, unfolding(machine_defs::specs::Devices::opening_device))]
    pub fn sound() -> Device
        ensures { (blocks : ℕ) (bad : List BadBlock)
            → result ≡ opening_device Class.Sound blocks bad (defaults_of Class.Sound) }
    {
        Device {
            state: DeviceState {
                registers: defaults_of(Class::Sound),
                kind: DeviceKind::Speaker,
            },
        }
    }

    /// Reads a word from the device at `port`; `None`, with nothing changed, if the device has no such port for IN.
    pub fn input(&mut self, port: u32) -> Option<Word>
        ensures given { input_of port self.old ≡ given_by result self.new }
        ensures refused { IsNone result → self.new ≡ self.old }
        ensures class { class_of self.new ≡ class_of self.old }
    {
        if FIRST_REGISTER <= port && port <= LAST_REGISTER {
            return Some(self.state.registers[(port - FIRST_REGISTER) as usize]);
        }
        match &mut self.state.kind {
            DeviceKind::Disk(disk) => disk::input(disk, port),
            DeviceKind::Link(link) => link::input(link, port),
            DeviceKind::Speaker => None,
        }
    }

    /// Writes a word to the device at `port`, which adds at most one act; false, with nothing changed, if the device
    /// has no such port for OUT. It takes no memory.
    pub fn output(&mut self, port: u32, word: Word, acts: &mut ActLog) -> bool
        requires { length acts.old < MOST_ACTS }
        ensures taken { IsTaken
            (output_of port word self.old) result acts.old acts.new self.old self.new }
        ensures class { class_of self.new ≡ class_of self.old }
    {
        if FIRST_REGISTER <= port && port <= LAST_REGISTER {
            let key = port - FIRST_REGISTER;
            self.state.registers[key as usize] = word;
            acts.register(key, word);
            return true;
        }
        own_output(
            &mut self.state.kind,
            &self.state.registers,
            port,
            word,
            acts,
        )
    }

    /// A reset: the registers get the class's defaults, and everything else is cleared except the medium and the counts
    /// of commands.
    #[tactic(auto, unfolding(machine_defs::specs::Devices::reset_device))]
    pub fn reset(&mut self)
        ensures device { self.new ≡ reset_device (defaults_for self.old) self.old }
        ensures class { class_of self.new ≡ class_of self.old }
    {
        self.state.registers = defaults_of(self.class());
        match &mut self.state.kind {
            DeviceKind::Disk(disk) => disk::reset(disk),
            DeviceKind::Link(link) => link::reset(link),
            DeviceKind::Speaker => {}
        }
    }

    /// A frame of 1 to 64 words arrives at a net device; false, with the frame dropped, exactly if the ring
    /// holds 16. It takes no memory.
    #[tactic(auto, unfolding(machine_defs::specs::Devices::with_arrival))]
    pub fn arrive(&mut self, frame: Words) -> bool
        requires net { class_of self.old ≡ Class.Net }
        requires some { 1 ≤ length frame }
        requires most { length frame ≤ MOST_FRAME_WORDS }
        ensures kept { result ≡ has_room self.old }
        ensures device { self.new ≡ with_arrival frame self.old }
        ensures class { class_of self.new ≡ class_of self.old }
    {
        match &mut self.state.kind {
            DeviceKind::Link(link) => {
                if link.ring.len() < MOST_RING_FRAMES {
                    link.ring.push(frame);
                    true
                } else {
                    false
                }
            }
            _ => unreachable!(),
        }
    }

    /// The class of the device.
    pub fn class(&self) -> Class
        ensures { result ≡ class_of self.now }
    {
        match &self.state.kind {
            DeviceKind::Disk(_) => Class::Block,
            DeviceKind::Link(_) => Class::Net,
            DeviceKind::Speaker => Class::Sound,
        }
    }

    /// The blocks of a disk, 16 words each; none for any other device.
    pub fn medium(&self) -> &[[Word; BLOCK_WORDS]]
        ensures { result.now ≡ medium_of self.now }
    {
        match &self.state.kind {
            DeviceKind::Disk(disk) => disk.medium.as_slice(),
            _ => &[],
        }
    }
}

impl TryCopy for Device {
    fn copy(&self, alloc: Global) -> Result<Device, NoMemory> {
        let state = self.state.copy(alloc)?;
        Ok(Device { state })
    }
}

impl Same for Device {
    fn is_same(&self, other: &Device) -> bool {
        self.state.is_same(&other.state)
    }
}

/// Writes a word to the device at a port that is not a register's.
fn own_output(
    kind: &mut DeviceKind,
    registers: &[Word; 4],
    port: u32,
    word: Word,
    acts: &mut ActLog,
) -> bool
    requires kept { IsKept kind.old }
    requires room { length acts.old < MOST_ACTS }
    ensures taken { IsTaken
        (kind_output port word (device_of registers.now kind.old) kind.old) result
        acts.old acts.new (device_of registers.now kind.old) (device_of registers.now kind.new) }
    ensures kept { IsKept kind.new }
    ensures class { class_of_kind kind.new ≡ class_of_kind kind.old }
{
    match kind {
        DeviceKind::Disk(disk) => disk::output(disk, port, word, acts),
        DeviceKind::Link(link) => link::output(link, port, word, acts),
        DeviceKind::Speaker => speaker_output(registers, port, word, acts),
    }
}

/// Writes a word to the sound device at its one port; it is played at the rate and volume of registers 0 and 1.
fn speaker_output(registers: &[Word; 4], port: u32, word: Word, acts: &mut ActLog) -> bool
    requires { length acts.old < MOST_ACTS }
    ensures { IsTaken (speaker_output port word (device_of registers.now speaker.Speaker)) result
        acts.old acts.new (device_of registers.now speaker.Speaker)
        (device_of registers.now speaker.Speaker) }
{
    if port != 0 {
        return false;
    }
    acts.played(word, registers[0], registers[1]);
    true
}
