//! The disk's own ports.
//!
//! A driver sets the block register, fills or reads the buffer of 16 words at a position that advances automatically,
//! and gives a command for the block: 1 loads it into the buffer, 2 stores the buffer.

ghost use Rattle.std.specs.Prelude.{◌≡◌, ◌<◌, ◌∷◌, ◌++◌, ℕ, List, [], length, replicate, true, IfOk, IsNone};
ghost use Rattle.device_models.specs.Kept.{IsKeptDisk};
ghost use Rattle.machine_defs.specs.Devices.{command_act, commanded, disk_input, disk_output, is_command, is_failing};
ghost use Rattle.machine_defs.specs.Devices.{reset_kind};
ghost use Rattle.machine_defs.specs.Views.Ports.{device_of, given_by, IsTaken};
ghost use Rattle.nook_data.specs.declared.devices.DeviceKind.TheVariants as kinds;

use nook_data::devices::Disk;
use nook_data::journal::ActLog;
use nook_data::limits::{BLOCK_WORDS, MOST_ACTS};
use nook_data::lists::{Items, Word};
use nook_data::memory::NoMemory;
use std::alloc::Global;

/// The command that loads a block.
const LOAD: Word = 1;

/// The command that stores a block.
const STORE: Word = 2;

/// A medium of this many blocks of zeros.
pub fn blank(alloc: Global, blocks: usize) -> Result<Items<[Word; BLOCK_WORDS]>, NoMemory>
    ensures { IfOk result (λ made. made ≡ replicate blocks (replicate BLOCK_WORDS 0)) }
{
    Ok(Items::from_vec(vec![in alloc; [0; BLOCK_WORDS]; blocks]?))
}

/// Reads a word from the disk at one of its ports: 1 the block register, 2 the next buffer word, 3 the status.
pub fn input(disk: &mut Disk, port: u32) -> Option<Word>
    requires { IsKeptDisk disk.old }
    ensures given { (registers : List ℕ)
        → disk_input port (device_of registers (kinds.Disk disk.old)) disk.old
        ≡ given_by result (device_of registers (kinds.Disk disk.new)) }
    ensures refused { IsNone result → disk.new ≡ disk.old }
    ensures kept { IsKeptDisk disk.new }
{
    match port {
        1 => Some(disk.block),
        2 => {
            let word = disk.buffer[disk.position as usize];
            disk.position = (disk.position + 1) % BLOCK_WORDS as u32;
            Some(word)
        }
        3 => Some(disk.status),
        _ => None,
    }
}

/// Writes a word to the disk at one of its ports: 0 a command, 1 the block register, 2 the next buffer word.
pub fn output(disk: &mut Disk, port: u32, word: Word, acts: &mut ActLog) -> bool
    requires kept { IsKeptDisk disk.old }
    requires room { length acts.old < MOST_ACTS }
    ensures taken { (registers : List ℕ) → IsTaken
        (disk_output port word (device_of registers (kinds.Disk disk.old)) disk.old) result
        acts.old acts.new (device_of registers (kinds.Disk disk.old))
        (device_of registers (kinds.Disk disk.new)) }
    ensures kept { IsKeptDisk disk.new }
{
    match port {
        0 => {
            if is_command(disk, word) {
                command(disk, word, acts);
            }
            true
        }
        1 => {
            disk.block = word;
            disk.position = 0;
            true
        }
        2 => {
            disk.buffer[disk.position as usize] = word;
            disk.position = (disk.position + 1) % BLOCK_WORDS as u32;
            true
        }
        _ => false,
    }
}

/// Whether the word is a command and the block register names a block.
fn is_command(disk: &Disk, word: Word) -> bool
    ensures { result ≡ is_command word disk.now }
{
    (word == LOAD || word == STORE) && (disk.block as usize) < disk.medium.len()
}

/// Whether a command on the block of the block register fails: some entry of that block has `after` at most the
/// number of commands that the block has had.
fn is_failing(disk: &Disk) -> bool
    requires { disk.now.block < length disk.now.counts }
    ensures { result ≡ is_failing disk.now }
{
    let block = disk.block;
    let count = disk.counts.as_slice()[block as usize];
    disk.bad
        .as_slice()
        .iter()
        .any(|bad| bad.block == block && bad.after <= count)
}

/// Executes a command, which counts whether it fails or not.
fn command(disk: &mut Disk, word: Word, acts: &mut ActLog)
    requires kept { IsKeptDisk disk.old }
    requires room { length acts.old < MOST_ACTS }
    requires named { is_command word disk.old ≡ true }
    ensures disk { disk.new ≡ commanded word disk.old }
    ensures act { acts.new ≡ acts.old ++ command_act word disk.old ∷ [] }
{
    let failing = is_failing(disk);
    let block = disk.block as usize;
    let count = disk.counts.as_slice()[block];
    disk.counts.set(block, count.saturating_add(1));
    disk.position = 0;
    if failing {
        disk.status = 1;
        acts.failed(disk.block, word == STORE);
        return;
    }
    disk.status = 0;
    if word == LOAD {
        disk.buffer = *disk.medium.get(block);
        acts.load(disk.block);
    } else {
        disk.medium.set(block, disk.buffer);
        acts.store(disk.block, &disk.buffer);
    }
}

/// The disk after a reset: medium and counts stay.
pub fn reset(disk: &mut Disk)
    ensures { kinds.Disk disk.new ≡ reset_kind (kinds.Disk disk.old) }
{
    disk.block = 0;
    disk.buffer = [0; BLOCK_WORDS];
    disk.position = 0;
    disk.status = 0;
}
