//! The net device's own ports.
//!
//! To send, a driver sets the transmit length, fills the transmit buffer, and gives the command 1. To receive, it
//! reads the first frame of the ring, and gives the command 2, which removes that frame.

ghost use Rattle.std.specs.Prelude.{◌≡◌, ◌<◌, ℕ, List, length, true, IsNone};
ghost use Rattle.machine_defs.specs.Devices.{link_command, link_input, link_output, next_reading, reset_kind};
ghost use Rattle.machine_defs.specs.Views.Ports.{device_of, given_by, IsTaken};
ghost use Rattle.nook_data.specs.declared.devices.DeviceKind.TheVariants as kinds;

use nook_data::devices::Link;
use nook_data::journal::ActLog;
use nook_data::limits::{MOST_ACTS, MOST_FRAME_WORDS};
use nook_data::lists::Word;

/// The number of words in the transmit buffer: those of a frame.
const BUFFER_WORDS: u32 = MOST_FRAME_WORDS as u32;

/// Reads a word from the net device at one of its ports: 1 the transmit length, 3 the length of the ring's first
/// frame, 4 that frame's next word.
pub fn input(link: &mut Link, port: u32) -> Option<Word>
    ensures given { (registers : List ℕ)
        → link_input port (device_of registers (kinds.Link link.old)) link.old
        ≡ given_by result (device_of registers (kinds.Link link.new)) }
    ensures refused { IsNone result → link.new ≡ link.old }
{
    match port {
        1 => Some(link.length),
        3 => Some(link.ring.head_len()),
        4 => {
            let word = link.ring.head_word(link.reading);
            link.reading = next_reading(link);
            Some(word)
        }
        _ => None,
    }
}

/// The receive position after a word is read: it stays at an empty ring, and at 64, past any frame's end.
fn next_reading(link: &Link) -> u32
    ensures { result ≡ next_reading link.now }
{
    if link.ring.len() == 0 {
        link.reading
    } else {
        link.reading.saturating_add(1).min(BUFFER_WORDS)
    }
}

/// Writes a word to the net device at one of its ports: 0 a command, 1 the transmit length, 2 the next word of
/// the transmit buffer.
pub fn output(link: &mut Link, port: u32, word: Word, acts: &mut ActLog) -> bool
    requires { length acts.old < MOST_ACTS }
    ensures { (registers : List ℕ) → IsTaken
        (link_output port word (device_of registers (kinds.Link link.old)) link.old) result
        acts.old acts.new (device_of registers (kinds.Link link.old))
        (device_of registers (kinds.Link link.new)) }
{
    match port {
        0 => {
            command(link, word, acts);
            true
        }
        1 => {
            link.length = word;
            link.buffer = [0; MOST_FRAME_WORDS];
            link.position = 0;
            true
        }
        2 => {
            if link.position < BUFFER_WORDS {
                link.buffer[link.position as usize] = word;
                link.position += 1;
            }
            true
        }
        _ => false,
    }
}

/// Word 1 sends the first words of the transmit buffer if the length is 1 to 64; word 2 removes the ring's first
/// frame if there is one; any other word does nothing.
fn command(link: &mut Link, word: Word, acts: &mut ActLog)
    requires { length acts.old < MOST_ACTS }
    ensures { (registers : List ℕ) → IsTaken
        (link_command word (device_of registers (kinds.Link link.old)) link.old) true
        acts.old acts.new (device_of registers (kinds.Link link.old))
        (device_of registers (kinds.Link link.new)) }
{
    match word {
        1 if 1 <= link.length && link.length <= BUFFER_WORDS => {
            acts.sent(&link.buffer[..link.length as usize]);
        }
        2 => {
            if let Some(frame) = link.ring.pop() {
                link.reading = 0;
                acts.popped(frame);
            }
        }
        _ => {}
    }
}

/// The net device after a reset.
pub fn reset(link: &mut Link)
    ensures { kinds.Link link.new ≡ reset_kind (kinds.Link link.old) }
{
    link.length = 0;
    link.buffer = [0; MOST_FRAME_WORDS];
    link.position = 0;
    link.ring.clear();
    link.reading = 0;
}
