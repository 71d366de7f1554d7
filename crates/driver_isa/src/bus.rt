//! What a burst runs over.

ghost use Rattle.std.specs.Prelude.{◌≡◌, ◌<◌, ℕ, List, IsNone, length, slice_set};
ghost use Rattle.std.specs.Borrow.{GName};
ghost use Rattle.driver_isa.specs.Entries.{IsDecodedText};
ghost use Rattle.machine_defs.specs.Devices.{input_of, output_of};
ghost use Rattle.machine_defs.specs.Views.Ports.{IsTaken, given_by};
ghost use Rattle.machine_defs.specs.Pages.{may_write, read_word, written};
ghost use Rattle.nook_data.specs.declared.devices.DeviceState.{DeviceState};
ghost use Rattle.nook_data.specs.declared.entries.Entry.{Entry};

use crate::instructions::Decoded;
use nook_data::journal::ActLog;
use nook_data::limits::MOST_ACTS;
use nook_data::lists::Word;
use nook_data::memory_map::TEXT_WORDS;

/// The memory and the device of a driver, as its machine reaches them. No call takes memory.
pub trait Bus {
    // The words of memory; the entries that say what the driver may write; the device; and the references that
    // make up the bus, which stay the same.
    ghost words: { Self → List ℕ };

    ghost entries: { Self → List Entry };

    ghost device: { Self → DeviceState };

    ghost held: { Self → List GName };

    /// The decoded words of the text, and after them an entry that is no instruction.
    fn text(&self) -> &[Decoded]
        ensures { IsDecodedText result.now (words self.now) };

    /// The word at `address`; `None` if it may not be read.
    fn read(&self, address: u32) -> Option<Word>
        ensures { result ≡ read_word (words self.now) address };

    /// Writes the word at `address`; false, with nothing changed, if the driver may not write there.
    fn write(&mut self, address: u32, word: Word) -> bool
        ensures may { result ≡ may_write (entries self.old) address }
        ensures words { words self.new ≡ written (entries self.old) address word (words self.old) }
        ensures entries { entries self.new ≡ entries self.old }
        ensures device { device self.new ≡ device self.old }
        ensures held { held self.new ≡ held self.old };

    /// Reads a word from the device at `port`; `None`, with nothing changed, if it has no such port.
    fn input(&mut self, port: u32) -> Option<Word>
        ensures given { input_of port (device self.old) ≡ given_by result (device self.new) }
        ensures refused { IsNone result → device self.new ≡ device self.old }
        ensures words { words self.new ≡ words self.old }
        ensures entries { entries self.new ≡ entries self.old }
        ensures held { held self.new ≡ held self.old };

    /// Writes a word to the device at `port`, which adds at most one act; false, with nothing changed, if it has
    /// no such port.
    fn output(&mut self, port: u32, word: Word, acts: &mut ActLog) -> bool
        requires { length acts.old < MOST_ACTS }
        ensures taken { IsTaken (output_of port word (device self.old)) result acts.old acts.new
            (device self.old) (device self.new) }
        ensures words { words self.new ≡ words self.old }
        ensures entries { entries self.new ≡ entries self.old }
        ensures held { held self.new ≡ held self.old };

    /// Writes a text word, for a fault.
    fn poke_text(&mut self, address: u32, word: Word)
        requires { address < TEXT_WORDS }
        ensures words { words self.new ≡ slice_set (words self.old) address word }
        ensures entries { entries self.new ≡ entries self.old }
        ensures device { device self.new ≡ device self.old }
        ensures held { held self.new ≡ held self.old };
}
