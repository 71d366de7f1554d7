//! Laws of an instruction: theorems about its definition alone. Each is the contract of a function with an empty body.

ghost use Rattle.std.specs.Prelude.{◌≡◌, ◌++◌, [], ◌∷◌, List, replicate};
ghost use Rattle.driver_isa.specs.OneWord.{ChangesOneWord, before_store};
ghost use Rattle.machine_defs.specs.Execution.{Machine, turn};
ghost use Rattle.nook_data.specs.declared.devices.DeviceState.{DeviceState};
ghost use Rattle.nook_data.specs.declared.entries.Entry.{Entry};

/// An instruction changes at most one word of memory, and only one that the driver may write, whatever its word is.
pub fn a_turn_changes_at_most_one_word()
    ensures { (entries : List Entry) (m : Machine)
        → ChangesOneWord entries m.memory (turn entries m).machine.memory }
{}

/// A computed case: a store at the first address after the text changes that word, and one at the text's last word
/// changes nothing.
pub fn a_store_after_the_text_and_in_it()
    ensures rest_after { (device : DeviceState)
        → (turn [] (before_store device 2048)).machine.memory
        ≡ 0x0d120000 ∷ (replicate 2047 0 ++ 7 ∷ []) }
    ensures inside { (device : DeviceState) → (turn [] (before_store device 2047)).machine.memory
        ≡ 0x0d120000 ∷ replicate 2048 0 }
{}
