//! One instruction with its visible effects.

ghost use Rattle.std.specs.Prelude.{◌≡◌, ◌<◌, ◌≤◌, true, IfOk, IfSome, OnOk, length};
ghost use Rattle.driver_isa.specs.Fields.{has_registers};
ghost use Rattle.driver_isa.specs.Turns.{machine_of};
ghost use Rattle.machine_defs.specs.Execution.{turn as machine_turn};
ghost use Rattle.machine_defs.specs.Pages.{fetch_word};
ghost use Rattle.machine_defs.specs.Mnemonics.{target_of};
ghost use Rattle.turn_trace.specs.Turns.{instr_in, jumped_to, set_by, stored_by, traced, traced_of};
ghost use Rattle.turn_trace.specs.Turns.{with_word};

use driver_isa::instructions::{fields_of, row_of};
use driver_isa::{Bus, decode, run_turn};
use nook_data::journal::SpareRooms;
use nook_data::lists::Word;
use nook_data::machine::{Acts, BurstEnd, Cpu, Instr};
use nook_data::memory::NoMemory;
use nook_data::memory_map::TEXT_WORDS;

/// One instruction of a burst, as traced. One that traps, calls the kernel or replies shows no effect except its act.
#[derive(Drop)]
pub struct TracedTurn {
    /// Its number in the burst, from 1.
    pub number: u32,
    /// The counter before the instruction.
    pub counter: Word,
    /// The word at the counter, if it may be fetched.
    pub word: Option<Word>,
    /// The register that the instruction sets, and its word after the instruction.
    pub set: Option<(u8, Word)>,
    /// The address that the instruction stores to, and the word.
    pub stored: Option<(Word, Word)>,
    /// The counter after the instruction, if it is not the next one.
    pub jumped: Option<Word>,
    /// The device act, if there was one.
    pub acts: Acts,
}

/// An instruction that ran, and the crossing that it caused.
#[derive(Drop)]
pub struct TurnTaken {
    pub recorded: TracedTurn,
    pub end: Option<BurstEnd>,
}

/// Runs one instruction and traces it. It allocates room for a burst's acts first, and does not run if memory runs out.
pub fn take_turn<B: Bus>(
    number: u32,
    cpu: &mut Cpu,
    bus: &mut B,
    spare: &mut SpareRooms,
) -> Result<TurnTaken, NoMemory>
    ensures recorded { IfOk result (λ turned. turned.recorded
        ≡ traced number (machine_of cpu.old (B.words bus.old) (B.device bus.old))
        (machine_turn (B.entries bus.old)
        (machine_of cpu.old (B.words bus.old) (B.device bus.old)))) }
    ensures machine { OnOk result ((machine_turn (B.entries bus.old)
        (machine_of cpu.old (B.words bus.old) (B.device bus.old))).machine
        ≡ machine_of cpu.new (B.words bus.new) (B.device bus.new)) }
    ensures crossing { IfOk result (λ turned. (machine_turn (B.entries bus.old)
        (machine_of cpu.old (B.words bus.old) (B.device bus.old))).crossing ≡ turned.end) }
    ensures acts { IfOk result (λ turned. length turned.recorded.acts ≤ 1) }
    ensures entries { B.entries bus.new ≡ B.entries bus.old }
    ensures held { B.held bus.new ≡ B.held bus.old }
{
    let mut acts = spare.open_log()?;
    let before = *cpu;
    let word = fetched(bus, before.counter);
    let end = run_turn(cpu, bus, &mut acts);
    let acts = spare.close_log(acts);
    let recorded = reported_of(number, word, &before, cpu, acts, end);
    Ok(TurnTaken { recorded, end })
}

/// The word of text at a counter, if it may be fetched.
#[tactic(auto, using(crate::proofs::TextWords::read_in_text))]
fn fetched<B: Bus>(bus: &B, counter: Word) -> Option<Word>
    ensures { result ≡ fetch_word (B.words bus.now) counter }
{
    if counter < TEXT_WORDS {
        bus.read(counter)
    } else {
        None
    }
}

/// The trace of an instruction, from the processor before and after it.
fn reported_of(
    number: u32,
    word: Option<Word>,
    before: &Cpu,
    after: &Cpu,
    acts: Acts,
    end: Option<BurstEnd>,
) -> TracedTurn
    ensures { result ≡ traced_of number word before.now after.now acts end }
{
    let mut recorded = TracedTurn {
        number,
        counter: before.counter,
        word,
        set: None,
        stored: None,
        jumped: None,
        acts,
    };
    if end.is_none() {
        let instr = instr_in(word);
        recorded.set = set_by(after, instr);
        recorded.stored = stored_by(before, instr);
        recorded.jumped = jumped_to(before.counter, after.counter);
    }
    recorded
}

/// The instruction of a word that was fetched.
fn instr_in(word: Option<Word>) -> Option<Instr>
    ensures instr { result ≡ instr_in word }
    ensures registers { IfSome result (λ instr. has_registers instr ≡ true) }
{
    match word {
        Some(word) => decode(word),
        None => None,
    }
}

/// The register that an instruction sets, and its word after the instruction.
fn set_by(after: &Cpu, instr: Option<Instr>) -> Option<(u8, Word)>
    requires { IfSome instr (λ instr. has_registers instr ≡ true) }
    ensures { result ≡ set_by after.now instr }
{
    match instr {
        Some(instr) => with_word(after, target_of(instr)),
        None => None,
    }
}

/// A register with its word.
fn with_word(cpu: &Cpu, register: Option<u8>) -> Option<(u8, Word)>
    requires { IfSome register (λ a. a < 16) }
    ensures { result ≡ with_word cpu.now register }
{
    match register {
        Some(register) => Some((register, cpu.registers[register as usize])),
        None => None,
    }
}

/// The register that an instruction sets.
fn target_of(instr: Instr) -> Option<u8>
    requires { has_registers instr ≡ true }
    ensures target { result ≡ target_of instr }
    ensures below { IfSome result (λ a. a < 16) }
{
    let fields = fields_of(instr);
    if row_of(fields.mnemonic).sets {
        Some(fields.a)
    } else {
        None
    }
}

/// The address that an instruction stores to, and the word, from the registers before the instruction.
fn stored_by(before: &Cpu, instr: Option<Instr>) -> Option<(Word, Word)>
    requires { IfSome instr (λ instr. has_registers instr ≡ true) }
    ensures { result ≡ stored_by before.now instr }
{
    match instr {
        Some(Instr::St { a, b, imm }) => {
            let address = before.registers[b as usize].wrapping_add(u32::from(imm));
            Some((address, before.registers[a as usize]))
        }
        _ => None,
    }
}

/// The counter after an instruction, if it is not the next one.
fn jumped_to(before: Word, after: Word) -> Option<Word>
    ensures { result ≡ jumped_to before after }
{
    if u64::from(after) == u64::from(before) + 1 {
        None
    } else {
        Some(after)
    }
}
