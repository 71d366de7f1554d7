//! One machine instruction: the word at the counter is fetched and executed.

ghost use Rattle.std.specs.Prelude.{◌≡◌, ℕ, ◌+◌, ◌*◌, ◌%◌, ◌^◌, ◌<◌, ◌≤◌, IfSome, IsNone, None, Some, false, true, length, slice_index, slice_set, if◌then◌else◌};
ghost use Rattle.driver_isa.specs.Decoding.{instr_of, rest_instr};
ghost use Rattle.driver_isa.specs.Entries.{executed_entry, is_done, stays_in_text};
ghost use Rattle.driver_isa.specs.Fields.{has_registers};
ghost use Rattle.driver_isa.specs.Steps.{cpu_of, crossing_of, is_quiet, next_of};
ghost use Rattle.driver_isa.specs.Turns.{IsExecuted, machine_of, quiet};
ghost use Rattle.machine_defs.specs.Execution.{goes, next_counter, loads, past_input, past_output, stores};
ghost use Rattle.machine_defs.specs.Machine.{decode_of};
ghost use Rattle.machine_defs.specs.Execution.{turn as machine_turn};
ghost use Rattle.machine_defs.specs.Devices.{input_of, output_of};

use crate::bus::Bus;
use crate::code::decoded_of;
use crate::instructions::{Decoded, Op, instr_of};
use nook_data::journal::ActLog;
use nook_data::limits::MOST_ACTS;
use nook_data::lists::Word;
use nook_data::machine::{BurstEnd, Cpu, TrapCause};
use nook_data::memory_map::TEXT_WORDS;

/// What an instruction leads to.
#[derive(Clone, Copy)]
pub enum InstructionResult {
    /// The next word.
    Next,
    /// The next word, perhaps with another act.
    Acted,
    /// Another word.
    To(Word),
    /// A crossing, with the counter that it leaves.
    Ended { last: Word, end: BurstEnd },
}

/// Executes one instruction and returns its crossing, if it is one. An instruction that traps changes nothing else.
pub fn turn<B: Bus>(cpu: &mut Cpu, bus: &mut B, acts: &mut ActLog) -> Option<BurstEnd>
    requires { length acts.old < MOST_ACTS }
    ensures turned { IsExecuted
        (machine_turn (B.entries bus.old) (machine_of cpu.old (B.words bus.old) (B.device bus.old)))
        (machine_of cpu.new (B.words bus.new) (B.device bus.new)) acts.old acts.new result }
    ensures entries { B.entries bus.new ≡ B.entries bus.old }
    ensures held { B.held bus.new ≡ B.held bus.old }
{
    let counter = cpu.counter;
    match take_turn(counter, &mut cpu.registers, bus, acts) {
        InstructionResult::Next | InstructionResult::Acted => {
            cpu.counter = counter.wrapping_add(1);
            None
        }
        InstructionResult::To(target) => {
            cpu.counter = target;
            None
        }
        InstructionResult::Ended { last, end } => {
            cpu.counter = last;
            Some(end)
        }
    }
}

/// What is left to do of an instruction after what only reads the bus.
#[derive(Clone, Copy)]
pub enum Rest {
    Nothing,
    /// A jump to an address in a register.
    Jump,
    /// A load from an address outside memory.
    Load,
    Store,
    Input,
    Output,
    Call,
    Reply,
    Explicit,
    NoInstruction,
}

/// An entry computed as far as it only reads the bus: where it leads, if nothing is left to do.
#[derive(Clone, Copy)]
pub struct Computed {
    pub at: usize,
    pub rest: Rest,
}

/// Executes the word at a counter. The counter is passed and returned by value, so a loop keeps it in a register.
#[tactic(auto, unfolding(machine_defs::specs::Execution::turn))]
pub fn take_turn<B: Bus>(
    counter: Word,
    registers: &mut [Word; 16],
    bus: &mut B,
    acts: &mut ActLog,
) -> InstructionResult
    requires { length acts.old < MOST_ACTS }
    ensures turned { IsExecuted
        (machine_turn (B.entries bus.old)
        (machine_of (cpu_of counter registers.old) (B.words bus.old) (B.device bus.old)))
        (machine_of (cpu_of (next_of counter result) registers.new)
        (B.words bus.new) (B.device bus.new))
        acts.old acts.new (crossing_of result) }
    ensures quiet { is_quiet result ≡ true → acts.new ≡ acts.old }
    ensures entries { B.entries bus.new ≡ B.entries bus.old }
    ensures held { B.held bus.new ≡ B.held bus.old }
{
    if counter >= TEXT_WORDS {
        return trap(counter, TrapCause::BadFetch);
    }
    let entry = entry_at(bus, counter);
    let computed = compute(&entry, counter as usize, registers, bus);
    if is_done(computed.rest) {
        InstructionResult::To(computed.at as u32)
    } else {
        perform(computed.rest, &entry, counter, registers, bus, acts)
    }
}

/// The decoded word at an address of the text.
fn entry_at<B: Bus>(bus: &B, address: u32) -> Decoded
    requires { address < TEXT_WORDS }
    ensures decoded { instr_of result ≡ decode_of (slice_index (B.words bus.now) address) }
    ensures registers { IfSome (instr_of result) (λ i. has_registers i ≡ true) }
{
    let entry = bus.text()[address as usize];
    match instr_of(&entry) {
        Some(_) => entry,
        None => decoded_of(bus.read(address).unwrap_or(0)),
    }
}

/// Whether nothing is left to do of an instruction.
pub fn is_done(rest: Rest) -> bool
    ensures { result ≡ is_done rest }
{
    matches!(rest, Rest::Nothing)
}

/// Executes an entry as far as that only reads the bus: all of it, or nothing.
#[inline(always)]
pub fn compute<B: Bus>(entry: &Decoded, at: usize, registers: &mut [Word; 16], bus: &B) -> Computed
    requires at { at ≤ TEXT_WORDS }
    requires fields { IfSome (instr_of entry.now) (λ i. has_registers i ≡ true) }
    ensures going { is_done result.rest ≡ true
        → executed_entry (B.entries bus.now)
        (machine_of (cpu_of at registers.old) (B.words bus.now) (B.device bus.now))
        (instr_of entry.now)
        ≡ goes (machine_of (cpu_of result.at registers.new)
        (B.words bus.now) (B.device bus.now)) }
    ensures left { is_done result.rest ≡ false → registers.new ≡ registers.old }
    ensures rest { is_done result.rest ≡ false
        → instr_of entry.now ≡ rest_instr result.rest entry.now.a entry.now.b entry.now.imm }
    ensures inside { IfSome (instr_of entry.now) (λ i. stays_in_text i ≡ true)
        → is_done result.rest ≡ true → at < TEXT_WORDS → result.at ≤ TEXT_WORDS }
    ensures word { result.at < 2 ^ 32 }
{
    match entry.op {
        Op::None => leaving(Rest::NoInstruction, at),
        Op::Li => put(registers, entry.a, u32::from(entry.imm), at),
        Op::Lui => put(
            registers,
            entry.a,
            with_upper(register(registers, entry.a), entry.imm),
            at,
        ),
        Op::Mov => put(registers, entry.a, register(registers, entry.b), at),
        Op::Add => put(
            registers,
            entry.a,
            register(registers, entry.a).wrapping_add(register(registers, entry.b)),
            at,
        ),
        Op::Sub => put(
            registers,
            entry.a,
            register(registers, entry.a).wrapping_sub(register(registers, entry.b)),
            at,
        ),
        Op::And => put(
            registers,
            entry.a,
            register(registers, entry.a) & register(registers, entry.b),
            at,
        ),
        Op::Or => put(
            registers,
            entry.a,
            register(registers, entry.a) | register(registers, entry.b),
            at,
        ),
        Op::Xor => put(
            registers,
            entry.a,
            register(registers, entry.a) ^ register(registers, entry.b),
            at,
        ),
        Op::Shl => put(
            registers,
            entry.a,
            register(registers, entry.a) << (register(registers, entry.b) % 32),
            at,
        ),
        Op::Shr => put(
            registers,
            entry.a,
            register(registers, entry.a) >> (register(registers, entry.b) % 32),
            at,
        ),
        Op::Addi => put(
            registers,
            entry.a,
            offset(registers, entry.b, entry.imm),
            at,
        ),
        Op::Ld => match bus.read(offset(registers, entry.b, entry.imm)) {
            Some(word) => put(registers, entry.a, word, at),
            None => leaving(Rest::Load, at),
        },
        Op::Jmp => jump(entry.imm),
        Op::Beq => branch(
            register(registers, entry.a) == register(registers, entry.b),
            entry,
            at,
        ),
        Op::Bne => branch(
            register(registers, entry.a) != register(registers, entry.b),
            entry,
            at,
        ),
        Op::Blt => branch(
            register(registers, entry.a) < register(registers, entry.b),
            entry,
            at,
        ),
        Op::Jal => link(registers, entry, at),
        // Left, although it only reads, since a tested target would need a second index in the loop over entries.
        Op::Jr => leaving(Rest::Jump, at),
        Op::St => leaving(Rest::Store, at),
        Op::In => leaving(Rest::Input, at),
        Op::Out => leaving(Rest::Output, at),
        Op::Kcall => leaving(Rest::Call, at),
        Op::Ret => leaving(Rest::Reply, at),
        Op::Fault => leaving(Rest::Explicit, at),
    }
}

/// Does what is left of an instruction.
fn perform<B: Bus>(
    rest: Rest,
    entry: &Decoded,
    counter: Word,
    registers: &mut [Word; 16],
    bus: &mut B,
    acts: &mut ActLog,
) -> InstructionResult
    requires fields { IfSome (instr_of entry.now) (λ i. has_registers i ≡ true) }
    requires some { is_done rest ≡ false }
    requires rest { instr_of entry.now ≡ rest_instr rest entry.now.a entry.now.b entry.now.imm }
    requires room { length acts.old < MOST_ACTS }
    ensures turned { IsExecuted
        (executed_entry (B.entries bus.old)
        (machine_of (cpu_of counter registers.old) (B.words bus.old) (B.device bus.old))
        (instr_of entry.now))
        (machine_of (cpu_of (next_of counter result) registers.new)
        (B.words bus.new) (B.device bus.new))
        acts.old acts.new (crossing_of result) }
    ensures quiet { is_quiet result ≡ true → acts.new ≡ acts.old }
    ensures entries { B.entries bus.new ≡ B.entries bus.old }
    ensures held { B.held bus.new ≡ B.held bus.old }
{
    match rest {
        Rest::Nothing => InstructionResult::Next,
        Rest::Jump => InstructionResult::To(register(registers, entry.a)),
        Rest::Load => load(
            counter,
            registers,
            bus,
            entry.a,
            offset(registers, entry.b, entry.imm),
        ),
        Rest::Store => store(
            counter,
            registers,
            bus,
            entry.a,
            offset(registers, entry.b, entry.imm),
        ),
        Rest::Input => take(counter, registers, bus, entry.a, entry.imm),
        Rest::Output => give(counter, registers, bus, acts, entry.a, entry.imm),
        Rest::Call => cross(
            counter,
            BurstEnd::Kcall {
                service: u32::from(entry.imm),
            },
        ),
        Rest::Reply => cross(
            counter,
            BurstEnd::Reply {
                status: register(registers, entry.a),
            },
        ),
        Rest::Explicit => trap(counter, TrapCause::Explicit),
        Rest::NoInstruction => trap(counter, TrapCause::BadOpcode),
    }
}

/// Does what is left of an instruction and returns the index of the next entry, unless the instruction ends the burst
/// or leaves the text; `None` if it may, with nothing changed.
#[inline(always)]
pub fn finish<B: Bus>(
    rest: Rest,
    entry: Decoded,
    at: usize,
    registers: &mut [Word; 16],
    bus: &mut B,
    acts: &mut ActLog,
) -> Option<usize>
    requires at { at ≤ TEXT_WORDS }
    requires fields { IfSome (instr_of entry) (λ i. has_registers i ≡ true) }
    requires some { is_done rest ≡ false }
    requires rest { instr_of entry ≡ rest_instr rest entry.a entry.b entry.imm }
    requires room { length acts.old < MOST_ACTS }
    ensures done { IfSome result (λ next. IsExecuted
        (executed_entry (B.entries bus.old)
        (machine_of (cpu_of at registers.old) (B.words bus.old) (B.device bus.old))
        (instr_of entry))
        (machine_of (cpu_of next registers.new) (B.words bus.new) (B.device bus.new))
        acts.old acts.new None) }
    ensures inside { IfSome result (λ next. at < TEXT_WORDS → next ≤ TEXT_WORDS) }
    ensures unchanged { IsNone result
        → machine_of (cpu_of at registers.new) (B.words bus.new) (B.device bus.new)
        ≡ machine_of (cpu_of at registers.old) (B.words bus.old) (B.device bus.old) }
    ensures acts { IsNone result → acts.new ≡ acts.old }
    ensures room { length acts.new < MOST_ACTS }
    ensures entries { B.entries bus.new ≡ B.entries bus.old }
    ensures held { B.held bus.new ≡ B.held bus.old }
{
    match rest {
        Rest::Jump => jump_to(register(registers, entry.a)),
        Rest::Store => {
            let address = offset(registers, entry.b, entry.imm);
            if bus.write(address, register(registers, entry.a)) {
                Some(next_index(at))
            } else {
                None
            }
        }
        Rest::Input => match bus.input(u32::from(entry.imm)) {
            Some(word) => {
                registers[entry.a as usize] = word;
                Some(next_index(at))
            }
            None => None,
        },
        Rest::Output => {
            let has_room = acts.len() + 1 < MOST_ACTS;
            if has_room && bus.output(u32::from(entry.imm), register(registers, entry.a), acts) {
                Some(next_index(at))
            } else {
                None
            }
        }
        _ => None,
    }
}

/// The index after that of an entry.
fn next_index(at: usize) -> usize
    requires { at ≤ TEXT_WORDS }
    ensures next { result ≡ next_counter at }
    ensures inside { at < TEXT_WORDS → result ≤ TEXT_WORDS }
{
    at + 1
}

/// A jump's target, if it is in the text.
fn jump_to(target: Word) -> Option<usize>
    ensures inside { IfSome result (λ next. (next ≡ target) × (next < TEXT_WORDS)) }
{
    if target < TEXT_WORDS {
        Some(target as usize)
    } else {
        None
    }
}

/// A register's word.
fn register(registers: &[Word; 16], a: u8) -> Word
    requires { a < 16 }
    ensures { result ≡ slice_index registers.now a }
{
    registers[a as usize]
}

/// The sum of a register's word and an immediate, modulo 2^32.
fn offset(registers: &[Word; 16], b: u8, imm: u16) -> Word
    requires { b < 16 }
    ensures { result ≡ (slice_index registers.now b + imm) % 2 ^ 32 }
{
    register(registers, b).wrapping_add(u32::from(imm))
}

/// The word with its upper 16 bits replaced.
fn with_upper(word: Word, upper: u16) -> Word
    ensures { result ≡ upper * 2 ^ 16 + word % 2 ^ 16 }
{
    u32::from(upper) * 0x1_0000 + word % 0x1_0000
}

/// A trap, which leaves the counter unchanged.
fn trap(counter: Word, cause: TrapCause) -> InstructionResult
    ensures { result ≡ InstructionResult.Ended counter (BurstEnd.Trap cause) }
{
    InstructionResult::Ended {
        last: counter,
        end: BurstEnd::Trap(cause),
    }
}

/// A crossing that leaves the counter on the next word.
fn cross(counter: Word, end: BurstEnd) -> InstructionResult
    ensures { result ≡ InstructionResult.Ended (next_counter counter) end }
{
    InstructionResult::Ended {
        last: counter.wrapping_add(1),
        end,
    }
}

/// Sets a register.
fn set(registers: &mut [Word; 16], a: u8, word: Word) -> InstructionResult
    requires { a < 16 }
    ensures registers { registers.new ≡ slice_set registers.old a word }
    ensures goes_on { result ≡ InstructionResult.Next }
{
    registers[a as usize] = word;
    InstructionResult::Next
}

/// An instruction of which something is left to do.
fn leaving(rest: Rest, at: usize) -> Computed
    ensures rest { result.rest ≡ rest }
    ensures at { result.at ≡ at }
{
    Computed { at, rest }
}

/// Sets a register, and leads to the next word.
fn put(registers: &mut [Word; 16], a: u8, word: Word, at: usize) -> Computed
    requires register { a < 16 }
    requires at { at ≤ TEXT_WORDS }
    ensures registers { registers.new ≡ slice_set registers.old a word }
    ensures goes_on { result ≡ record { at = next_counter at; rest = Rest.Nothing } }
{
    registers[a as usize] = word;
    Computed {
        at: at + 1,
        rest: Rest::Nothing,
    }
}

/// Leads to a target.
fn jump(target: u16) -> Computed
    ensures goes { result ≡ record { at = target; rest = Rest.Nothing } }
    ensures word { result.at < 2 ^ 32 }
{
    Computed {
        at: usize::from(target),
        rest: Rest::Nothing,
    }
}

/// Leads to an entry's target if the comparison holds.
// The target is read only if it is needed, so that the machine code is a branch, which the processor can predict.
fn branch(holds: bool, entry: &Decoded, at: usize) -> Computed
    requires { at ≤ TEXT_WORDS }
    ensures goes { result ≡ record {
      at = if holds then entry.now.imm else next_counter at;
      rest = Rest.Nothing;
    } }
    ensures word { result.at < 2 ^ 32 }
{
    if holds {
        jump(entry.imm)
    } else {
        Computed {
            at: at + 1,
            rest: Rest::Nothing,
        }
    }
}

/// Leads to an entry's target, and sets a register to the next word's address.
fn link(registers: &mut [Word; 16], entry: &Decoded, at: usize) -> Computed
    requires register { entry.now.a < 16 }
    requires at { at ≤ TEXT_WORDS }
    ensures registers { registers.new ≡ slice_set registers.old entry.now.a (next_counter at) }
    ensures goes { result ≡ record { at = entry.now.imm; rest = Rest.Nothing } }
    ensures word { result.at < 2 ^ 32 }
{
    registers[entry.a as usize] = at as u32 + 1;
    jump(entry.imm)
}

/// Loads the word at `address` into a register.
fn load<B: Bus>(
    counter: Word,
    registers: &mut [Word; 16],
    bus: &B,
    a: u8,
    address: u32,
) -> InstructionResult
    requires { a < 16 }
    ensures loaded { loads
        (machine_of (cpu_of counter registers.old) (B.words bus.now) (B.device bus.now)) a address
        ≡ quiet (machine_of (cpu_of (next_of counter result) registers.new)
        (B.words bus.now) (B.device bus.now)) (crossing_of result) }
{
    match bus.read(address) {
        Some(word) => set(registers, a, word),
        None => trap(counter, TrapCause::BadRead { address }),
    }
}

/// Stores a register's word at `address`.
fn store<B: Bus>(
    counter: Word,
    registers: &[Word; 16],
    bus: &mut B,
    a: u8,
    address: u32,
) -> InstructionResult
    requires { a < 16 }
    ensures stored { stores (B.entries bus.old)
        (machine_of (cpu_of counter registers.now) (B.words bus.old) (B.device bus.old)) a address
        ≡ quiet (machine_of (cpu_of (next_of counter result) registers.now)
        (B.words bus.new) (B.device bus.new)) (crossing_of result) }
    ensures entries { B.entries bus.new ≡ B.entries bus.old }
    ensures held { B.held bus.new ≡ B.held bus.old }
{
    if bus.write(address, register(registers, a)) {
        InstructionResult::Next
    } else {
        trap(counter, TrapCause::ForeignWrite { address })
    }
}

/// Reads a word from the device at `port` into a register.
fn take<B: Bus>(
    counter: Word,
    registers: &mut [Word; 16],
    bus: &mut B,
    a: u8,
    port: u16,
) -> InstructionResult
    requires { a < 16 }
    ensures taken { past_input
        (machine_of (cpu_of counter registers.old) (B.words bus.old) (B.device bus.old))
        a port (input_of port (B.device bus.old))
        ≡ quiet (machine_of (cpu_of (next_of counter result) registers.new)
        (B.words bus.new) (B.device bus.new)) (crossing_of result) }
    ensures entries { B.entries bus.new ≡ B.entries bus.old }
    ensures held { B.held bus.new ≡ B.held bus.old }
{
    let port = u32::from(port);
    match bus.input(port) {
        Some(word) => set(registers, a, word),
        None => trap(counter, TrapCause::BadPort { port }),
    }
}

/// Writes a register's word to the device at `port`.
fn give<B: Bus>(
    counter: Word,
    registers: &[Word; 16],
    bus: &mut B,
    acts: &mut ActLog,
    a: u8,
    port: u16,
) -> InstructionResult
    requires register { a < 16 }
    requires room { length acts.old < MOST_ACTS }
    ensures turned { IsExecuted
        (past_output
        (machine_of (cpu_of counter registers.now) (B.words bus.old) (B.device bus.old)) port
        (output_of port (slice_index registers.now a) (B.device bus.old)))
        (machine_of (cpu_of (next_of counter result) registers.now)
        (B.words bus.new) (B.device bus.new))
        acts.old acts.new (crossing_of result) }
    ensures quiet { is_quiet result ≡ true → acts.new ≡ acts.old }
    ensures entries { B.entries bus.new ≡ B.entries bus.old }
    ensures held { B.held bus.new ≡ B.held bus.old }
{
    let port = u32::from(port);
    if bus.output(port, register(registers, a), acts) {
        InstructionResult::Acted
    } else {
        trap(counter, TrapCause::BadPort { port })
    }
}
