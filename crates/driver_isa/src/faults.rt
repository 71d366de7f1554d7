//! The faults that strike in a burst, and what each kind of them does.

ghost use Rattle.std.specs.Prelude.{◌≡◌, None, Some, false};
ghost use Rattle.driver_isa.specs.Faults.{is_refused};
ghost use Rattle.driver_isa.specs.Runs.{is_due};
ghost use Rattle.driver_isa.specs.Steps.{cpu_of};
ghost use Rattle.driver_isa.specs.Turns.{machine_of};
ghost use Rattle.machine_defs.specs.Burst.{strikes_at, struck_machine, trap_of};

use crate::bus::Bus;
use nook_data::lists::Word;
use nook_data::machine::TrapCause;
use nook_data::memory_map::TEXT_WORDS;
use nook_data::scenario::{Fault, FaultKind};

/// The result of striking the faults that were due: the faults after them, and the trap if one of them was one.
#[derive(Drop)]
pub struct Struck<'a> {
    pub rest: &'a [Fault],
    pub stopped: Option<TrapCause>,
}

/// Whether a fault was refused, and its trap, if it is one.
#[derive(Clone, Copy)]
pub struct Hit {
    pub refused: bool,
    pub stopped: Option<TrapCause>,
}

/// Strikes the first faults that are due after this many instructions, in order, up to one that is a trap. `counter`
/// is the processor's, which no fault changes.
// Most bursts have no faults left, and a walk asks before each instruction.
#[inline(always)]
pub fn strike_due<'a, B: Bus>(
    faults: &'a [Fault],
    point: u32,
    counter: Word,
    registers: &mut [Word; 16],
    bus: &mut B,
) -> Struck<'a>
    ensures struck { strikes_at point (B.entries bus.old) faults.now
        (machine_of (cpu_of counter registers.old) (B.words bus.old) (B.device bus.old))
        ≡ record {
          machine = machine_of (cpu_of counter registers.new) (B.words bus.new) (B.device bus.new);
          rest = result.rest.now;
          stopped = result.stopped;
        } }
    ensures clear { result.stopped ≡ None → is_due point result.rest.now ≡ false }
    ensures entries { B.entries bus.new ≡ B.entries bus.old }
    ensures held { B.held bus.new ≡ B.held bus.old }
{
    if faults.is_empty() {
        return Struck {
            rest: faults,
            stopped: None,
        };
    }
    strike_front(faults, point, counter, registers, bus)
}

/// Does the same for any faults, one after the other.
#[inline(never)]
fn strike_front<'a, B: Bus>(
    faults: &'a [Fault],
    point: u32,
    counter: Word,
    registers: &mut [Word; 16],
    bus: &mut B,
) -> Struck<'a>
    ensures struck { strikes_at point (B.entries bus.old) faults.now
        (machine_of (cpu_of counter registers.old) (B.words bus.old) (B.device bus.old))
        ≡ record {
          machine = machine_of (cpu_of counter registers.new) (B.words bus.new) (B.device bus.new);
          rest = result.rest.now;
          stopped = result.stopped;
        } }
    ensures clear { result.stopped ≡ None → is_due point result.rest.now ≡ false }
    ensures entries { B.entries bus.new ≡ B.entries bus.old }
    ensures held { B.held bus.new ≡ B.held bus.old }
{
    let mut rest = faults;
    while let [fault, more @ ..] = rest {
        if fault.after != point {
            break;
        }
        rest = more;
        let hit = strike(fault.kind, counter, registers, bus);
        if hit.stopped.is_some() {
            return Struck {
                rest,
                stopped: hit.stopped,
            };
        }
    }
    Struck {
        rest,
        stopped: None,
    }
}

/// Strikes one fault. A refused poke or code fault does nothing; nor does a fault of a register that does not exist.
pub fn strike<B: Bus>(
    kind: FaultKind,
    counter: Word,
    registers: &mut [Word; 16],
    bus: &mut B,
) -> Hit
    ensures struck { struck_machine (B.entries bus.old) kind
        (machine_of (cpu_of counter registers.old) (B.words bus.old) (B.device bus.old))
        ≡ machine_of (cpu_of counter registers.new) (B.words bus.new) (B.device bus.new) }
    ensures refused { result.refused ≡ is_refused (B.entries bus.old) kind }
    ensures trap { result.stopped ≡ trap_of kind }
    ensures entries { B.entries bus.new ≡ B.entries bus.old }
    ensures held { B.held bus.new ≡ B.held bus.old }
{
    match kind {
        FaultKind::Trap => stopping(TrapCause::Injected),
        FaultKind::Hang => stopping(TrapCause::Hang),
        FaultKind::Poke { address, value } => going_on(!bus.write(address, value)),
        FaultKind::Code { address, value } => {
            if address >= TEXT_WORDS {
                return going_on(true);
            }
            bus.poke_text(address, value);
            going_on(false)
        }
        FaultKind::Reg { register, value } => {
            if register < 16 {
                registers[register as usize] = value;
            }
            going_on(false)
        }
    }
}

/// A fault that is a trap.
fn stopping(cause: TrapCause) -> Hit
    ensures { result ≡ record { refused = false; stopped = Some cause } }
{
    Hit {
        refused: false,
        stopped: Some(cause),
    }
}

/// A fault that is not a trap.
fn going_on(refused: bool) -> Hit
    ensures { result ≡ record { refused = refused; stopped = None } }
{
    Hit {
        refused,
        stopped: None,
    }
}
