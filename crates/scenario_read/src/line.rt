//! The line that reports why an input is refused.

ghost use Rattle.std.specs.Prelude.{◌≡◌, ◌∷◌, ◌++◌, codes, IfOk, OnOk, flat_map, string_bytes, decimal};
ghost use Rattle.input_defs.specs.Faults.{asm_number, fault_line, fault_text, path_text, step_text};

use asm_defs::assembler::AsmKind;
use asm_defs::keys::key_text;
use input_defs::input::{InputFault, PathStep, Refusal};
use nook_data::memory::NoMemory;
use std::alloc::Global;
use std::fmt::Write;

/// The line that reports an input error: its number, its name and its path, with a line feed.
///
/// # Errors
///
/// If memory runs out.
#[tactic(auto, unfolding(input_defs::specs::Faults::fault_line))]
pub fn fault_line(alloc: Global, refusal: &Refusal) -> Result<String, NoMemory>
    ensures { IfOk result (λ line. string_bytes line ≡ fault_line refusal.now) }
{
    let mut line = String::new(alloc);
    line.push_str("fault ")?;
    push_fault(&mut line, refusal.fault)?;
    line.push_str(" ")?;
    push_path(&mut line, refusal.path.as_slice())?;
    line.push_str("\n")?;
    Ok(line)
}

/// Adds an input error's number and name, and for an assembler error its own number and its line.
fn push_fault(line: &mut String, fault: InputFault) -> Result<(), NoMemory>
    ensures { OnOk result (string_bytes line.new ≡ string_bytes line.old ++ fault_text fault) }
{
    match fault {
        InputFault::NotJson => line.push_str("1 not_json")?,
        InputFault::UnknownKey => line.push_str("2 unknown_key")?,
        InputFault::MissingKey => line.push_str("3 missing_key")?,
        InputFault::WrongKind => line.push_str("4 wrong_kind")?,
        InputFault::NumberRange => line.push_str("5 number_range")?,
        InputFault::TooMany => line.push_str("6 too_many")?,
        InputFault::BadImage => line.push_str("7 bad_image")?,
        InputFault::BadAsm(asm) => push_asm(line, asm.kind, asm.line)?,
        InputFault::BadClass => line.push_str("9 bad_class")?,
        InputFault::DoubleName => line.push_str("10 double_name")?,
    }
    Ok(())
}

/// Adds an assembler error.
fn push_asm(line: &mut String, kind: AsmKind, at: u64) -> Result<(), NoMemory>
    ensures { OnOk result (string_bytes line.new
        ≡ string_bytes line.old
        ++ (codes "8 bad_asm " ++ decimal (asm_number kind) ++ codes " line " ++ decimal at)) }
{
    let number = asm_number(kind);
    write!(line, "8 bad_asm {number} line {at}")?;
    Ok(())
}

/// The number of an assembler error.
fn asm_number(kind: AsmKind) -> u32
    ensures { result ≡ asm_number kind }
{
    match kind {
        AsmKind::BadToken => 1,
        AsmKind::UnknownName => 2,
        AsmKind::WrongOperands => 3,
        AsmKind::NumberRange => 4,
        AsmKind::DoubleLabel => 5,
        AsmKind::MissingLabel => 6,
        AsmKind::TextTooLong => 7,
        AsmKind::DataTooLong => 8,
        AsmKind::MissingEntry => 9,
    }
}

/// Adds a path: the keys and indexes, each after a `/`; the root is a single `/`.
fn push_path(line: &mut String, path: &[PathStep]) -> Result<(), NoMemory>
    ensures { OnOk result (string_bytes line.new ≡ string_bytes line.old ++ path_text path.now) }
{
    if path.is_empty() {
        line.push_str("/")?;
        return Ok(());
    }
    push_steps(line, path)
}

/// Adds the steps of a path.
fn push_steps(line: &mut String, path: &[PathStep]) -> Result<(), NoMemory>
    ensures { OnOk result
        (string_bytes line.new ≡ string_bytes line.old ++ flat_map step_text path.now) }
{
    for step in path {
        push_step(line, *step)?;
    }
    Ok(())
}

/// Adds a `/` and a key or an index.
fn push_step(line: &mut String, step: PathStep) -> Result<(), NoMemory>
    ensures { OnOk result (string_bytes line.new ≡ string_bytes line.old ++ step_text step) }
{
    match step {
        PathStep::At(key) => {
            line.push_str("/")?;
            line.push_str(key_text(key))?;
        }
        PathStep::Position(index) => write!(line, "/{index}")?,
    }
    Ok(())
}
