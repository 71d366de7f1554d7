//! Why a text has no image.

ghost use Rattle.std.specs.Prelude.{◌≡◌};

use asm_defs::assembler::AsmKind;
use nook_data::memory::NoMemory;
use thiserror::Error;

/// Why a text does not assemble.
#[derive(Debug, Drop, Error)]
pub enum AsmError {
    /// The first error of the text: the first line with an error, counted from 1, and the smallest kind that it has. A
    /// missing class or entry is reported at the line after the last.
    #[error("line {line}: {kind:?}")]
    Bad { kind: AsmKind, line: u64 },
    /// An allocation failed.
    #[error("memory is wanting")]
    NoMemory,
}

impl From<NoMemory> for AsmError {
    ghost use Rattle.driver_asm.specs.declared.error.AsmError.TheVariants as errors;

    ghost from_gives = { λ _ error. error ≡ errors.NoMemory };

    fn from(_no_memory: NoMemory) -> AsmError {
        AsmError::NoMemory
    }
}

/// Why a line is not accepted.
#[derive(Drop)]
pub enum LineStop {
    /// The line's error.
    Bad(AsmKind),
    /// An allocation failed.
    NoMemory,
}

impl From<NoMemory> for LineStop {
    ghost use Rattle.driver_asm.specs.declared.error.LineStop.TheVariants as stops;

    ghost from_gives = { λ _ stop. stop ≡ stops.NoMemory };

    fn from(_no_memory: NoMemory) -> LineStop {
        LineStop::NoMemory
    }
}

impl From<AsmKind> for LineStop {
    ghost use Rattle.driver_asm.specs.declared.error.LineStop.TheVariants as stops;

    ghost from_gives = { λ kind stop. stop ≡ stops.Bad kind };

    fn from(kind: AsmKind) -> LineStop {
        LineStop::Bad(kind)
    }
}
