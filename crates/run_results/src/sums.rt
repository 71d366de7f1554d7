//! Sums that fit in 64 bits.

ghost use Rattle.std.specs.Prelude.{◌≡◌, ◌+◌, IfOk};

use nook_data::memory::NoMemory;

/// A sum that fits in 64 bits.
pub fn add(sum: u64, more: u64) -> Result<u64, NoMemory>
    ensures { IfOk result (λ made. made ≡ sum + more) }
{
    match sum.checked_add(more) {
        Some(made) => Ok(made),
        None => Err(NoMemory),
    }
}
