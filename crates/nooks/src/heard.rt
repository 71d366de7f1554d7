//! Listeners of any kind as listeners of one type, so that everything below the program's call handles any listener.

ghost use Rattle.std.specs.Prelude.{◌≡◌, map, IfOk};

use nook_data::memory::NoMemory;
use nook_data::steps::Event;
use nook_io::outside::Listener;
use std::alloc::Global;

/// A value in a type of this crate.
#[derive(Drop)]
pub struct Heard<T> {
    value: T,
}

/// Values, each in a type of this crate.
pub fn all_heard<T: Drop>(alloc: Global, values: Vec<T>) -> Result<Vec<Heard<T>>, NoMemory>
    ensures { IfOk result (λ made. made.items ≡ map (λ v. record { value = v }) values.items) }
{
    let made = values
        .into_iter()
        .map(|value| Heard { value })
        .collect(alloc)?;
    Ok(made)
}

impl Listener for Heard<Box<dyn Listener>> {
    ghost listening = { λ s. (Listener-box s.value).listening s.value.value };

    fn part_mask(&self) -> u8 {
        self.value.part_mask()
    }

    fn kind_mask(&self) -> u8 {
        self.value.kind_mask()
    }

    fn limit(&self) -> u64 {
        self.value.limit()
    }

    fn total(&self) -> u64 {
        self.value.total()
    }

    fn hear(&mut self, part: u8, event: &Event) {
        self.value.hear(part, event)
    }
}
