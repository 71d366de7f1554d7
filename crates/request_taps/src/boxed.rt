//! Listeners of any type as listeners of one type.

ghost use Rattle.std.specs.Prelude.{◌≡◌, map, IfOk};

use nook_data::memory::NoMemory;
use nook_data::steps::Event;
use nook_io::outside::Listener;
use std::alloc::Global;

/// A wrapper that makes a value's type one of this crate.
#[derive(Drop)]
pub struct BoxedListener<T> {
    value: T,
}

/// A listener that is used only through its trait.
pub type Boxed = BoxedListener<Box<dyn Listener>>;

/// Wraps each value.
pub fn all_held<T: Drop>(alloc: Global, values: Vec<T>) -> Result<Vec<BoxedListener<T>>, NoMemory>
    ensures { IfOk result (λ made. made.items ≡ map (λ v. record { value = v }) values.items) }
{
    let made = values
        .into_iter()
        .map(|value| BoxedListener { value })
        .collect(alloc)?;
    Ok(made)
}

impl Listener for BoxedListener<Box<dyn Listener>> {
    ghost listening = { λ s. (Listener-box s.value).listening s.value.value };

    fn part_mask(&self) -> u8 {
        self.value.part_mask()
    }

    fn kind_mask(&self) -> u8 {
        self.value.kind_mask()
    }

    fn limit(&self) -> u64 {
        self.value.limit()
    }

    fn total(&self) -> u64 {
        self.value.total()
    }

    fn hear(&mut self, part: u8, event: &Event) {
        self.value.hear(part, event)
    }
}
