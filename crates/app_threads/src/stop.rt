//! Why workers stop.

ghost use Rattle.std.specs.Prelude.{◌≡◌};
ghost use Rattle.app_threads.specs.declared.stop.WorkerStop.TheVariants as stop;

use crate::work::Work;
use nook_data::desks::DeskRefused;
use nook_data::memory::NoMemory;

/// Why there is no table of receipts.
#[derive(Clone, Copy)]
pub enum WorkerStop {
    /// A desk refused the worker of this work. `part` is the desk's index, and `index` that of the operation in
    /// the thread's script, or of the frame in the part's arrivals.
    Refused {
        work: Work,
        index: u32,
        part: u32,
        refusal: DeskRefused,
    },
    /// Memory ran out.
    NoMemory,
}

impl From<NoMemory> for WorkerStop {
    ghost from_gives = { λ _ given. given ≡ stop.NoMemory };

    fn from(_refused: NoMemory) -> WorkerStop {
        WorkerStop::NoMemory
    }
}
