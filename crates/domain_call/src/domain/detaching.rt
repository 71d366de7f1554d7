//! Taking a domain apart.

ghost use Rattle.std.specs.Prelude.{◌≡◌};

use super::Domain;
use crate::detached::Detached;

impl Domain {
    /// The pages, what the driver holds and the device, for a machine that runs one instruction at a time. The rest of
    /// the domain is dropped. It takes no memory.
    pub fn detach(self) -> Detached
        ensures words { result.pages.words ≡ self.state.memory }
        ensures entries { result.tracker.entries ≡ self.state.entries }
        ensures device { result.device ≡ self.state.device }
    {
        let Domain {
            class: _,
            starts: _,
            pages,
            tracker,
            device,
            contexts: _,
        } = self;
        Detached {
            pages,
            tracker,
            device,
        }
    }
}
