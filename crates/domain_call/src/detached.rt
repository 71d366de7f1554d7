//! Pages and a device taken out of their domain, for a machine that runs one instruction at a time.

ghost use Rattle.std.specs.Prelude.{◌≡◌, []};
ghost use Rattle.machine_defs.specs.Views.PageMap.{lent_contexts};

use device_models::Device;
use domain_pages::PageMap;
use driver_isa::{Bus, Decoded};
use nook_data::journal::ActLog;
use nook_data::lists::Word;
use object_tracker::Tracker;

/// Detached pages and a device; what the tracker records says where a machine may write.
#[derive(Drop)]
pub struct Detached {
    pub pages: PageMap,
    pub tracker: Tracker,
    pub device: Device,
    ghost loans: { pages.lent ≡ lent_contexts tracker.entries },
}

impl Bus for Detached {
    ghost words = { λ s. s.pages.words };

    ghost entries = { λ s. s.tracker.entries };

    ghost device = { λ s. s.device };

    ghost held = { λ s. [] };

    fn text(&self) -> &[Decoded] {
        self.pages.decoded()
    }

    fn read(&self, address: u32) -> Option<Word> {
        self.pages.read(address)
    }

    #[tactic(auto, using(domain_pages::proofs::Rights::rights_same))]
    fn write(&mut self, address: u32, word: Word) -> bool {
        self.pages.write(address, word)
    }

    fn input(&mut self, port: u32) -> Option<Word> {
        self.device.input(port)
    }

    fn output(&mut self, port: u32, word: Word, acts: &mut ActLog) -> bool {
        self.device.output(port, word, acts)
    }

    fn poke_text(&mut self, address: u32, word: Word) {
        self.pages.poke_text(address, word);
    }
}
