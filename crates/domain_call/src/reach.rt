//! What a driver's machine reaches of a domain during a burst.

ghost use Rattle.std.specs.Prelude.{◌≡◌, ◌∷◌, []};
ghost use Rattle.machine_defs.specs.Views.PageMap.{lent_contexts};

use device_models::Device;
use domain_pages::PageMap;
use driver_isa::{Bus, Decoded};
use nook_data::journal::ActLog;
use nook_data::lists::Word;
use object_tracker::Tracker;

/// Pages and a device, lent to a machine; what the tracker records says where it may write.
#[derive(Drop)]
pub struct Reach<'a> {
    pub pages: &'a mut PageMap,
    pub tracker: &'a Tracker,
    pub device: &'a mut Device,
    ghost loans: { pages.now.lent ≡ lent_contexts tracker.now.entries },
}

impl<'a> Bus for Reach<'a> {
    ghost words = { λ s. s.pages.now.words };

    ghost entries = { λ s. s.tracker.now.entries };

    ghost device = { λ s. s.device.now };

    ghost held = { λ s. s.pages.ghost_name ∷ s.device.ghost_name ∷ [] };

    fn text(&self) -> &[Decoded] {
        self.pages.decoded()
    }

    fn read(&self, address: u32) -> Option<Word> {
        self.pages.read(address)
    }

    #[tactic(auto, using(domain_pages::proofs::Rights::rights_same))]
    fn write(&mut self, address: u32, word: Word) -> bool {
        self.pages.write(address, word)
    }

    fn input(&mut self, port: u32) -> Option<Word> {
        self.device.input(port)
    }

    fn output(&mut self, port: u32, word: Word, acts: &mut ActLog) -> bool {
        self.device.output(port, word, acts)
    }

    fn poke_text(&mut self, address: u32, word: Word) {
        self.pages.poke_text(address, word);
    }
}
