//! The stages that touch a domain, and arrivals.

ghost use Rattle.std.specs.Prelude.{◌≡◌, ◌≤◌, length, IfOk, OnErr, OnOk};
ghost use Rattle.nook_data.specs.Classes.{defaults_of};
ghost use Rattle.machine_defs.specs.Devices.{has_room, with_arrival};
ghost use Rattle.part_defs.specs.Domain.{collected_domain, loaded_domain, stopped_domain};
ghost use Rattle.machine_defs.specs.Entries.{released};
ghost use Rattle.machine_defs.specs.Views.PageMap.{none_lent};
ghost use Rattle.part_defs.specs.Stages.{with_reset};
ghost use Rattle.domain_call.specs.DomainView.{with_device};

use super::Domain;
use domain_pages::PageMap;
use nook_data::classes::Class;
use nook_data::entries::Released;
use nook_data::limits::{CONTEXTS, MOST_FRAME_WORDS};
use nook_data::lists::Words;
use nook_data::memory::NoMemory;
use nook_data::memory_map::{DATA_WORDS, TEXT_WORDS};
use nook_data::scenario::Image;

impl Domain {
    /// Frees every context and makes the driver unregistered.
    #[tactic(auto, unfolding(part_defs::specs::Domain::stopped_domain))]
    pub fn unwind(&mut self)
        ensures { self.new ≡ record self.old { state = stopped_domain self.old.state } }
    {
        self.tracker.unregister();
        self.contexts = [None; CONTEXTS];
    }

    /// Ends everything that the driver holds except its registration; returns what ended, in order. If memory runs out,
    /// the domain is unchanged.
    #[tactic(auto, unfolding(part_defs::specs::Domain::collected_domain), using(crate::proofs::Loans::lent_collected))]
    pub fn collect(&mut self) -> Result<Released, NoMemory>
        ensures released { IfOk result (λ ended. ended ≡ released self.old.state.entries) }
        ensures ok { OnOk result
            (self.new ≡ record self.old { state = collected_domain self.old.state }) }
        ensures err { OnErr result (self.new ≡ self.old) }
    {
        let ended = self.tracker.collect()?;
        revoke_all(&mut self.pages);
        Ok(ended)
    }

    /// Resets the device: its registers get the class's defaults; a disk's medium stays.
    pub fn reset(&mut self)
        ensures { self.new
            ≡ record self.old { state = with_reset (defaults_of self.old.class) self.old.state } }
    {
        self.device.reset();
    }

    /// Loads the image: its text, its initial words, and zeros up to the kernel's objects. It has at most
    /// 2,048 words of each. If memory runs out, the domain is unchanged.
    #[tactic(auto, unfolding(part_defs::specs::Domain::loaded_domain))]
    pub fn load(&mut self, image: &Image) -> Result<(), NoMemory>
        requires text { length image.now.text ≤ TEXT_WORDS }
        requires initial { length image.now.initial ≤ DATA_WORDS }
        ensures ok { OnOk result
            (self.new ≡ record self.old { state = loaded_domain image.now self.old.state }) }
        ensures err { OnErr result (self.new ≡ self.old) }
    {
        self.pages.load(image)
    }

    /// A frame of 1 to 64 words arrives at a net device; false, with the frame dropped, exactly if the ring
    /// holds 16. It takes no memory.
    pub fn arrive(&mut self, frame: Words) -> bool
        requires net { self.old.class ≡ Class.Net }
        requires some { 1 ≤ length frame }
        requires most { length frame ≤ MOST_FRAME_WORDS }
        ensures kept { result ≡ has_room self.old.state.device }
        ensures device { self.new ≡ record self.old {
          state = with_device (with_arrival frame self.old.state.device) self.old.state;
        } }
    {
        self.device.arrive(frame)
    }
}

/// Ends every right to write a context's buffer.
fn revoke_all(pages: &mut PageMap)
    requires { length pages.old.lent ≡ CONTEXTS }
    ensures { pages.new ≡ record pages.old { lent = none_lent } }
{
    for context in 0..17_u8 {
        pages.revoke(context);
    }
}
