//! The domain and its queries.

ghost use Rattle.std.specs.Prelude.{◌≡◌, ◌+◌, ◌<◌, ◌≤◌, is_some, length, slice_index, IfOk};
ghost use Rattle.std.specs.List.{list_any};
ghost use Rattle.nook_data.specs.Classes.{defaults_of};
ghost use Rattle.machine_defs.specs.Devices.{opening_device};
ghost use Rattle.machine_defs.specs.Views.PageMap.{none_lent};
ghost use Rattle.part_defs.specs.Domain.{attempt_bursts, buffer_words, context_of, first_argument, second_argument};
ghost use Rattle.machine_defs.specs.Entries.{is_buffer_of, is_registered};
ghost use Rattle.nook_data.specs.Layout.{buffer_start};
ghost use Rattle.machine_defs.specs.Pages.{opening_memory};
ghost use Rattle.domain_call.specs.DomainView.{opening_view};

mod bursts;
mod contexts;
mod detaching;
mod packed;
mod recovery;
mod serving;

use class_table::defaults_of;
use device_models::Device;
use domain_pages::PageMap;
use nook_data::classes::Class;
use nook_data::limits::CONTEXTS;
use nook_data::lists::{TryCopy, Word, Words};
use nook_data::machine::Context;
use nook_data::memory::{NoMemory, Room};
use nook_data::memory_map::{
    BUFFER_WORDS, BUFFERS_END, DATA_START, DATA_WORDS, OBJECT_WORDS, buffer_start,
};
use nook_data::scenario::PartSpec;
use object_tracker::Tracker;
pub use packed::PackedDomain;
use std::alloc::Global;
use std::marker::Model;

/// A driver's domain. Contracts see its part of the state, where the heap begins, and the class. The pages always
/// lend for writing exactly the buffers that the tracker's entries lend for writing.
pub struct Domain {
    class: Class,
    starts: Words,
    pages: PageMap,
    tracker: Tracker,
    device: Device,
    contexts: [Option<Context>; CONTEXTS],
}

impl Model for Domain {
    ghost use Rattle.domain_call.specs.DomainView.{DomainView, IsAgreed};

    ghost Value = { DomainView };

    ghost view = { λ s. record {
      state = record {
        starts = s.starts;
        memory = s.pages.words;
        entries = s.tracker.entries;
        device = s.device;
        contexts = s.contexts;
      };
      heap_start = s.tracker.heap_start;
      class = s.class;
    } };

    ghost invariant = { λ s. IsAgreed s.pages.lent s.tracker.entries s.device s.class };
}

impl Drop for Domain {
    /// Written by hand, so that it is proved once and not in each function that owns a domain.
    fn drop(self) {
        let Domain {
            class: _,
            starts: _,
            pages: _,
            tracker: _,
            device: _,
            contexts: _,
        } = self;
    }
}

impl Domain {
    /// The domain of a part before its driver is loaded, in the memory of pages that another part left, or in new
    /// memory if there are none. The image has at most 2,048 initial words.
    #[tactic(auto, unfolding(part_defs::specs::Domain::opening_domain), using(crate::proofs::Opening::lent_opening, crate::proofs::Opening::opening_class))]
    pub fn over(alloc: Global, spec: &PartSpec, left: Option<PageMap>) -> Result<Domain, NoMemory>
        requires { length spec.now.image.initial ≤ DATA_WORDS }
        ensures { IfOk result (λ made. made ≡ opening_view spec.now) }
    {
        let starts = spec.image.entries.copy(alloc)?;
        let device = device_of(alloc, spec)?;
        let pages = opening_pages(alloc, spec.class, left)?;
        let heap_start = DATA_START + spec.image.initial.len() as u32;
        Ok(Domain {
            class: spec.class,
            starts,
            pages,
            tracker: Tracker::new(alloc, heap_start)?,
            device,
            contexts: [None; CONTEXTS],
        })
    }

    /// The memory of the pages, for another domain. The rest is dropped.
    pub fn into_pages(self) -> PageMap {
        let Domain {
            class: _,
            starts: _,
            pages,
            tracker: _,
            device: _,
            contexts: _,
        } = self;
        pages
    }

    /// Registers r1 and r2 of a context that is Inside, 0 of a free one. The context is at most 16.
    pub fn arguments(&self, context: u8) -> (Word, Word)
        requires { context < CONTEXTS }
        ensures first { result.0 ≡ first_argument context self.now.state }
        ensures second { result.1 ≡ second_argument context self.now.state }
    {
        match self.inside(context) {
            Some(inside) => (inside.cpu.registers[1], inside.cpu.registers[2]),
            None => (0, 0),
        }
    }

    /// The bursts of a context's attempt so far, 0 of a free context. The context is at most 16.
    pub fn bursts(&self, context: u8) -> u32
        requires { context < CONTEXTS }
        ensures { result ≡ attempt_bursts context self.now.state }
    {
        match self.inside(context) {
            Some(inside) => inside.bursts,
            None => 0,
        }
    }

    /// Whether a context is Inside. The context is at most 16.
    pub fn is_inside(&self, context: u8) -> bool
        requires { context < CONTEXTS }
        ensures { result ≡ is_some (context_of context self.now.state.contexts) }
    {
        self.inside(context).is_some()
    }

    /// The context, if it is Inside. The context is at most 16.
    #[tactic(auto, using(crate::proofs::Contexts::context_at))]
    pub fn inside(&self, context: u8) -> Option<Context>
        requires { context < CONTEXTS }
        ensures { result ≡ context_of context self.now.state.contexts }
    {
        self.contexts[context as usize]
    }

    /// The context with this number, if there is one and it is Inside.
    pub fn find_inside(&self, context: u8) -> Option<Context>
        ensures { result ≡ context_of context self.now.state.contexts }
    {
        self.contexts.get(context as usize).copied().unwrap_or(None)
    }

    /// Whether a context's buffer is lent.
    pub fn has_buffer(&self, context: u8) -> bool
        ensures { result ≡ list_any (is_buffer_of context) self.now.state.entries }
    {
        self.tracker.has_buffer(context)
    }

    /// Whether the driver is registered.
    pub fn is_registered(&self) -> bool
        ensures { result ≡ is_registered self.now.state.entries }
    {
        self.tracker.is_registered()
    }

    /// The first word of a context's buffer. The context is at most 16.
    pub fn first_word(&self, context: u8) -> Word
        requires { context < CONTEXTS }
        ensures { result ≡ slice_index self.now.state.memory (buffer_start context) }
    {
        self.pages.read(buffer_start(context)).unwrap_or(0)
    }

    /// The first `count` words of a context's buffer, at most 128, in the memory of `room`, which has room for them.
    /// The context is at most 16. It takes no memory.
    pub fn buffer_words(&self, context: u8, count: u32, room: Room<Word>) -> Words
        requires context { context < CONTEXTS }
        requires few { count ≤ BUFFER_WORDS }
        requires room { count ≤ room }
        ensures { result ≡ buffer_words context count self.now.state }
    {
        self.pages.words(buffer_start(context), count, room)
    }

    /// The pages.
    pub fn pages(&self) -> &PageMap
        ensures { result.now.words ≡ self.now.state.memory }
    {
        &self.pages
    }

    /// The device.
    pub fn device(&self) -> &Device
        ensures { result.now ≡ self.now.state.device }
    {
        &self.device
    }
}

impl TryCopy for Domain {
    fn copy(&self, alloc: Global) -> Result<Domain, NoMemory> {
        let starts = self.starts.copy(alloc)?;
        let pages = self.pages.copy(alloc)?;
        let tracker = self.tracker.copy(alloc)?;
        let device = self.device.copy(alloc)?;
        Ok(Domain {
            class: self.class,
            starts,
            pages,
            tracker,
            device,
            contexts: self.contexts,
        })
    }
}

/// The device of a new part.
fn device_of(alloc: Global, spec: &PartSpec) -> Result<Device, NoMemory>
    ensures { IfOk result (λ made. made ≡ opening_device spec.now.class spec.now.blocks
        spec.now.bad (defaults_of spec.now.class)) }
{
    match spec.class {
        Class::Block => Device::disk(alloc, spec.blocks, &spec.bad),
        Class::Net => Device::net(alloc),
        Class::Sound => Ok(Device::sound()),
    }
}

/// The pages of a new domain, in the memory of those that were left, if any: all words 0 except kernel object 0, which
/// has the class's defaults, and the first word of objects 1 to 12, which is the object's number.
#[tactic(auto, using(crate::proofs::Opening::opening_words))]
fn opening_pages(alloc: Global, class: Class, left: Option<PageMap>) -> Result<PageMap, NoMemory>
    ensures words { IfOk result (λ made. made.words ≡ opening_memory (defaults_of class)) }
    ensures lent { IfOk result (λ made. made.lent ≡ none_lent) }
{
    let mut pages = match left {
        Some(left) => left.renewed(),
        None => PageMap::new(alloc)?,
    };
    pages.put_words(BUFFERS_END, &defaults_of(class), OBJECT_WORDS);
    Ok(pages)
}
