//! Packed domains.

ghost use Rattle.std.specs.Prelude.{◌≡◌, true, IfOk};

use super::Domain;
use device_models::Device;
use domain_pages::{PackedPages, PageMap};
use nook_data::classes::Class;
use nook_data::digest::{mixed, mixed_words};
use nook_data::limits::CONTEXTS;
use nook_data::lists::{TryCopy, Words};
use nook_data::machine::Context;
use nook_data::memory::NoMemory;
use nook_data::same::{Same, are_same};
use object_tracker::Tracker;
use std::alloc::Global;
use std::marker::Model;

/// A domain that does nothing and has its pages packed. Contracts see the same as for a domain.
pub struct PackedDomain {
    class: Class,
    starts: Words,
    pages: PackedPages,
    tracker: Tracker,
    device: Device,
    contexts: [Option<Context>; CONTEXTS],
}

impl Model for PackedDomain {
    ghost use Rattle.domain_call.specs.DomainView.{DomainView, IsAgreed};

    ghost Value = { DomainView };

    ghost view = { λ s. record {
      state = record {
        starts = s.starts;
        memory = s.pages.words;
        entries = s.tracker.entries;
        device = s.device;
        contexts = s.contexts;
      };
      heap_start = s.tracker.heap_start;
      class = s.class;
    } };

    ghost invariant = { λ s. IsAgreed s.pages.lent s.tracker.entries s.device s.class };
}

impl Drop for PackedDomain {
    /// Written by hand, so that it is proved once and not in each function that owns a packed domain.
    fn drop(self) {
        let PackedDomain {
            class: _,
            starts: _,
            pages: _,
            tracker: _,
            device: _,
            contexts: _,
        } = self;
    }
}

impl Domain {
    /// Packs the domain, and returns the memory of its pages for another domain. All but the pages is moved.
    pub fn into_packed(self, alloc: Global) -> Result<(PackedDomain, PageMap), NoMemory>
        ensures { IfOk result (λ made. made.0 ≡ self) }
    {
        let Domain {
            class,
            starts,
            pages: unpacked,
            tracker,
            device,
            contexts,
        } = self;
        let pages = unpacked.packed(alloc)?;
        let packed = PackedDomain {
            class,
            starts,
            pages,
            tracker,
            device,
            contexts,
        };
        Ok((packed, unpacked))
    }
}

impl PackedDomain {
    /// Unpacks an equal domain. Its pages use the memory of `over`.
    pub fn unpacked(&self, alloc: Global, over: PageMap) -> Result<Domain, NoMemory>
        ensures { IfOk result (λ made. made ≡ self.now) }
    {
        let starts = self.starts.copy(alloc)?;
        let pages = self.pages.unpacked(alloc, over)?;
        let tracker = self.tracker.copy(alloc)?;
        let device = self.device.copy(alloc)?;
        Ok(Domain {
            class: self.class,
            starts,
            pages,
            tracker,
            device,
            contexts: self.contexts,
        })
    }

    /// Whether the other domain is the same. It may return false for an equal domain, but not for one that was made by
    /// the same writes since the same load.
    pub fn is_same(&self, other: &PackedDomain) -> bool
        ensures { result ≡ true → self.now ≡ other.now }
    {
        self.class == other.class
            && self.starts.is_same(&other.starts)
            && are_same(&self.contexts, &other.contexts)
            && self.tracker.is_same(&other.tracker)
            && self.device.is_same(&other.device)
            && self.pages.is_same(&other.pages)
    }

    /// Extends a digest by the contexts that are Inside, and by the pages of the driver in which a word was written
    /// since the last load. Equal domains give the same number.
    pub fn digest(&self, digest: u64) -> u64 {
        let mut digest = digest;
        for context in 0..self.contexts.len() {
            if let Some(inside) = &self.contexts[context] {
                digest = mixed_context(mixed(digest, context as u64), inside);
            }
        }
        self.pages.digest(digest)
    }

    /// The device.
    pub fn device(&self) -> &Device
        ensures { result.now ≡ self.now.state.device }
    {
        &self.device
    }
}

/// Extends a digest by a context.
fn mixed_context(digest: u64, context: &Context) -> u64 {
    let digest = mixed(digest, u64::from(context.cpu.counter));
    let digest = mixed_words(digest, &context.cpu.registers);
    mixed(digest, u64::from(context.bursts))
}
