//! The state of a packed part, without its journal.

ghost use Rattle.std.specs.Prelude.{◌≡◌, true, IfOk};

use super::State;
use crate::left_rooms::LeftRooms;
use crate::open_calls::OpenCalls;
use domain_call::PackedDomain;
use kernel_services::RxQueue;
use nook_data::calls::CallEntry;
use nook_data::digest::{mixed, mixed_words};
use nook_data::lists::TryCopy;
use nook_data::memory::NoMemory;
use nook_data::same::Same;
use nook_data::scenario::PartSpec;
use nook_data::steps::Mode;
use std::alloc::Global;
use std::marker::Model;

/// A part without its journal that takes no step: its domain is packed, and it has no memory for acts and
/// crossings. Contracts see the definition's part.
pub struct PackedState {
    pub spec: PartSpec,
    pub domain: PackedDomain,
    log: OpenCalls,
    queue: RxQueue,
    mode: Mode,
    failures: u32,
    bursts: u32,
    arrived: u32,
}

impl Model for PackedState {
    ghost use Rattle.std.specs.Prelude.{◌≡◌, ◌+◌, length};
    ghost use Rattle.part_defs.specs.State.{PartState};
    ghost use Rattle.nook_data.specs.declared.memory_map.TheConstants.{DATA_START};

    ghost Value = { PartState };

    ghost view = { λ s. record {
      spec = s.spec;
      domain = s.domain.state;
      log = s.log;
      queue = s.queue;
      mode = s.mode;
      failures = s.failures;
      bursts = s.bursts;
      arrived = s.arrived;
    } };

    ghost invariant = { λ s. (s.domain.heap_start ≡ DATA_START + length s.spec.image.initial)
        × (s.domain.class ≡ s.spec.class) };
}

impl Drop for PackedState {
    /// Written by hand, so that it is proved once and not in each function that owns a packed state.
    fn drop(self) {
        let PackedState {
            spec: _,
            domain: _,
            log: _,
            queue: _,
            mode: _,
            failures: _,
            bursts: _,
            arrived: _,
        } = self;
    }
}

impl State {
    /// Packs the state. All but the pages is moved; the memory for acts, crossings and pages goes to `left`.
    pub fn into_packed(self, alloc: Global, left: &mut LeftRooms) -> Result<PackedState, NoMemory>
        ensures { IfOk result (λ made. made ≡ self) }
    {
        let State {
            spec,
            domain,
            log,
            queue,
            mode,
            failures,
            bursts,
            arrived,
            spare,
            rooms,
            alloc: _,
        } = self;
        left.give(spare);
        left.give_rooms(rooms);
        let (domain, pages) = domain.into_packed(alloc)?;
        left.give_pages(pages);
        Ok(PackedState {
            spec,
            domain,
            log,
            queue,
            mode,
            failures,
            bursts,
            arrived,
        })
    }
}

impl PackedState {
    /// Unpacks an equal state, with memory for acts, crossings and pages from `left`.
    pub fn unpacked(&self, alloc: Global, left: &mut LeftRooms) -> Result<Box<State>, NoMemory>
        ensures { IfOk result (λ made. made.value ≡ self.now) }
    {
        let log = self.log.copy(alloc)?;
        let queue = self.queue.copy(alloc)?;
        let spec = self.spec.copy(alloc)?;
        let over = left.take_pages(alloc)?;
        let domain = self.domain.unpacked(alloc, over)?;
        let state = State {
            spec,
            domain,
            log,
            queue,
            mode: self.mode,
            failures: self.failures,
            bursts: self.bursts,
            arrived: self.arrived,
            spare: left.take(alloc),
            rooms: left.take_rooms(),
            alloc,
        };
        Ok(Box::new(alloc, state)?)
    }

    /// Whether the other state is the same. It may return false for an equal state.
    pub fn is_same(&self, other: &PackedState) -> bool
        ensures { result ≡ true → self.now ≡ other.now }
    {
        self.failures == other.failures
            && self.bursts == other.bursts
            && self.arrived == other.arrived
            && self.mode.is_same(&other.mode)
            && self.log.is_same(&other.log)
            && self.queue.is_same(&other.queue)
            && self.domain.is_same(&other.domain)
            && self.spec.is_same(&other.spec)
    }

    /// Extends a digest by the state: its counts, its open calls and its domain.
    pub fn digest(&self, digest: u64) -> u64 {
        let calls = self.log.pending();
        let digest = mixed_words(digest, &[self.failures, self.bursts, self.arrived]);
        let digest = mixed(digest, calls.len() as u64);
        self.domain.digest(mixed_calls(digest, calls))
    }
}

/// Extends a digest by open calls: for each its number, whether it is Inside, and its attempts.
fn mixed_calls(digest: u64, calls: &[CallEntry]) -> u64 {
    let mut digest = digest;
    for entry in calls {
        digest = mixed_words(
            digest,
            &[entry.call, u32::from(entry.inside), entry.attempts],
        );
    }
    digest
}
