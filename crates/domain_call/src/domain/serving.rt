//! Kernel calls, and what the kernel writes.

ghost use Rattle.std.specs.Prelude.{◌≡◌, ◌<◌, ◌≤◌, true, IfOk};
ghost use Rattle.part_defs.specs.Crossing.{without_shadow};
ghost use Rattle.part_defs.specs.Domain.{noted, result_set};
ghost use Rattle.machine_defs.specs.Services.{checked};
ghost use Rattle.param_wrappers.specs.Crossing.{can_serve};
ghost use Rattle.domain_call.specs.DomainView.{served_in, with_served};

use super::Domain;
use kernel_services::{RxQueue, Served, serve};
use nook_data::limits::{CONTEXTS, MOST_FRAME_WORDS, SHADOW};
use nook_data::lists::Word;
use nook_data::machine::{BadParam, Service};
use nook_data::memory::Room;
use nook_data::memory_map::{OBJECT_WORDS, object_start};
use param_wrappers::check_service;

impl Domain {
    /// The service of a kernel call by its number and its two arguments. The error names the first argument that
    /// fails; 0 is the service itself.
    pub fn check(&self, number: u32, first: Word, second: Word) -> Result<Service, BadParam>
        ensures checked { result
            ≡ checked number first second self.now.class self.now.state.entries }
        ensures can { IfOk result (λ service. can_serve service ≡ true) }
    {
        check_service(number, first, second, self.class, &self.tracker)
    }

    /// Serves a context's kernel call that passed its check, and puts the result into r1. The words that it moves go
    /// into `moved`, the queue's own copy of a frame into `frame`; both have room for 64 words. The context is at
    /// most 16. It takes no memory.
    pub fn serve(
        &mut self,
        context: u8,
        service: Service,
        queue: &mut RxQueue,
        moved: Room<Word>,
        frame: Room<Word>,
    ) -> Served
        requires context { context < CONTEXTS }
        requires passed { can_serve service ≡ true }
        requires moved { MOST_FRAME_WORDS ≤ moved }
        requires frame { MOST_FRAME_WORDS ≤ frame }
        ensures domain { self.new ≡ record self.old {
          state = result_set context result.answer
              (with_served (served_in self.old service queue.old) self.old.state);
        } }
        ensures queue { queue.new ≡ (served_in self.old service queue.old).queue }
        ensures answer { result.answer ≡ (served_in self.old service queue.old).answer }
        ensures moved { result.moved ≡ (served_in self.old service queue.old).moved }
    {
        let reported = self.done(service, queue, moved, frame);
        self.set_result(context, reported.answer);
        reported
    }

    /// Performs a service.
    #[tactic(auto, using(crate::proofs::Loans::lent_served))]
    fn done(
        &mut self,
        service: Service,
        queue: &mut RxQueue,
        moved: Room<Word>,
        frame: Room<Word>,
    ) -> Served
        requires passed { can_serve service ≡ true }
        requires moved { MOST_FRAME_WORDS ≤ moved }
        requires frame { MOST_FRAME_WORDS ≤ frame }
        ensures domain { self.new ≡ record self.old {
          state = with_served (served_in self.old service queue.old) self.old.state;
        } }
        ensures queue { queue.new ≡ (served_in self.old service queue.old).queue }
        ensures answer { result.answer ≡ (served_in self.old service queue.old).answer }
        ensures moved { result.moved ≡ (served_in self.old service queue.old).moved }
    {
        serve(
            service,
            &mut self.pages,
            &mut self.tracker,
            queue,
            moved,
            frame,
        )
    }

    /// The kernel writes a word of object 0, at an index from 0 to 63.
    #[tactic(auto, unfolding(part_defs::specs::Domain::noted))]
    pub fn note(&mut self, index: u32, word: Word)
        requires { index < OBJECT_WORDS }
        ensures { self.new ≡ record self.old { state = noted index word self.old.state } }
    {
        self.pages.kernel_write(object_start(0) + index, word);
    }

    /// The driver failed: object 0 records the number of failures, and the shadow's context is freed.
    pub fn fail(&mut self, failures: u32)
        ensures { self.new
            ≡ record self.old { state = noted 4 failures (without_shadow self.old.state) } }
    {
        self.contexts[SHADOW as usize] = None;
        self.note(4, failures);
    }
}
