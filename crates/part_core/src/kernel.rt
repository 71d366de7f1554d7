//! A kernel call at the end of a burst.

ghost use Rattle.std.specs.Prelude.{◌≡◌, ◌<◌, [], None, true, IfOk};
ghost use Rattle.part_defs.specs.Crossing.{after_crossing, heap_start, kernel_call, served_call};
ghost use Rattle.part_defs.specs.Domain.{first_argument, second_argument};
ghost use Rattle.machine_defs.specs.Services.{checked, served};
ghost use Rattle.nook_data.specs.declared.machine.BurstEnd.{BurstEnd};
ghost use Rattle.nook_data.specs.declared.steps.End.{End};
ghost use Rattle.param_wrappers.specs.Crossing.{can_serve};
ghost use Rattle.part_core.specs.Crossings.{crossed_to, IsCrossable};

use crate::crossing::{Outcome, goes_on};
use crate::rooms::Rooms;
use crate::state::State;
use nook_data::limits::CONTEXTS;
use nook_data::lists::{Word, Words};
use nook_data::machine::{BadParam, Service};
use nook_data::steps::{End, FailCause};
use std::alloc::Global;

/// A kernel call as the driver requests it: the number of a service, and the two arguments in r1 and r2.
#[derive(Clone, Copy)]
struct Request {
    number: u32,
    first: Word,
    second: Word,
}

impl Request {
    /// The end of a burst whose kernel call is not served.
    fn refused(self, alloc: Global) -> End
        ensures { result ≡ End.Service self.number self.first self.second None [] }
    {
        End::Service {
            service: self.number,
            first: self.first,
            second: self.second,
            answer: None,
            moved: Words::new(alloc),
        }
    }
}

impl State {
    /// A kernel call in the last burst of an attempt is a failure; any other is served if its check passes.
    #[tactic(auto, unfolding(part_defs::specs::Crossing::after_crossing))]
    pub fn call_kernel(&mut self, context: u8, number: u32, rooms: &mut Rooms) -> Outcome
        requires crossable { IsCrossable context self.old }
        requires rooms { rooms.old ≡ true }
        ensures { after_crossing context (BurstEnd.Kcall number) self.old
            ≡ crossed_to self.new result }
    {
        let request = self.requested(context, number);
        if self.is_last(context) {
            let refused = request.refused(self.alloc);
            self.fail(refused, FailCause::TooManyCrossings)
        } else {
            self.check_and_serve(context, request, rooms)
        }
    }

    /// What a context requests with the number of a service.
    fn requested(&self, context: u8, number: u32) -> Request
        requires { context < CONTEXTS }
        ensures number { result.number ≡ number }
        ensures first { result.first ≡ first_argument context self.now.domain }
        ensures second { result.second ≡ second_argument context self.now.domain }
    {
        let (first, second) = self.domain.arguments(context);
        Request {
            number,
            first,
            second,
        }
    }

    /// A kernel call is served if its check passes.
    fn check_and_serve(&mut self, context: u8, request: Request, rooms: &mut Rooms) -> Outcome
        requires crossable { IsCrossable context self.old }
        requires first { request.first ≡ first_argument context self.old.domain }
        requires second { request.second ≡ second_argument context self.old.domain }
        requires rooms { rooms.old ≡ true }
        ensures { kernel_call request.number context self.old ≡ crossed_to self.new result }
    {
        match self.checked(request) {
            Ok(service) => self.serve(context, request, service, rooms),
            Err(bad) => {
                let refused = request.refused(self.alloc);
                self.fail(
                    refused,
                    FailCause::BadParam {
                        service: bad.service,
                        argument: bad.argument,
                    },
                )
            }
        }
    }

    /// The service that is requested, or the failing argument.
    fn checked(&self, request: Request) -> Result<Service, BadParam>
        ensures checked { result ≡ checked request.number request.first request.second
            self.now.spec.class self.now.domain.entries }
        ensures can { IfOk result (λ service. can_serve service ≡ true) }
    {
        self.domain
            .check(request.number, request.first, request.second)
    }

    /// Serves a kernel call whose check passed; its result goes to r1.
    fn serve(
        &mut self,
        context: u8,
        request: Request,
        service: Service,
        rooms: &mut Rooms,
    ) -> Outcome
        requires crossable { IsCrossable context self.old }
        requires first { request.first ≡ first_argument context self.old.domain }
        requires second { request.second ≡ second_argument context self.old.domain }
        requires passed { can_serve service ≡ true }
        requires rooms { rooms.old ≡ true }
        ensures { served_call request.number context
            (served (heap_start self.old) service self.old.domain.memory self.old.domain.entries
            self.old.queue) self.old ≡ crossed_to self.new result }
    {
        let (moved, frame) = rooms.use_for_service();
        let reported = self
            .domain
            .serve(context, service, &mut self.queue, moved, frame);
        goes_on(End::Service {
            service: request.number,
            first: request.first,
            second: request.second,
            answer: Some(reported.answer),
            moved: reported.moved.fitted(),
        })
    }
}
