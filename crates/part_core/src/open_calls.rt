//! The shadow's log, with an index of what its open calls claim.

ghost use Rattle.std.specs.Prelude.{[], ◌≡◌, ◌+◌, ◌<◌, ◌≤◌, Some, option_map, IfSome, IfOk, OnOk, OnErr};
ghost use Rattle.claim_index.specs.Claims.{HasBlocks, blocker_of, claimed_by};
ghost use Rattle.part_defs.specs.Log.{after_answering, call_of_thread, after_entering, gone_answers, held_by_shadow};
ghost use Rattle.part_defs.specs.Log.{no_call_open, with_answered_call, open_call, opening_log, stop_answers};
ghost use Rattle.part_defs.specs.Log.{stop_queue, with_call};
ghost use Rattle.part_defs.specs.Views.CallLogs.{acknowledged_call};
ghost use Rattle.part_core.specs.Claimed.{without_answered};

use claim_index::{Claim, ClaimIndex};
use nook_data::calls::{Answer, CallAnswers, CallEntry, Op};
use nook_data::classes::Class;
use nook_data::lists::{TryCopy, Word};
use nook_data::memory::NoMemory;
use nook_data::rx_front::RxFront;
use nook_data::same::Same;
use shadow_log::ShadowLog;
use std::alloc::Global;
use std::marker::Model;

/// What the shadow keeps, with the claims of the open calls. A call claims from its Invoke on, whether Held or Inside,
/// until it is answered. Contracts see the log.
pub struct OpenCalls {
    log: ShadowLog,
    claims: ClaimIndex,
}

impl Model for OpenCalls {
    ghost use Rattle.part_defs.specs.State.{CallLog};
    ghost use Rattle.part_core.specs.Claimed.{AreClaimed};

    ghost Value = { CallLog };

    ghost view = { λ s. s.log };

    ghost invariant = { λ s. AreClaimed s.claims s.log };
}

impl Drop for OpenCalls {
    /// Written by hand, so that it is proved once and not in each function that owns open calls.
    fn drop(self) {
        let OpenCalls { log: _, claims: _ } = self;
    }
}

impl OpenCalls {
    /// A log without calls, with an index without claims.
    pub fn over(alloc: Global, defaults: [Word; 4], claims: ClaimIndex) -> OpenCalls
        requires { claims ≡ [] }
        ensures { result ≡ opening_log defaults }
    {
        OpenCalls {
            log: ShadowLog::new(alloc, defaults),
            claims,
        }
    }

    /// The index of claims, for another part. The log is dropped.
    pub fn into_claims(self) -> ClaimIndex {
        let OpenCalls { log: _, claims } = self;
        claims
    }

    /// Adds a call that stays open. Its claim is added before the call: after `NoMemory` nothing is changed.
    pub fn invoke(&mut self, thread: u8, op: Op) -> Result<u32, NoMemory>
        requires few { self.old.count < 100000 }
        requires blocks { HasBlocks (claimed_by op) }
        ensures ok { OnOk result (self.new ≡ with_call thread op self.old) }
        ensures number { IfOk result (λ call. call ≡ self.old.count + 1) }
        ensures err { OnErr result (self.new ≡ self.old) }
    {
        let number = self.log.count() + 1;
        self.claims.add(Claim::of(number, &op))?;
        match self.log.invoke(thread, op) {
            Ok(call) => Ok(call),
            Err(refused) => {
                self.claims.remove(number);
                Err(refused)
            }
        }
    }

    /// Counts a call that is answered at once: it only gets a number.
    pub fn number(&mut self) -> u32
        requires { self.old.count < 100000 }
        ensures log { self.new ≡ with_answered_call self.old }
        ensures number { result ≡ self.old.count + 1 }
    {
        self.log.number()
    }

    /// The call goes Inside; it has one more attempt. Its claim is unchanged.
    pub fn entered(&mut self, call: u32)
        requires { IfSome (open_call call self.old.pending) (λ c. c.attempts < 4294967295) }
        ensures { self.new ≡ after_entering call self.old }
    {
        self.log.entered(call);
    }

    /// The driver's reply to the call was accepted: the record and the holder follow it. The call stays open.
    pub fn acknowledge(&mut self, call: u32)
        ensures { self.new ≡ acknowledged_call call self.old }
    {
        self.log.acknowledge(call);
    }

    /// The call is no longer open, and claims nothing.
    pub fn answered(&mut self, call: u32)
        ensures { self.new ≡ after_answering call self.old }
    {
        self.log.answered(call);
        self.claims.remove(call);
    }

    /// The driver is stopped: each open call is answered or held, as `recovery_manager::stop` says. The calls that are
    /// answered no longer claim anything.
    pub fn stop<Q: RxFront>(
        &mut self,
        alloc: Global,
        queue: &mut Q,
        failures: u32,
        limit: u32,
    ) -> Result<CallAnswers, NoMemory>
        ensures held { failures ≤ limit → OnOk result (self.new ≡ held_by_shadow self.old) }
        ensures answers { failures ≤ limit → IfOk result (λ answers.
            answers ≡ stop_answers self.old.pending self.old.config self.old.holder
            (Q.frames queue.old)) }
        ensures frames { failures ≤ limit
            → OnOk result (Q.frames queue.new ≡ stop_queue self.old.pending (Q.frames queue.old)) }
        ensures closed { limit < failures → OnOk result (self.new ≡ no_call_open self.old) }
        ensures gone { limit < failures
            → IfOk result (λ answers. answers ≡ gone_answers failures self.old.pending) }
        ensures kept { limit < failures → queue.new ≡ queue.old }
        ensures log { OnErr result (self.new ≡ self.old) }
        ensures queue { OnErr result (queue.new ≡ queue.old) }
    {
        let answers = recovery_manager::stop(alloc, &mut self.log, queue, failures, limit)?;
        remove_all(&mut self.claims, answers.as_slice());
        Ok(answers)
    }

    /// The number of the first open call that an open call has to wait for, in a part of the class; None exactly if it
    /// waits for no call, or is not open.
    pub fn blocked_by(&self, class: Class, call: u32) -> Option<u32>
        ensures { result ≡ blocker_of class (open_call call self.now.pending) self.now.pending }
    {
        self.claims.first_conflict(class, call)
    }

    /// The log without the claims.
    pub fn shadow(&self) -> &ShadowLog
        ensures { result.now ≡ self.now }
    {
        &self.log
    }

    /// The words of the record, by key.
    pub fn configuration(&self) -> [Word; 4]
        ensures { result ≡ self.now.config }
    {
        self.log.configuration()
    }

    /// The thread that has the stream.
    pub fn holder(&self) -> Option<u8>
        ensures { result ≡ self.now.holder }
    {
        self.log.holder()
    }

    /// How many numbers were given out.
    pub fn count(&self) -> u32
        ensures { result ≡ self.now.count }
    {
        self.log.count()
    }

    /// The open calls by rising number.
    pub fn pending(&self) -> &[CallEntry]
        ensures { result.now ≡ self.now.pending }
    {
        self.log.pending()
    }

    /// The open call of a thread, if it has one.
    pub fn call_of_thread(&self, thread: u8) -> Option<&CallEntry>
        ensures call { option_map (λ c. c.now) result ≡ call_of_thread thread self.now.pending }
        ensures number { IfSome result (λ c. open_call c.now.call self.now.pending ≡ Some c.now) }
    {
        self.log.call_of_thread(thread)
    }
}

impl TryCopy for OpenCalls {
    fn copy(&self, alloc: Global) -> Result<OpenCalls, NoMemory> {
        let log = self.log.copy(alloc)?;
        let claims = self.claims.copy(alloc)?;
        Ok(OpenCalls { log, claims })
    }
}

impl Same for OpenCalls {
    fn is_same(&self, other: &OpenCalls) -> bool {
        self.log.is_same(&other.log)
    }
}

/// Ends the claims of calls that are answered.
fn remove_all(claims: &mut ClaimIndex, answers: &[(u32, Answer)])
    ensures { claims.new ≡ without_answered answers.now claims.old }
{
    for pair in answers {
        claims.remove(pair.0);
    }
}
