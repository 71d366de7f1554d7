//! The threads on their way through their scripts.

ghost use Rattle.std.specs.Prelude.{◌≡◌, Decides, IfOk, drop, map};
ghost use Rattle.event_order.specs.Bare.{IsNextHere, bare};
ghost use Rattle.order_defs.specs.Taking.{IsTimely};
ghost use Rattle.run_defs.specs.Simulation.{opening_thread, started, thread_after, threads_after};

use nook_data::calls::Op;
use nook_data::memory::NoMemory;
use nook_data::scenario::ThreadSpec;
use nook_data::steps::Event;
use std::alloc::Global;
use std::marker::Model;

/// An open call: the index of its part, and its own number there.
#[derive(Clone, Copy)]
pub struct OpenCall {
    part: usize,
    call: u32,
}

/// A thread on its way through its script. Contracts see it without its answers.
#[derive(Drop)]
pub struct Caller<'a> {
    /// The operations that it has not invoked.
    rest: &'a [(u32, Op)],
    waiting: Option<OpenCall>,
}

impl<'a> Model for Caller<'a> {
    ghost use Rattle.std.specs.Prelude.{[]};
    ghost use Rattle.event_order.specs.Bare.{waiting_for};
    ghost use Rattle.run_defs.specs.Simulation.{ThreadState};

    ghost Value = { ThreadState };

    ghost view = { λ s. record {
      rest = s.rest.now;
      waiting = waiting_for s.waiting;
      answers = [];
    } };
}

impl<'a> Caller<'a> {
    /// A thread that has invoked nothing.
    pub fn new(spec: &'a ThreadSpec) -> Caller<'a>
        ensures { result ≡ opening_thread spec.now }
    {
        Caller {
            rest: spec.ops.as_slice(),
            waiting: None,
        }
    }

    /// Whether the thread has no open call, and this operation on the part is its next.
    pub fn is_next(&self, part: usize, op: &Op) -> bool
        ensures { Decides result (IsNextHere self.now part op.now) }
    {
        if self.waiting.is_some() {
            return false;
        }
        let Some((own, next)) = self.rest.first() else {
            return false;
        };
        if *own as usize != part {
            return false;
        }
        is_same(next, op)
    }

    /// The thread takes note of an event of a part.
    pub fn hear(&mut self, thread: usize, part: usize, event: &Event)
        ensures { self.new ≡ bare
            (thread_after part event.now (started thread part event.now self.old)) }
    {
        self.start(thread, part, event);
        self.settle(part, event);
    }

    /// If the event is an invocation by this thread, it takes its next operation.
    fn start(&mut self, thread: usize, part: usize, event: &Event)
        ensures { self.new ≡ started thread part event.now self.old }
    {
        if let Event::Invoke {
            call,
            thread: caller,
            ..
        } = event
            && *caller as usize == thread
        {
            self.rest = after_first(self.rest);
            self.waiting = Some(OpenCall { part, call: *call });
        }
    }

    /// If the event answers the thread's open call, the thread no longer has one.
    fn settle(&mut self, part: usize, event: &Event)
        ensures { self.new ≡ bare (thread_after part event.now self.old) }
    {
        let Some(call) = self.waiting else {
            return;
        };
        if call.part == part && event.answer_to(call.call).is_some() {
            self.waiting = None;
        }
    }
}

/// Whether two operations are the same.
fn is_same(op: &Op, other: &Op) -> bool
    ensures { Decides result (op.now ≡ other.now) }
{
    op == other
}

/// The operations after the first.
fn after_first(ops: &[(u32, Op)]) -> &[(u32, Op)]
    ensures { result.now ≡ drop 1 ops.now }
{
    match ops.split_first() {
        Some((_, rest)) => rest,
        None => ops,
    }
}

/// The threads of these scripts, before they invoke anything.
pub fn all_callers(alloc: Global, specs: &[ThreadSpec]) -> Result<Vec<Caller<'_>>, NoMemory>
    ensures { IfOk result (λ made. made.items ≡ map opening_thread specs.now) }
{
    let mut made = Vec::with_capacity(alloc, specs.len())?;
    for spec in specs {
        made.push(Caller::new(spec))?;
    }
    Ok(made)
}

/// Each thread takes note of an event of a part.
pub fn hear_all(callers: &mut [Caller], part: usize, event: &Event)
    ensures { callers.new ≡ map bare (threads_after 0 part event.now callers.old) }
{
    for thread in 0..callers.len() {
        callers[thread].hear(thread, part, event);
    }
}

/// Whether an event of a part may be taken: an invocation if it is its thread's next, and every other event at once.
pub fn is_timely(callers: &[Caller], part: usize, event: &Event) -> bool
    ensures { Decides result (IsTimely callers.now part event.now) }
{
    let Event::Invoke { thread, op, .. } = event else {
        return true;
    };
    match callers.get(*thread as usize) {
        Some(caller) => caller.is_next(part, op),
        None => false,
    }
}
