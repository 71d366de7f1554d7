//! Contexts that are entered and left.

ghost use Rattle.std.specs.Prelude.{◌≡◌, ◌<◌, ◌≤◌, false, length, slice_index, IfSome};
ghost use Rattle.std.specs.List.{list_any};
ghost use Rattle.part_defs.specs.Domain.{arguments_of, buffer_of, buffer_words, entered_domain, entry_context};
ghost use Rattle.part_defs.specs.Domain.{left_domain, plainly_entered, result_set, three};
ghost use Rattle.machine_defs.specs.Entries.{is_buffer_of};
ghost use Rattle.param_wrappers.specs.Crossing.{arguments};

use super::Domain;
use nook_data::calls::Op;
use nook_data::limits::CONTEXTS;
use nook_data::lists::{Word, Words};
use nook_data::machine::{Context, Cpu};
use nook_data::memory::Room;
use nook_data::memory_map::{BUFFER_WORDS, stack_end};
use param_wrappers::{Args, copy_in, copy_out};

impl Domain {
    /// A context goes Inside at the entry with this index in the class's order, for an operation: its words go into
    /// the context's buffer, which is lent. The context is at most 16 and has no buffer, and the operation has at
    /// most 128 words. It takes no memory.
    #[tactic(auto, unfolding(part_defs::specs::Domain::entered_domain), using(crate::proofs::Loans::lent_entered))]
    pub fn enter(&mut self, context: u8, index: u32, op: &Op)
        requires context { context < CONTEXTS }
        requires free { list_any (is_buffer_of context) self.old.state.entries ≡ false }
        requires few { IfSome (buffer_of op.now) (λ l. length l.words ≤ BUFFER_WORDS) }
        ensures { self.new
            ≡ record self.old { state = entered_domain context index op.now self.old.state } }
    {
        let arguments = copy_in(&mut self.pages, &mut self.tracker, context, op);
        let inside = self.at_entry(context, index, arguments);
        self.contexts[context as usize] = Some(inside);
    }

    /// A context goes Inside at the entry with this index in the class's order, with no arguments and no buffer,
    /// for Init and for ReplayOpen. The context is at most 16. It takes no memory.
    #[tactic(auto, unfolding(part_defs::specs::Domain::plainly_entered))]
    pub fn enter_plain(&mut self, context: u8, index: u32)
        requires { context < CONTEXTS }
        ensures { self.new
            ≡ record self.old { state = plainly_entered context index self.old.state } }
    {
        let none = Args {
            r1: 0,
            r2: 0,
            r3: 0,
        };
        let inside = self.at_entry(context, index, none);
        self.contexts[context as usize] = Some(inside);
    }

    /// A context at an entry: r1 to r3 have its arguments, r14 the end of the context's stack.
    fn at_entry(&self, context: u8, index: u32, args: Args) -> Context
        requires { context < CONTEXTS }
        ensures { result
            ≡ entry_context (slice_index self.now.state.starts index) context (arguments args) }
    {
        let mut registers = [0; 16];
        registers[1] = args.r1;
        registers[2] = args.r2;
        registers[3] = args.r3;
        registers[14] = stack_end(context);
        let counter = self
            .starts
            .as_slice()
            .get(index as usize)
            .copied()
            .unwrap_or(0);
        Context {
            cpu: Cpu { counter, registers },
            bursts: 0,
        }
    }

    /// Puts a word into r1 of a context that is Inside; does nothing for a free one. The context is at most 16.
    #[tactic(auto, unfolding(part_defs::specs::Domain::result_set))]
    pub fn set_result(&mut self, context: u8, word: Word)
        requires { context < CONTEXTS }
        ensures { self.new ≡ record self.old { state = result_set context word self.old.state } }
    {
        if let Some(inside) = &mut self.contexts[context as usize] {
            inside.cpu.registers[1] = word;
        }
    }

    /// Frees one context and ends the loan of its buffer. The context is at most 16.
    #[tactic(auto, unfolding(part_defs::specs::Domain::left_domain), using(crate::proofs::Loans::lent_left))]
    pub fn leave(&mut self, context: u8)
        requires { context < CONTEXTS }
        ensures { self.new ≡ record self.old { state = left_domain context self.old.state } }
    {
        self.pages.revoke(context);
        self.tracker.end_buffer(context);
        self.contexts[context as usize] = None;
    }

    /// Leaves a context as `leave` does, and returns the first `count` words of its buffer, at most 128, in the
    /// memory of `room`, which has room for them. The context is at most 16. It takes no memory.
    #[tactic(auto, unfolding(part_defs::specs::Domain::left_domain), using(crate::proofs::Loans::lent_left))]
    pub fn copy_out(&mut self, context: u8, count: u32, room: Room<Word>) -> Words
        requires context { context < CONTEXTS }
        requires few { count ≤ BUFFER_WORDS }
        requires room { count ≤ room }
        ensures words { result ≡ buffer_words context count self.old.state }
        ensures left { self.new ≡ record self.old { state = left_domain context self.old.state } }
    {
        self.contexts[context as usize] = None;
        copy_out(&mut self.pages, &mut self.tracker, context, count, room)
    }
}
