//! The acts of a burst.

ghost use Rattle.std.specs.Prelude.{◌≡◌, fold, map, slice_set, IfOk, OnOk};
ghost use Rattle.promise_defs.specs.Contract.{acts as acted, call_of, is_asked};
ghost use Rattle.contract_monitor.specs.Judging.{act_broken, first_broken, register_broken, sent_broken, store_broken};
ghost use Rattle.contract_monitor.specs.Keeping.{kept_act};
ghost use Rattle.nook_data.specs.declared.machine.Act.{Act};

use crate::blocks::set_block;
use crate::calls::{Change, change_calls, more, play_one};
use crate::clauses::{smaller, unless};
use crate::known::Known;
use crate::watching::{
    had_frame, is_asked_for_other, is_asked_to_set, is_asked_to_store, is_next_sample,
    is_replay_of, is_send_of, register,
};
use nook_data::clause::Clause;
use nook_data::lists::Words;
use nook_data::machine::Act;
use nook_data::memory::NoMemory;

impl Known {
    /// Takes the acts of a burst of a call, and returns the smallest clause that they break.
    pub fn see_acts(&mut self, call: u32, acts: &[Act]) -> Result<Option<Clause>, NoMemory>
        ensures kept { OnOk result (self.new ≡ fold (kept_act call) self.old acts.now) }
        ensures broken { IfOk result
            (λ clause. clause ≡ first_broken call self.old.known (map acted acts.now)) }
    {
        let mut broken = None;
        for act in acts {
            let clause = self.see_next(call, act)?;
            broken = smaller(broken, clause);
        }
        Ok(broken)
    }

    /// Takes one act of a burst of a call, and returns the smallest clause that it breaks.
    pub fn see_next(&mut self, call: u32, act: &Act) -> Result<Option<Clause>, NoMemory>
        ensures kept { OnOk result (self.new ≡ kept_act call self.old act.now) }
        ensures broken { IfOk result (λ clause. clause
            ≡ act_broken self.old.known (call_of call self.old.known.calls) act.now) }
    {
        let clause = self.judge_act(call, act);
        self.see_act(call, act)?;
        Ok(clause)
    }

    /// The smallest clause that an act in a burst of a call breaks.
    fn judge_act(&self, call: u32, act: &Act) -> Option<Clause>
        ensures { result ≡ act_broken self.now.known (call_of call self.now.known.calls) act.now }
    {
        match act {
            Act::Store { block, words } => self.judge_store(u64::from(*block), words.as_slice()),
            Act::Sent { frame } => self.judge_sent(call, frame.as_slice()),
            Act::Played { sample, .. } => {
                unless(is_next_sample(*sample, &self.calls), Clause::OtherSample)
            }
            Act::Register { key, value } => self.judge_register(*key, *value),
            Act::Load { .. } | Act::Failed { .. } | Act::Popped { .. } => None,
        }
    }

    /// A block is stored.
    fn judge_store(&self, block: u64, words: &[u32]) -> Option<Clause>
        ensures { result ≡ store_broken block words.now self.now.known }
    {
        if !is_asked_to_store(block, &self.calls) {
            return Some(Clause::UnaskedStore);
        }
        if is_asked_for_other(block, words, &self.calls) {
            return Some(Clause::OtherStore);
        }
        None
    }

    /// A frame is sent.
    fn judge_sent(&self, call: u32, frame: &[u32]) -> Option<Clause>
        ensures { result ≡ sent_broken frame.now (call_of call self.now.known.calls) }
    {
        if !is_send_of(frame, &self.calls, call) {
            return Some(Clause::UnaskedFrame);
        }
        if had_frame(&self.calls, call) {
            return Some(Clause::SecondFrame);
        }
        None
    }

    /// A register gets a value.
    fn judge_register(&self, key: u32, value: u32) -> Option<Clause>
        ensures { result ≡ register_broken key value self.now.known }
    {
        let may = register(&self.registers, key) == value || self.is_asked(key, value);
        unless(may, Clause::UnaskedRegister)
    }

    /// Whether a Set or a ReplaySet that is Inside gives the register this value.
    fn is_asked(&self, key: u32, value: u32) -> bool
        ensures { result ≡ is_asked key value self.now.known }
    {
        is_asked_to_set(key, value, &self.calls) || is_replay_of(key, value, &self.replay)
    }

    /// Takes one act of a burst of a call.
    fn see_act(&mut self, call: u32, act: &Act) -> Result<(), NoMemory>
        ensures { OnOk result (self.new ≡ kept_act call self.old act.now) }
    {
        match act {
            Act::Load { .. } => Ok(()),
            Act::Failed { block, .. } => {
                change_calls(&mut self.calls, call, Change::Failed { block: *block })
            }
            Act::Store { block, words } => {
                set_block(self.alloc, &mut self.medium, *block, words)
            }
            Act::Sent { .. } => change_calls(&mut self.calls, call, Change::Sent),
            Act::Popped { frame } => self.see_popped(frame),
            Act::Played { .. } => {
                play_one(&mut self.calls)?;
                change_calls(&mut self.calls, call, Change::OwnPlayed)
            }
            Act::Register { key, value } => {
                set_register(&mut self.registers, *key, *value);
                Ok(())
            }
        }
    }

    /// The driver took the ring's first frame.
    fn see_popped(&mut self, frame: &Words) -> Result<(), NoMemory>
        ensures { OnOk result (self.new ≡ kept_act 0 self.old (Act.Popped frame.now)) }
    {
        let _first = self.ring.pop_front();
        self.pending.push_back(frame.copied(self.alloc)?)?;
        self.effects.popped = more(self.effects.popped, 1)?;
        self.effects.popped_since = more(self.effects.popped_since, 1)?;
        Ok(())
    }
}

/// A register gets a value; a key past the last one changes nothing.
fn set_register(registers: &mut [u32; 4], key: u32, value: u32)
    ensures { registers.new ≡ slice_set registers.old key value }
{
    if key < 4 {
        registers[key as usize] = value;
    }
}
