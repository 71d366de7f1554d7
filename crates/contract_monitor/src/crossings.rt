//! The crossings of bursts, and the stages.

ghost use Rattle.std.specs.Prelude.{◌≡◌, ◌∷◌, [], fold, None, true, OnOk, IfOk, if◌then◌else◌};
ghost use Rattle.nook_data.specs.Classes.{is_write};
ghost use Rattle.promise_defs.specs.Contract.{OpenCall, call_of, crossing_deeds, hands_up};
ghost use Rattle.promise_defs.specs.Losses.{is_done};
ghost use Rattle.contract_monitor.specs.Calls.{open_of};
ghost use Rattle.contract_monitor.specs.Judging.{first_broken, reply_broken, reply_broken_of, reply_deeds, unless};
ghost use Rattle.contract_monitor.specs.Keeping.{kept_crossing, kept_deed, kept_stage, with_known};

use crate::blocks::{get_blocks, has_block, holds};
use crate::calls::{Call, Change, change_calls, find_call, leave_calls, more};
use crate::clauses::unless;
use crate::known::{Known, in_driver, in_ring};
use crate::watching::{is_replayed, register};
use class_table::defaults_of;
use machine_defs::service_names::is_net_rx;
use nook_data::calls::{Answer, Op};
use nook_data::clause::Clause;
use nook_data::lists::{TryCopy, Words};
use nook_data::memory::NoMemory;
use nook_data::steps::{End, FailCause, Stage};

impl Known {
    /// Takes the crossing of a burst, and returns the smallest clause that it breaks.
    pub fn see_crossing(
        &mut self,
        call: u32,
        end: &End,
        answer: &Option<Answer>,
        failure: &Option<FailCause>,
    ) -> Result<Option<Clause>, NoMemory>
        ensures kept { OnOk result
            (self.new ≡ kept_crossing call end.now answer.now failure.now self.old) }
        ensures broken { IfOk result (λ clause. clause
            ≡ first_broken call self.old.known (crossing_deeds end.now answer.now failure.now)) }
    {
        let broken = self.see_end(call, end, answer, failure)?;
        self.count_handed(end)?;
        if failure.is_some() {
            self.replay = None;
        }
        Ok(broken)
    }

    /// What a crossing does, except that a failure ends the ReplaySet.
    fn see_end(
        &mut self,
        call: u32,
        end: &End,
        answer: &Option<Answer>,
        failure: &Option<FailCause>,
    ) -> Result<Option<Clause>, NoMemory>
        ensures kept { OnOk result (self.new
            ≡ with_known (fold (kept_deed call) self.old.known
            (crossing_deeds end.now answer.now failure.now)) self.old) }
        ensures broken { IfOk result (λ clause. clause
            ≡ first_broken call self.old.known (crossing_deeds end.now answer.now failure.now)) }
    {
        match end {
            End::Service {
                service,
                answer: given,
                moved,
                ..
            } => {
                if is_net_rx(*service) && given.is_some() {
                    self.see_handed(call, moved)
                } else {
                    Ok(None)
                }
            }
            End::Reply { .. } => {
                if failure.is_some() {
                    Ok(None)
                } else {
                    self.see_reply(call, answer)
                }
            }
            End::Pause | End::Trap => Ok(None),
        }
    }

    /// A frame is handed up.
    fn see_handed(&mut self, call: u32, moved: &Words) -> Result<Option<Clause>, NoMemory>
        ensures kept { OnOk result (self.new
            ≡ with_known (kept_deed call self.old.known (hands_up moved.now)) self.old) }
        ensures broken { IfOk result
            (λ clause. clause ≡ first_broken call self.old.known (hands_up moved.now ∷ [])) }
    {
        let due = match self.pending.pop_front() {
            Some(frame) => moved.as_slice() == frame.as_slice(),
            None => false,
        };
        change_calls(&mut self.calls, call, Change::Handed)?;
        Ok(unless(due, Clause::OutOfOrder))
    }

    /// A reply is accepted.
    fn see_reply(&mut self, call: u32, answer: &Option<Answer>) -> Result<Option<Clause>, NoMemory>
        ensures kept { OnOk result (self.new
            ≡ with_known (fold (kept_deed call) self.old.known (reply_deeds answer.now)) self.old) }
        ensures broken { IfOk result
            (λ clause. clause ≡ first_broken call self.old.known (reply_deeds answer.now)) }
    {
        match answer {
            Some(answer) => self.judge_reply(call, answer),
            None => {
                let replayed = is_replayed(&self.replay, &self.registers);
                self.replay = None;
                Ok(unless(replayed, Clause::UnmadeSet))
            }
        }
    }

    /// The smallest clause that a call's answer breaks.
    fn judge_reply(&self, call: u32, answer: &Answer) -> Result<Option<Clause>, NoMemory>
        ensures { IfOk result (λ clause. clause
            ≡ reply_broken_of self.now.known (call_of call self.now.known.calls) answer.now) }
    {
        match find_call(&self.calls, call) {
            Some(call) => self.judge_answer(call, answer),
            None => Ok(None),
        }
    }

    /// The smallest clause that the answer of this call breaks.
    fn judge_answer(&self, call: &Call, answer: &Answer) -> Result<Option<Clause>, NoMemory>
        ensures { IfOk result (λ clause. clause
            ≡ reply_broken self.now.known (open_of call.now) call.now.op answer.now) }
    {
        match &call.op {
            Op::Read { first, count } => self.judge_read(call, *first, *count, answer),
            Op::Write { .. } => Ok(self.judge_write(call, answer)),
            Op::Send { .. } => Ok(judge_done(call.sent > 0, Clause::UnsentSend, answer)),
            Op::Recv => {
                let kept = self.ring.is_empty() || call.handed;
                Ok(unless(kept, Clause::LeftInRing))
            }
            Op::Play { samples } => {
                let kept = call.played == samples.len() as u64;
                Ok(judge_done(kept, Clause::UnplayedPlay, answer))
            }
            Op::Set { key, value } => {
                let kept = register(&self.registers, *key) == *value;
                Ok(judge_done(kept, Clause::UnmadeSet, answer))
            }
            Op::Get { key } => Ok(self.judge_get(*key, answer)),
            Op::Open | Op::Close => Ok(None),
        }
    }

    /// A Read's answer: the words of its blocks, or a block on which a command failed.
    fn judge_read(
        &self,
        call: &Call,
        first: u32,
        count: u32,
        answer: &Answer,
    ) -> Result<Option<Clause>, NoMemory>
        ensures { IfOk result (λ clause. clause
            ≡ reply_broken self.now.known (open_of call.now) (Op.Read first count) answer.now) }
    {
        match answer {
            Answer::Blocks(words) => {
                let own = get_blocks(self.alloc, &self.medium, first, count)?;
                Ok(unless(words.as_slice() == own.as_slice(), Clause::OtherRead))
            }
            Answer::IoError { block } => {
                Ok(unless(has_block(*block, &call.failed), Clause::UnseenFailure))
            }
            _ => Ok(None),
        }
    }

    /// A Write's answer: its blocks have its words, or a command failed on the block.
    fn judge_write(&self, call: &Call, answer: &Answer) -> Option<Clause>
        requires { is_write call.now.op ≡ true }
        ensures { result ≡ reply_broken self.now.known (open_of call.now) call.now.op answer.now }
    {
        match answer {
            Answer::Done => unless(holds(&call.op, &self.medium), Clause::UnstoredWrite),
            Answer::IoError { block } => {
                unless(has_block(*block, &call.failed), Clause::UnseenFailure)
            }
            _ => None,
        }
    }

    /// A Get's answer: the register's value.
    fn judge_get(&self, key: u32, answer: &Answer) -> Option<Clause>
        ensures { (c : OpenCall) → result ≡ reply_broken self.now.known c (Op.Get key) answer.now }
    {
        match answer {
            Answer::Value(word) => {
                unless(register(&self.registers, key) == *word, Clause::OtherGet)
            }
            _ => None,
        }
    }

    /// A stage of the boot or of a recovery.
    pub fn see_stage(&mut self, stage: Stage) -> Result<(), NoMemory>
        ensures { OnOk result (self.new ≡ kept_stage stage self.old) }
    {
        match stage {
            Stage::Stop => leave_calls(&mut self.calls),
            Stage::Reset => self.see_reset()?,
            Stage::Load => self.pending.clear(),
            Stage::ReplaySet { key, value } => self.replay = Some((key, value)),
            Stage::Collect | Stage::Init | Stage::ReplayOpen | Stage::Resume => {}
        }
        Ok(())
    }

    /// The device was reset.
    fn see_reset(&mut self) -> Result<(), NoMemory>
        ensures { OnOk result (self.new ≡ kept_stage Stage.Reset self.old) }
    {
        let ring = in_ring(&self.effects);
        let driver = in_driver(&self.effects);
        self.effects.cleared = more(self.effects.cleared, ring)?;
        self.effects.reset = more(more(self.effects.reset, ring)?, driver)?;
        self.effects.popped_since = 0;
        self.effects.handed_since = 0;
        self.ring.clear();
        self.registers = defaults_of(self.class);
        Ok(())
    }
}

/// The clause that an answer Done breaks, if it is not kept.
fn judge_done(kept: bool, clause: Clause, answer: &Answer) -> Option<Clause>
    ensures { result ≡ (if is_done answer.now then unless kept clause else None) }
{
    match answer {
        Answer::Done => unless(kept, clause),
        _ => None,
    }
}
