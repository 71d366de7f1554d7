//! Invoked calls and their answers, frames handed up, and arrivals.

ghost use Rattle.std.specs.Prelude.{◌≡◌, ◌∷◌, [], fold, map, OnOk};
ghost use Rattle.nook_data.specs.Answers.{one_answer};
ghost use Rattle.promise_defs.specs.Losses.{handed_result, is_busy, is_done, is_received, lost_by, one_if};
ghost use Rattle.contract_monitor.specs.Calls.{effects_of};
ghost use Rattle.contract_monitor.specs.Keeping.{count_answer, count_handed, kept_answered, kept_arrival, kept_enter};
ghost use Rattle.contract_monitor.specs.Keeping.{kept_invoke, samples_lost, sends_lost, with_counts};

use crate::calls::{Call, Change, change_calls, close_call, close_calls, find_call, more};
use crate::known::Known;
use machine_defs::service_names::is_net_rx;
use nook_data::calls::{Answer, Op};
use nook_data::lists::Words;
use nook_data::memory::NoMemory;
use nook_data::steps::End;

impl Known {
    /// A call is invoked.
    pub fn add(&mut self, call: u32, op: &Op) -> Result<(), NoMemory>
        ensures { OnOk result (self.new ≡ kept_invoke call op.now self.old) }
    {
        self.calls.push(Call::new(self.alloc, call, op)?)?;
        Ok(())
    }

    /// A call is entered.
    pub fn enter(&mut self, call: u32) -> Result<(), NoMemory>
        ensures { OnOk result (self.new ≡ kept_enter call self.old) }
    {
        change_calls(&mut self.calls, call, Change::Entered)
    }

    /// A frame arrived, and the ring took it or had no room.
    pub fn see_arrival(&mut self, frame: &Words, kept: bool) -> Result<(), NoMemory>
        ensures { OnOk result (self.new ≡ kept_arrival frame.now kept self.old) }
    {
        self.effects.arrived = more(self.effects.arrived, 1)?;
        if kept {
            self.ring.push_back(frame.copied(self.alloc)?)?;
            self.effects.kept = more(self.effects.kept, 1)?;
        } else {
            self.effects.lost = more(self.effects.lost, 1)?;
        }
        Ok(())
    }

    /// A burst ended, and may have handed up a frame.
    pub fn count_handed(&mut self, end: &End) -> Result<(), NoMemory>
        ensures { OnOk result
            (self.new ≡ with_counts
            (count_handed (handed_result end.now) self.old.counts) self.old) }
    {
        let Some(given) = handed_result(end) else {
            return Ok(());
        };
        self.effects.handed_since = more(self.effects.handed_since, 1)?;
        if given == 0 {
            self.effects.refused = more(self.effects.refused, 1)?;
        } else {
            self.effects.taken = more(self.effects.taken, 1)?;
        }
        Ok(())
    }

    /// Calls are answered: they are counted, and no longer open.
    pub fn answer_all(&mut self, answers: &[(u32, Answer)]) -> Result<(), NoMemory>
        ensures { OnOk result (self.new ≡ kept_answered answers.now self.old) }
    {
        self.count_answers(answers)?;
        close_calls(&mut self.calls, answers);
        Ok(())
    }

    /// LossCounts answers of calls that are still open.
    fn count_answers(&mut self, answers: &[(u32, Answer)]) -> Result<(), NoMemory>
        ensures { OnOk result (self.new ≡ with_counts
            (fold (count_answer self.old.call_effects) self.old.counts answers.now) self.old) }
    {
        for answer in answers {
            self.count_answer(answer.0, &answer.1)?;
        }
        Ok(())
    }

    /// A call may be answered: then it is counted, and no longer open.
    pub fn answer_one(&mut self, call: u32, answer: &Option<Answer>) -> Result<(), NoMemory>
        ensures { OnOk result (self.new ≡ kept_answered (one_answer call answer.now) self.old) }
    {
        match answer {
            Some(answer) => self.answer_call(call, answer),
            None => Ok(()),
        }
    }

    /// A call is answered: it is counted, and no longer open.
    fn answer_call(&mut self, call: u32, answer: &Answer) -> Result<(), NoMemory>
        ensures { OnOk result (self.new ≡ kept_answered ((call, answer.now) ∷ []) self.old) }
    {
        self.count_answer(call, answer)?;
        close_call(&mut self.calls, call);
        Ok(())
    }

    /// LossCounts the answer of a call that is still open.
    fn count_answer(&mut self, call: u32, answer: &Answer) -> Result<(), NoMemory>
        ensures { OnOk result (self.new ≡ with_counts
            (count_answer self.old.call_effects self.old.counts (call, answer.now)) self.old) }
    {
        let sends = lost_sends(&self.calls, call, answer);
        let samples = lost_samples(&self.calls, call, answer);
        self.effects.sends = more(self.effects.sends, sends)?;
        self.effects.samples = more(self.effects.samples, samples)?;
        self.effects.busy = more(self.effects.busy, busy_in(answer))?;
        self.effects.received = more(self.effects.received, frames_in(answer))?;
        Ok(())
    }
}

/// Whether an answer is Done.
fn is_done(answer: &Answer) -> bool
    ensures { result ≡ is_done answer.now }
{
    matches!(answer, Answer::Done)
}

/// 1 for an answer Busy.
fn busy_in(answer: &Answer) -> u64
    ensures { result ≡ one_if (is_busy (0, answer.now)) }
{
    match answer {
        Answer::Busy { .. } => 1,
        _ => 0,
    }
}

/// 1 for an answer with a frame.
fn frames_in(answer: &Answer) -> u64
    ensures { result ≡ one_if (is_received (0, answer.now)) }
{
    match answer {
        Answer::Frame(_) => 1,
        _ => 0,
    }
}

/// 1 if a Send that sent no frame is answered Done.
fn lost_sends(calls: &[Call], number: u32, answer: &Answer) -> u64
    ensures { result ≡ lost_by sends_lost (map effects_of calls.now) (number, answer.now) }
{
    match find_call(calls, number) {
        Some(call) => {
            if is_done(answer) {
                sends_lost_by(call)
            } else {
                0
            }
        }
        None => 0,
    }
}

/// The number of sends that a call loses if it is answered Done.
fn sends_lost_by(call: &Call) -> u64
    ensures { result ≡ sends_lost (effects_of call.now) }
{
    match &call.op {
        Op::Send { .. } => u64::from(call.sent == 0),
        _ => 0,
    }
}

/// The samples of a Play answered Done that were not played.
fn lost_samples(calls: &[Call], number: u32, answer: &Answer) -> u64
    ensures { result ≡ lost_by samples_lost (map effects_of calls.now) (number, answer.now) }
{
    match find_call(calls, number) {
        Some(call) => {
            if is_done(answer) {
                samples_lost_by(call)
            } else {
                0
            }
        }
        None => 0,
    }
}

/// The number of samples that a call loses if it is answered Done.
fn samples_lost_by(call: &Call) -> u64
    ensures { result ≡ samples_lost (effects_of call.now) }
{
    match &call.op {
        Op::Play { samples } => (samples.len() as u64).saturating_sub(call.own_played),
        _ => 0,
    }
}

/// The result of a call that hands a frame up.
fn handed_result(end: &End) -> Option<u32>
    ensures { result ≡ handed_result end.now }
{
    match end {
        End::Service {
            service,
            answer,
            ..
        } => { if is_net_rx(*service) { *answer } else { None } }
        _ => None,
    }
}
