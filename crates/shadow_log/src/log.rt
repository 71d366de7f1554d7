//! The shadow's log.

ghost use Rattle.std.specs.Prelude.{◌≡◌, ◌+◌, ◌-◌, ◌<◌, ◌≤◌, true, None, Some, MatchOption, length, map, option_map};
ghost use Rattle.std.specs.Prelude.{slice_get, slice_index, slice_set, IfSome, IfOk, OnOk, OnErr};
ghost use Rattle.part_defs.specs.Log.{after_answering, call_of_thread, after_entering, held_call, next_replay};
ghost use Rattle.part_defs.specs.Log.{no_call_open, with_answered_call, open_call, opening_log, replay_after};
ghost use Rattle.part_defs.specs.Log.{with_call};
ghost use Rattle.part_defs.specs.Views.CallLogs.{IsNumbered, acknowledged_call, after_holding, is_touched};
ghost use Rattle.shadow_log.specs.Indices.{IsPosition};
ghost use Rattle.shadow_log.specs.Stopped.{after_answers};

use nook_data::answers::answer_among;
use nook_data::calls::{Answer, CallEntry, Op};
use nook_data::limits::MOST_CALLS;
use nook_data::lists::{TryCopy, Word, copy_all};
use nook_data::memory::NoMemory;
use nook_data::same::{Same, are_same};
use nook_data::steps::Stage;
use std::alloc::Global;
use std::marker::Model;

/// The record, its holder and the open calls by rising number.
pub struct ShadowLog {
    pending: Vec<CallEntry>,
    count: u32,
    config: [Word; 4],
    defaults: [Word; 4],
    holder: Option<u8>,
}

impl Model for ShadowLog {
    ghost use Rattle.part_defs.specs.Views.CallLogs.{IsNumbered};
    ghost use Rattle.part_defs.specs.State.{CallLog};

    ghost Value = { CallLog };

    ghost view = { λ s. record {
      pending = s.pending.items;
      count = s.count;
      config = s.config;
      defaults = s.defaults;
      holder = s.holder;
    } };

    ghost invariant = { λ s. IsNumbered 0 s.count s.pending.items };
}

impl Drop for ShadowLog {
    /// Written by hand, so that it is proved once and not in each function that owns a log.
    fn drop(self) {
        let ShadowLog {
            pending: _,
            count: _,
            config: _,
            defaults: _,
            holder: _,
        } = self;
    }
}

impl ShadowLog {
    /// A log without calls. The record begins as the class's defaults, which are kept for the replays.
    #[tactic(auto, unfolding(part_defs::specs::Log::opening_log))]
    pub fn new(alloc: Global, defaults: [Word; 4]) -> ShadowLog
        ensures { result ≡ opening_log defaults }
    {
        ShadowLog {
            pending: Vec::new(alloc),
            count: 0,
            config: defaults,
            defaults,
            holder: None,
        }
    }

    /// Adds a call that stays open: it is Held and was never Inside. Returns its number, one more than the last.
    #[tactic(auto, unfolding(part_defs::specs::Log::with_call))]
    pub fn invoke(&mut self, thread: u8, op: Op) -> Result<u32, NoMemory>
        requires { self.old.count < MOST_CALLS }
        ensures ok { OnOk result (self.new ≡ with_call thread op self.old) }
        ensures number { IfOk result (λ call. call ≡ self.old.count + 1) }
        ensures err { OnErr result (self.new ≡ self.old) }
    {
        let call = self.count + 1;
        self.pending.push(CallEntry {
            call,
            thread,
            op,
            inside: false,
            attempts: 0,
        })?;
        self.count = call;
        Ok(call)
    }

    /// Counts a call that is answered at once: it only gets a number.
    #[tactic(auto, unfolding(part_defs::specs::Log::with_answered_call))]
    pub fn number(&mut self) -> u32
        requires { self.old.count < MOST_CALLS }
        ensures log { self.new ≡ with_answered_call self.old }
        ensures number { result ≡ self.old.count + 1 }
    {
        self.count += 1;
        self.count
    }

    /// The call goes Inside; it has one more attempt.
    #[tactic(auto, unfolding(part_defs::specs::Log::after_entering))]
    pub fn entered(&mut self, call: u32)
        requires { IfSome (open_call call self.old.pending) (λ c. c.attempts < 4294967295) }
        ensures { self.new ≡ after_entering call self.old }
    {
        if let Some(index) = position_of(&self.pending, call) {
            let entry = &mut self.pending[index];
            entry.inside = true;
            entry.attempts += 1;
        }
    }

    /// The call is Held. It keeps its number and its attempts.
    #[tactic(auto, unfolding(part_defs::specs::Views::CallLogs::after_holding))]
    pub fn held(&mut self, call: u32)
        ensures { self.new ≡ after_holding call self.old }
    {
        if let Some(index) = position_of(&self.pending, call) {
            self.pending[index].inside = false;
        }
    }

    /// The driver's reply to the call was accepted. A Set goes into the record, an Open makes the call's thread
    /// the holder, a Close leaves no holder. The call stays open.
    #[tactic(auto, unfolding(part_defs::specs::Views::CallLogs::acknowledged_call, part_defs::specs::Log::after_acknowledging))]
    pub fn acknowledge(&mut self, call: u32)
        ensures { self.new ≡ acknowledged_call call self.old }
    {
        if let Some(index) = position_of(&self.pending, call) {
            let entry = &self.pending[index];
            match entry.op {
                Op::Set { key, value } => set_word(&mut self.config, key, value),
                Op::Open => self.holder = Some(entry.thread),
                Op::Close => self.holder = None,
                _ => {}
            }
        }
    }

    /// The call is no longer open.
    #[tactic(auto, unfolding(part_defs::specs::Log::after_answering))]
    pub fn answered(&mut self, call: u32)
        ensures { self.new ≡ after_answering call self.old }
    {
        self.pending.retain(|entry| entry.call != call);
    }

    /// The driver was stopped, and these are the answers to open calls: the calls that have none stay open, all Held;
    /// the others are no longer open.
    pub fn stopped(&mut self, answers: &[(u32, Answer)])
        ensures log { self.new ≡ after_answers answers.now self.old }
        ensures rising { IsNumbered 0 self.old.count self.old.pending }
    {
        self.pending
            .retain(|entry| answer_among(answers, entry.call).is_none());
        hold_all(&mut self.pending);
    }

    /// The part is given up: no call is open any longer.
    pub fn given_up(&mut self)
        ensures { self.new ≡ no_call_open self.old }
    {
        self.pending.clear();
    }

    /// A word of the record, by its key 0 to 3; 0 for any other key.
    pub fn config(&self, key: u32) -> Word
        ensures { result ≡ slice_index self.now.config key }
    {
        self.config.get(key as usize).copied().unwrap_or(0)
    }

    /// The words of the record, by key.
    pub fn configuration(&self) -> [Word; 4]
        ensures { result ≡ self.now.config }
    {
        self.config
    }

    /// The thread that has the stream.
    pub fn holder(&self) -> Option<u8>
        ensures { result ≡ self.now.holder }
    {
        self.holder
    }

    /// How many numbers were given out.
    pub fn count(&self) -> u32
        ensures { result ≡ self.now.count }
    {
        self.count
    }

    /// The number of open calls.
    pub fn open_count(&self) -> usize
        ensures { result ≡ length self.now.pending }
    {
        self.pending.len()
    }

    /// The open calls by rising number.
    pub fn pending(&self) -> &[CallEntry]
        ensures { result.now ≡ self.now.pending }
    {
        self.pending.as_slice()
    }

    /// The open call at index `i` by rising number.
    pub fn open_call(&self, i: usize) -> &CallEntry
        requires { i < length self.now.pending }
        ensures call { slice_get self.now.pending i ≡ Some result.now }
        ensures rising { IsNumbered 0 self.now.count self.now.pending }
    {
        &self.pending[i]
    }

    /// The open call of a thread, if it has one.
    pub fn call_of_thread(&self, thread: u8) -> Option<&CallEntry>
        ensures call { option_map (λ c. c.now) result ≡ call_of_thread thread self.now.pending }
        ensures number { IfSome result (λ c. open_call c.now.call self.now.pending ≡ Some c.now) }
    {
        self.pending.iter().find(|entry| entry.thread == thread)
    }

    /// Whether the call has been Inside.
    pub fn touched(&self, call: u32) -> bool
        ensures { result ≡ is_touched (open_call call self.now.pending) }
    {
        match position_of(&self.pending, call) {
            Some(index) => self.pending[index].attempts > 0,
            None => false,
        }
    }

    /// The replay, or Resume, that follows Init or a replay: the keys whose word is not the default, by rising key,
    /// then the stream if it has a holder.
    #[tactic(auto, unfolding(part_defs::specs::Log::replay_after))]
    pub fn replay_next(&self, after: &Stage) -> Stage
        ensures { result ≡ replay_after after.now self.now }
    {
        match after {
            Stage::Init => self.replay_from(0),
            Stage::ReplaySet { key, .. } => self.replay_from(key.saturating_add(1)),
            _ => Stage::Resume,
        }
    }

    /// The first replay of the keys from `first` on.
    fn replay_from(&self, first: u32) -> Stage
        ensures { result ≡ next_replay first
            (4 - first) self.now.config self.now.defaults self.now.holder }
    {
        for key in first..4 {
            let value = self.config[key as usize];
            if value != self.defaults[key as usize] {
                return Stage::ReplaySet { key, value };
            }
        }
        match self.holder {
            Some(_) => Stage::ReplayOpen,
            None => Stage::Resume,
        }
    }
}

impl TryCopy for ShadowLog {
    fn copy(&self, alloc: Global) -> Result<ShadowLog, NoMemory> {
        Ok(ShadowLog {
            pending: copy_all(alloc, &self.pending)?,
            count: self.count,
            config: self.config,
            defaults: self.defaults,
            holder: self.holder,
        })
    }
}

impl Same for ShadowLog {
    fn is_same(&self, other: &ShadowLog) -> bool {
        self.count == other.count
            && self.holder.is_same(&other.holder)
            && self.config.is_same(&other.config)
            && self.defaults.is_same(&other.defaults)
            && are_same(&self.pending, &other.pending)
    }
}

/// The index of an open call.
fn position_of(pending: &[CallEntry], call: u32) -> Option<usize>
    ensures { MatchOption result (open_call call pending.now ≡ None)
        (λ index. IsPosition call index pending.now) }
{
    pending.iter().position(|entry| entry.call == call)
}

/// Sets a word of the record; a key past the last one changes nothing.
fn set_word(config: &mut [Word; 4], key: u32, value: Word)
    ensures { config.new ≡ slice_set config.old key value }
{
    if key < 4 {
        config[key as usize] = value;
    }
}

/// Makes every call Held.
fn hold_all(pending: &mut [CallEntry])
    ensures { pending.new ≡ map held_call pending.old }
{
    for entry in pending {
        entry.inside = false;
    }
}
