//! Whether two monitors judge and count alike from now on.

ghost use Rattle.std.specs.Prelude.{◌≡◌, true, map};
ghost use Rattle.contract_monitor.specs.Calls.{open_of, effects_of};

use crate::calls::Call;
use crate::known::{Known, LossCounts};
use nook_data::digest::mixed;
use nook_data::ring::are_same_queues;
use nook_data::same::{Same, are_same};
use std::collections::VecDeque;

impl Known {
    /// Whether the other monitor counts as this one does from now on.
    pub fn counts_alike(&self, other: &Known) -> bool
        ensures call_effects { result ≡ true → self.now.call_effects ≡ other.now.call_effects }
        ensures counts { result ≡ true → self.now.counts ≡ other.now.counts }
    {
        self.effects.is_same(&other.effects) && are_tallied_alike(&self.calls, &other.calls)
    }

    /// Whether the other monitor knows and counts the same.
    pub fn is_alike(&self, other: &Known) -> bool
        ensures { result ≡ true → self.now ≡ other.now }
    {
        self.class == other.class
            && self.effects.is_same(&other.effects)
            && self.replay.is_same(&other.replay)
            && self.registers.is_same(&other.registers)
            && are_alike(&self.calls, &other.calls)
            && are_same_queues(&self.pending, &other.pending)
            && are_same_queues(&self.ring, &other.ring)
            && are_same(&self.medium, &other.medium)
    }

    /// Mixes the counts and open calls into a digest. Whether a call is Inside matters only if it is still judged.
    pub fn digest(&self, digest: u64, judged: bool) -> u64 {
        let mut digest = mixed_counts(digest, &self.effects);
        for call in &self.calls {
            digest = mixed(digest, number_of(call, judged));
        }
        digest
    }
}

impl Call {
    /// Whether the losses see both calls alike.
    fn is_tallied_alike(&self, other: &Call) -> bool
        ensures { result ≡ true → effects_of self.now ≡ effects_of other.now }
    {
        self.number == other.number
            && self.sent == other.sent
            && self.own_played == other.own_played
            && self.op.is_same(&other.op)
    }

    /// Whether the contract and the losses see both calls alike.
    fn is_alike(&self, other: &Call) -> bool
        ensures opened { result ≡ true → open_of self.now ≡ open_of other.now }
        ensures tallied { result ≡ true → effects_of self.now ≡ effects_of other.now }
    {
        self.inside == other.inside
            && self.played == other.played
            && self.handed == other.handed
            && self.is_tallied_alike(other)
            && are_same_numbers(&self.failed, &other.failed)
    }
}

/// Whether the losses see both lists of calls alike.
fn are_tallied_alike(calls: &[Call], others: &[Call]) -> bool
    ensures { result ≡ true → map effects_of calls.now ≡ map effects_of others.now }
{
    if calls.len() != others.len() {
        return false;
    }
    for index in 0..calls.len() {
        if !calls[index].is_tallied_alike(&others[index]) {
            return false;
        }
    }
    true
}

/// Whether the contract and the losses see both lists of calls alike.
fn are_alike(calls: &[Call], others: &[Call]) -> bool
    ensures opened { result ≡ true → map open_of calls.now ≡ map open_of others.now }
    ensures tallied { result ≡ true → map effects_of calls.now ≡ map effects_of others.now }
{
    if calls.len() != others.len() {
        return false;
    }
    for index in 0..calls.len() {
        if !calls[index].is_alike(&others[index]) {
            return false;
        }
    }
    true
}

/// Whether two queues have the same numbers in the same order.
fn are_same_numbers(numbers: &VecDeque<u32>, others: &VecDeque<u32>) -> bool
    ensures { result ≡ true → numbers.now.items ≡ others.now.items }
{
    if numbers.len() != others.len() {
        return false;
    }
    for index in 0..numbers.len() {
        if numbers[index] != others[index] {
            return false;
        }
    }
    true
}

impl Same for LossCounts {
    fn is_same(&self, other: &LossCounts) -> bool {
        self.sends == other.sends
            && self.samples == other.samples
            && self.busy == other.busy
            && self.arrived == other.arrived
            && self.received == other.received
            && self.taken == other.taken
            && self.refused == other.refused
            && self.kept == other.kept
            && self.lost == other.lost
            && self.popped == other.popped
            && self.cleared == other.cleared
            && self.popped_since == other.popped_since
            && self.handed_since == other.handed_since
            && self.reset == other.reset
    }
}

/// Mixes the counts into a digest.
fn mixed_counts(digest: u64, effects: &LossCounts) -> u64 {
    let counts = [
        effects.sends,
        effects.samples,
        effects.busy,
        effects.arrived,
        effects.received,
        effects.taken,
        effects.refused,
        effects.kept,
        effects.lost,
        effects.popped,
        effects.cleared,
        effects.popped_since,
        effects.handed_since,
        effects.reset,
    ];
    let mut digest = digest;
    for count in &counts {
        digest = mixed(digest, *count);
    }
    digest
}

/// A call's number and, if it is still judged, whether it is Inside, as one number.
fn number_of(call: &Call, judged: bool) -> u64 {
    u64::from(call.number) * 2 + u64::from(judged && call.inside)
}
