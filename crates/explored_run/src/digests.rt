//! Digests of what distinguishes simulations besides their parts' memories: disk contents, and what reports list later.

use nook_data::classes::Class;
use nook_data::digest::mixed_words;
use nook_data::machine::Act;
use nook_data::steps::Event;
use part_core::PackedPart;
use sim_run::PackedSimulation;

/// Mixes the disk blocks and listed acts of all parts into a digest.
pub fn digest_of_parts(digest: u64, simulation: &PackedSimulation) -> u64 {
    let mut digest = digest;
    for number in 0..simulation.part_count() {
        digest = digest_of_part(digest, simulation.part(number));
    }
    digest
}

/// Mixes the blocks of a part's disk, or the acts that its report lists, into a digest.
fn digest_of_part(digest: u64, part: &PackedPart) -> u64 {
    match part.spec().class {
        Class::Block => mixed_medium(digest, part),
        Class::Net => mixed_acts(digest, part),
        Class::Sound => mixed_acts(digest, part),
    }
}

/// Mixes the blocks of a part's disk into a digest.
fn mixed_medium(digest: u64, part: &PackedPart) -> u64 {
    let mut digest = digest;
    for block in part.medium() {
        digest = mixed_words(digest, block);
    }
    digest
}

/// Mixes the frames that a part sent or the samples that it played into a digest.
fn mixed_acts(digest: u64, part: &PackedPart) -> u64 {
    let mut digest = digest;
    for event in part.journal().as_slice() {
        digest = mixed_event(digest, event);
    }
    digest
}

/// Mixes the listed acts of an event into a digest.
fn mixed_event(digest: u64, event: &Event) -> u64 {
    match event {
        Event::Burst { acts, .. } => mixed_burst(digest, acts.as_slice()),
        _ => digest,
    }
}

/// Mixes the listed acts of a burst into a digest.
fn mixed_burst(digest: u64, acts: &[Act]) -> u64 {
    let mut digest = digest;
    for act in acts {
        digest = mixed_act(digest, act);
    }
    digest
}

/// Mixes the words of a listed act into a digest.
fn mixed_act(digest: u64, act: &Act) -> u64 {
    match act {
        Act::Sent { frame } => mixed_words(digest, frame.as_slice()),
        Act::Played {
            sample,
            rate,
            volume,
        } => mixed_words(digest, &[*sample, *rate, *volume]),
        _ => digest,
    }
}
