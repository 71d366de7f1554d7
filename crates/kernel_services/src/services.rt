//! The services.

ghost use Rattle.std.specs.Prelude.{◌≡◌, ◌+◌, ◌≤◌, ℕ, true, [], List, slice_range};
ghost use Rattle.machine_defs.specs.Entries.{borrow_start, free_start};
ghost use Rattle.nook_data.specs.Layout.{object_start};
ghost use Rattle.machine_defs.specs.Services.{served, alloc_served, borrow_served, give_back_served, frame_served};
ghost use Rattle.nook_data.specs.declared.entries.Entry.{Entry};
ghost use Rattle.param_wrappers.specs.Crossing.{can_serve};
ghost use Rattle.kernel_services.specs.Outcome.{outcome, own_copied, own_served};

use crate::queue::RxQueue;
use domain_pages::PageMap;
use nook_data::limits::MOST_FRAME_WORDS;
use nook_data::lists::{Items, Word, Words};
use nook_data::machine::Service;
use nook_data::memory::Room;
use nook_data::memory_map::{DATA_WORDS, LAST_OBJECT, MEMORY_WORDS, OBJECT_WORDS, object_start};
use object_tracker::Tracker;

/// What a service returned: its result, and the words that it moved.
#[derive(Drop)]
pub struct Served {
    pub answer: Word,
    pub moved: Words,
}

/// Serves a kernel call that passed its check. The words that it moves go into `moved`, the queue's own copy of a
/// frame into `frame`; both have room for 64 words. It takes no memory.
#[tactic(auto, unfolding(machine_defs::specs::Services::served))]
pub fn serve(
    service: Service,
    pages: &mut PageMap,
    tracker: &mut Tracker,
    queue: &mut RxQueue,
    moved: Room<Word>,
    frame: Room<Word>,
) -> Served
    requires passed { can_serve service ≡ true }
    requires moved { MOST_FRAME_WORDS ≤ moved }
    requires frame { MOST_FRAME_WORDS ≤ frame }
    ensures served { served tracker.old.heap_start service pages.old.words tracker.old.entries
        queue.old
        ≡ outcome pages.new.words tracker.new.entries queue.new result }
    ensures heap { tracker.new.heap_start ≡ tracker.old.heap_start }
    ensures loans { pages.new.lent ≡ pages.old.lent }
    ensures own { pages.new.own
        ≡ own_served tracker.old.heap_start service tracker.old.entries pages.old.own }
{
    match service {
        Service::Alloc { n } => alloc(n, tracker, moved),
        Service::Free { address } => {
            let _was_held = tracker.free(address);
            served_with(0, moved)
        }
        Service::Register => {
            let _was_first = tracker.register();
            served_with(0, moved)
        }
        Service::Borrow { object } => borrow(object, pages, tracker, moved, frame),
        Service::GiveBack { object } => give_back(object, pages, tracker, moved),
        Service::NetRx { start, len } => hand_up(start, len, pages, queue, moved, frame),
        Service::Log | Service::Yield => served_with(0, moved),
    }
}

/// A result with no words moved.
fn served_with(answer: Word, moved: Room<Word>) -> Served
    ensures answer { result.answer ≡ answer }
    ensures moved { result.moved ≡ [] }
{
    Served {
        answer,
        moved: Items::from_vec(moved.into_vec()),
    }
}

/// The lowest start of `n` free heap words, 0 if there is none.
fn alloc(n: u32, tracker: &mut Tracker, moved: Room<Word>) -> Served
    requires { n ≤ DATA_WORDS }
    ensures served { (memory : List ℕ) (queue : List (List ℕ))
        → alloc_served n (free_start tracker.old.heap_start n tracker.old.entries) memory
        tracker.old.entries queue
        ≡ outcome memory tracker.new.entries queue result }
    ensures heap { tracker.new.heap_start ≡ tracker.old.heap_start }
{
    match tracker.alloc(n) {
        Some(start) => served_with(start, moved),
        None => served_with(0, moved),
    }
}

/// Copies the words of an object to where its copy begins; returns 0 if there is no room for it.
#[tactic(auto, using(crate::proofs::Padded::padded_full))]
fn borrow(
    object: u32,
    pages: &mut PageMap,
    tracker: &mut Tracker,
    moved: Room<Word>,
    copied: Room<Word>,
) -> Served
    requires object { object ≤ LAST_OBJECT }
    requires room { OBJECT_WORDS ≤ copied }
    ensures served { (queue : List (List ℕ))
        → borrow_served object
        (free_start tracker.old.heap_start OBJECT_WORDS tracker.old.entries) pages.old.words
        tracker.old.entries queue ≡ outcome pages.new.words tracker.new.entries queue result }
    ensures heap { tracker.new.heap_start ≡ tracker.old.heap_start }
    ensures loans { pages.new.lent ≡ pages.old.lent }
    ensures own { pages.new.own ≡ own_copied
        (free_start tracker.old.heap_start OBJECT_WORDS tracker.old.entries) pages.old.own }
{
    let Some(start) = tracker.borrow(object) else {
        return served_with(0, moved);
    };
    let words = pages.words(object_start(object), OBJECT_WORDS, copied);
    pages.put_words(start, words.as_slice(), OBJECT_WORDS);
    served_with(start, moved)
}

/// Writes the words of an object's copy to the object; the copy ends.
#[tactic(auto, using(crate::proofs::Padded::padded_full, crate::proofs::Own::own_of_object))]
fn give_back(object: u32, pages: &mut PageMap, tracker: &mut Tracker, moved: Room<Word>) -> Served
    requires object { object ≤ LAST_OBJECT }
    requires room { OBJECT_WORDS ≤ moved }
    ensures served { (queue : List (List ℕ))
        → give_back_served object
        (borrow_start object tracker.old.entries) pages.old.words tracker.old.entries queue
        ≡ outcome pages.new.words tracker.new.entries queue result }
    ensures heap { tracker.new.heap_start ≡ tracker.old.heap_start }
    ensures loans { pages.new.lent ≡ pages.old.lent }
    ensures own { pages.new.own ≡ pages.old.own }
{
    let Some(start) = tracker.give_back(object) else {
        return served_with(0, moved);
    };
    let words = pages.words(start, OBJECT_WORDS, moved);
    pages.put_words(object_start(object), words.as_slice(), OBJECT_WORDS);
    Served {
        answer: 0,
        moved: words,
    }
}

/// Adds a frame at the back of the queue; returns 1, or 0 if the queue is full.
fn hand_up(
    start: u32,
    len: u32,
    pages: &PageMap,
    queue: &mut RxQueue,
    moved: Room<Word>,
    frame: Room<Word>,
) -> Served
    requires len { len ≤ MOST_FRAME_WORDS }
    requires within { start + len ≤ MEMORY_WORDS }
    requires moved { MOST_FRAME_WORDS ≤ moved }
    requires frame { MOST_FRAME_WORDS ≤ frame }
    ensures { (entries : List Entry)
        → frame_served (slice_range pages.now.words start
        (start + len)) pages.now.words entries queue.old
        ≡ outcome pages.now.words entries queue.new result }
{
    let words = pages.words(start, len, moved);
    let taken = queue.offer(words.copy_in_room(frame).fitted());
    Served {
        answer: Word::from(taken),
        moved: words,
    }
}
