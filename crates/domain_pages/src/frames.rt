//! Frames and the table that says which pages have one, as plain slices.

ghost use Rattle.std.specs.Prelude.{◌≡◌, ◌+◌, ◌*◌, ◌/◌, ◌<◌, ◌≤◌, ◌⊎◌, ◌&&◌, ◌||◌, nat_le, nat_lt, ℕ, [], List, true, false, length, take, slice_index, slice_index_or, slice_range, slice_set, IfOk};
ghost use Rattle.machine_defs.specs.Pages.{opening_memory, padded_words, with_words};
ghost use Rattle.domain_pages.specs.Frames.{has_some, image_word, word_at, shown, opening_table, IsFramed, IsText, with_own};

use nook_data::lists::{Items, Word, Words};
use nook_data::memory::{NoMemory, Room};
use nook_data::memory_map::{
    BUFFERS_END, MEMORY_WORDS, OBJECT_WORDS, OBJECTS, OWN_PAGES, PAGE_WORDS, PAGES, TEXT_WORDS,
};
use std::alloc::Global;

/// The words of a page, as a length.
const PAGE_LEN: usize = PAGE_WORDS as usize;

/// The words of text, as a length.
const TEXT_LEN: usize = TEXT_WORDS as usize;

/// Consecutive addresses: the first one, and how many they are.
#[derive(Clone, Copy)]
pub struct Span {
    pub start: usize,
    pub count: usize,
}

/// The word at an index, 0 past the end.
pub fn word_or_zero(words: &[Word], index: usize) -> Word
    ensures { result ≡ slice_index words.now index }
{
    words.get(index).copied().unwrap_or(0)
}

/// An image's word at an address.
fn image_word(text: &[Word], initial: &[Word], address: usize) -> Word
    ensures { result ≡ image_word text.now initial.now address }
{
    if address < TEXT_LEN {
        word_or_zero(text, address)
    } else {
        word_or_zero(initial, address - TEXT_LEN)
    }
}

/// The word that an address shows.
#[tactic(auto, using(crate::proofs::Shown::shown_at))]
pub fn word_at(
    table: &[bool; PAGES],
    frames: &[Word],
    text: &[Word],
    initial: &[Word],
    address: usize,
) -> Word
    requires address { address < MEMORY_WORDS }
    requires frames { length frames.now ≡ MEMORY_WORDS }
    ensures { result ≡ slice_index (shown table.now frames.now text.now initial.now) address }
{
    if table[address / PAGE_LEN] {
        frames[address]
    } else {
        image_word(text, initial, address)
    }
}

/// Copies the image's 64 words from `start` on into their frame.
fn fill_frame(frames: &mut [Word], text: &[Word], initial: &[Word], start: usize)
    requires { start + PAGE_WORDS ≤ length frames.old }
    ensures size { length frames.new ≡ length frames.old }
    ensures inside { (k : ℕ) → start ≤ k → k < start + PAGE_WORDS
        → slice_index frames.new k ≡ image_word text.now initial.now k }
    ensures outside { (k : ℕ) → (k < start) ⊎ (start + PAGE_WORDS ≤ k)
        → slice_index frames.new k ≡ slice_index frames.old k }
{
    for address in start..start + PAGE_LEN {
        frames[address] = image_word(text, initial, address);
    }
}

/// Gives a page its own frame, which shows what the page showed.
#[tactic(auto, using(crate::proofs::Shown::owned_at))]
fn own(table: &mut [bool; PAGES], frames: &mut [Word], text: &[Word], initial: &[Word], page: usize)
    requires page { page < PAGES }
    requires frames { length frames.old ≡ MEMORY_WORDS }
    ensures table { table.new ≡ slice_set table.old page true }
    ensures size { length frames.new ≡ MEMORY_WORDS }
    ensures same { (k : ℕ) → k < MEMORY_WORDS → word_at table.new frames.new text.now initial.now k
        ≡ word_at table.old frames.old text.now initial.now k }
{
    if !table[page] {
        fill_frame(frames, text, initial, page * PAGE_LEN);
        table[page] = true;
    }
}

/// Writes the word at an address into the frame of its page, and also into the text if it is part of it.
#[tactic(auto, using(crate::proofs::Texts::shown_put_text, crate::proofs::Texts::text_put))]
pub fn put(
    table: &mut [bool; PAGES],
    frames: &mut [Word],
    text: &mut [Word],
    initial: &[Word],
    address: usize,
    word: Word,
)
    requires address { address < MEMORY_WORDS }
    requires frames { length frames.old ≡ MEMORY_WORDS }
    requires text { IsText table.old frames.old text.old initial.now }
    ensures table { table.new ≡ slice_set table.old (address / PAGE_WORDS) true }
    ensures size { length frames.new ≡ MEMORY_WORDS }
    ensures framed { IsFramed table.old frames.old → IsFramed table.new frames.new }
    ensures text { IsText table.new frames.new text.new initial.now }
    ensures changed { text.new ≡ slice_set text.old address word }
    ensures words { shown table.new frames.new text.new initial.now
        ≡ slice_set (shown table.old frames.old text.old initial.now) address word }
{
    put_in_frame(table, frames, text, initial, address, word);
    put_in_text(text, address, word);
}

/// Where the zeros at the end of the text begin after a write from an address on.
pub fn end_after(end: usize, address: u32) -> usize
    requires { end ≤ TEXT_WORDS }
    ensures within { result ≤ TEXT_WORDS }
    ensures kept { end ≤ result }
    ensures written { address < TEXT_WORDS → result ≡ TEXT_WORDS }
{
    if address < TEXT_WORDS { TEXT_LEN } else { end }
}

/// Writes a word of text; does nothing at an address past the text.
fn put_in_text(text: &mut [Word], address: usize, word: Word)
    requires { length text.old ≡ TEXT_WORDS }
    ensures { text.new ≡ slice_set text.old address word }
{
    if address < TEXT_LEN {
        text[address] = word;
    }
}

/// Writes the word at an address into the frame of its page.
#[tactic(auto, using(crate::proofs::Shown::shown_put, crate::proofs::Shown::framed_put))]
fn put_in_frame(
    table: &mut [bool; PAGES],
    frames: &mut [Word],
    text: &[Word],
    initial: &[Word],
    address: usize,
    word: Word,
)
    requires address { address < MEMORY_WORDS }
    requires frames { length frames.old ≡ MEMORY_WORDS }
    ensures table { table.new ≡ slice_set table.old (address / PAGE_WORDS) true }
    ensures size { length frames.new ≡ MEMORY_WORDS }
    ensures framed { IsFramed table.old frames.old → IsFramed table.new frames.new }
    ensures words { shown table.new frames.new text.now initial.now
        ≡ slice_set (shown table.old frames.old text.now initial.now) address word }
{
    own(table, frames, text, initial, address / PAGE_LEN);
    frames[address] = word;
}

/// The page after those that contain one of `count` words from an address on.
#[tactic(auto, using(crate::proofs::Own::has_between))]
fn page_end(start: usize, count: usize) -> usize
    requires within { start + count ≤ MEMORY_WORDS }
    ensures least { start / PAGE_WORDS ≤ result }
    ensures most { result ≤ PAGES }
    ensures pages { (page : ℕ) → has_some start count page
        ≡ nat_le (start / PAGE_WORDS) page && nat_lt page result }
{
    if count == 0 {
        start / PAGE_LEN
    } else {
        (start + count - 1) / PAGE_LEN + 1
    }
}

/// Whether each page that contains one of `count` words from an address on has its own frame.
#[tactic(auto, using(crate::proofs::Own::has_here))]
pub fn are_framed(table: &[bool; PAGES], start: usize, count: usize) -> bool
    requires { start + count ≤ MEMORY_WORDS }
    ensures { result ≡ true → (k : ℕ) → start ≤ k → k < start + count
        → slice_index_or table.now (k / PAGE_WORDS) false ≡ true }
{
    for page in start / PAGE_LEN..page_end(start, count) {
        if !table[page] {
            return false;
        }
    }
    true
}

/// `count` words of the frames from an address on, in the memory of `room`, which has room for them.
pub fn words_of_frames(frames: &[Word], start: usize, count: usize, room: Room<Word>) -> Words
    requires within { start + count ≤ length frames.now }
    requires room { count ≤ room }
    ensures words { result ≡ slice_range frames.now start (start + count) }
    ensures len { length result ≡ count }
{
    let mut words = room.into_vec();
    words
        .extend_from_slice(&frames[start..start + count])
        .unwrap();
    Items::from_vec(words)
}

/// Gives each page that contains one of `count` words from an address on its own frame; it shows what the page showed.
fn own_all(
    table: &mut [bool; PAGES],
    frames: &mut [Word],
    text: &[Word],
    initial: &[Word],
    start: usize,
    count: usize,
)
    requires within { start + count ≤ MEMORY_WORDS }
    requires frames { length frames.old ≡ MEMORY_WORDS }
    ensures table { (page : ℕ) → page < PAGES → slice_index_or table.new page false
        ≡ has_some start count page || slice_index_or table.old page false }
    ensures size { length frames.new ≡ MEMORY_WORDS }
    ensures same { (k : ℕ) → k < MEMORY_WORDS → word_at table.new frames.new text.now initial.now k
        ≡ word_at table.old frames.old text.now initial.now k }
{
    for page in start / PAGE_LEN..page_end(start, count) {
        own(table, frames, text, initial, page);
    }
}

/// Writes these words from an address on, then zeros, `count` words in all.
pub fn write_all(frames: &mut [Word], start: usize, words: &[Word], count: usize)
    requires within { start + count ≤ length frames.old }
    requires fits { length words.now ≤ count }
    ensures { frames.new ≡ with_words start (padded_words count words.now) frames.old }
{
    let end = start + words.len();
    frames[start..end].copy_from_slice(words);
    frames[end..start + count].fill(0);
}

/// Writes the words of a span: these words, then zeros. Each page gets its frame once, and words of text are also
/// written to the text.
#[tactic(auto, using(crate::proofs::Texts::shown_put_all_text, crate::proofs::Texts::text_put_all))]
pub fn put_all(
    table: &mut [bool; PAGES],
    frames: &mut [Word],
    text: &mut [Word],
    initial: &[Word],
    span: Span,
    words: &[Word],
)
    requires within { span.start + span.count ≤ MEMORY_WORDS }
    requires frames { length frames.old ≡ MEMORY_WORDS }
    requires text { IsText table.old frames.old text.old initial.now }
    requires fits { length words.now ≤ span.count }
    ensures framed { IsFramed table.old frames.old → IsFramed table.new frames.new }
    ensures text { IsText table.new frames.new text.new initial.now }
    ensures unchanged { (k : ℕ) → (k < span.start) ⊎ (span.start + span.count ≤ k)
        → slice_index text.new k ≡ slice_index text.old k }
    ensures words { shown table.new frames.new text.new initial.now
        ≡ with_words span.start (padded_words span.count words.now)
        (shown table.old frames.old text.old initial.now) }
    ensures own { take OWN_PAGES table.new
        ≡ with_own span.start span.count (take OWN_PAGES table.old) }
{
    put_in_frames(table, frames, text, initial, span, words);
    show_text(text, frames, span.start, span.count);
}

/// Writes the words of a span into the frames of their pages.
fn put_in_frames(
    table: &mut [bool; PAGES],
    frames: &mut [Word],
    text: &[Word],
    initial: &[Word],
    span: Span,
    words: &[Word],
)
    requires within { span.start + span.count ≤ MEMORY_WORDS }
    requires frames { length frames.old ≡ MEMORY_WORDS }
    requires fits { length words.now ≤ span.count }
    ensures framed { IsFramed table.old frames.old → IsFramed table.new frames.new }
    ensures size { length frames.new ≡ MEMORY_WORDS }
    ensures table { (page : ℕ) → page < PAGES → slice_index_or table.new page false
        ≡ has_some span.start span.count page || slice_index_or table.old page false }
    ensures words { shown table.new frames.new text.now initial.now
        ≡ with_words span.start (padded_words span.count words.now)
        (shown table.old frames.old text.now initial.now) }
    ensures own { take OWN_PAGES table.new
        ≡ with_own span.start span.count (take OWN_PAGES table.old) }
{
    own_all(table, frames, text, initial, span.start, span.count);
    write_all(frames, span.start, words, span.count);
}

/// Copies `count` words from an address on, those that are text, from the frames of their pages into the text.
fn show_text(text: &mut [Word], frames: &[Word], start: usize, count: usize)
    requires within { start + count ≤ MEMORY_WORDS }
    requires text { length text.old ≡ TEXT_WORDS }
    requires frames { length frames.now ≡ MEMORY_WORDS }
    ensures size { length text.new ≡ TEXT_WORDS }
    ensures inside { (k : ℕ) → k < TEXT_WORDS → start ≤ k → k < start + count
        → slice_index text.new k ≡ slice_index frames.now k }
    ensures outside { (k : ℕ) → (k < start) ⊎ (start + count ≤ k)
        → slice_index text.new k ≡ slice_index text.old k }
{
    for address in start..TEXT_LEN.min(start + count) {
        text[address] = frames[address];
    }
}

/// The table in which only the kernel objects have frames.
pub fn opening_table() -> [bool; PAGES]
    ensures { result ≡ opening_table }
{
    let mut table = [false; PAGES];
    for page in OWN_PAGES..PAGES {
        table[page] = true;
    }
    table
}

/// All frames in their initial state.
pub fn opening_frames(alloc: Global) -> Result<Vec<Word>, NoMemory>
    ensures { IfOk result (λ frames. frames.items ≡ opening_memory []) }
{
    let mut frames = vec![in alloc; 0; (BUFFERS_END + OBJECT_WORDS) as usize]?;
    for object in 1..OBJECTS {
        let mut page = [0; PAGE_LEN];
        page[0] = object;
        frames.extend_from_slice(&page)?;
    }
    Ok(frames)
}

/// Brings the frames of the kernel objects into their initial state: each is zeros after the object's number.
pub fn renew_objects(frames: &mut [Word])
    requires { length frames.old ≡ MEMORY_WORDS }
    ensures size { length frames.new ≡ MEMORY_WORDS }
    ensures objects { (k : ℕ) → BUFFERS_END ≤ k → k < MEMORY_WORDS
        → slice_index frames.new k ≡ slice_index (opening_memory []) k }
{
    write_all(
        frames,
        BUFFERS_END as usize,
        &[],
        (OBJECT_WORDS * OBJECTS) as usize,
    );
    for object in 1..OBJECTS {
        frames[(BUFFERS_END + OBJECT_WORDS * object) as usize] = object;
    }
}

/// The 64 words of a page's frame.
pub fn frame_of(frames: &[Word], page: usize) -> &[Word]
    requires page { page < PAGES }
    requires frames { length frames.now ≡ MEMORY_WORDS }
    ensures { result.now
        ≡ slice_range frames.now (page * PAGE_WORDS) (page * PAGE_WORDS + PAGE_WORDS) }
{
    let start = page * PAGE_LEN;
    &frames[start..start + PAGE_LEN]
}
