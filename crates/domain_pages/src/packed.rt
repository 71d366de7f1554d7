//! The page map in little memory, for one that is only looked at.

ghost use Rattle.std.specs.Prelude.{◌≡◌, ◌+◌, ◌-◌, ◌*◌, ◌/◌, ◌<◌, ◌≤◌, ◌⊎◌, ℕ, true, false, length, slice_index, slice_index_or, Decides, IfOk};
ghost use Rattle.domain_pages.specs.Packed.{frame_words, packed, unpacked};

use crate::frames::{frame_of, write_all};
use nook_data::digest::mixed_words;
use nook_data::limits::CONTEXTS;
use nook_data::lists::{Word, Words};
use nook_data::memory::NoMemory;
use nook_data::memory_map::{MEMORY_WORDS, OBJECT_WORDS, OBJECTS, PAGE_WORDS, PAGES};
use std::alloc::Global;
use std::marker::Model;

/// The words of a page, as a length.
const PAGE_LEN: usize = PAGE_WORDS as usize;

/// The words of all kernel objects.
const OBJECTS_LEN: usize = (OBJECT_WORDS * OBJECTS) as usize;

/// A page map that keeps only the words of pages that have a frame. Contracts see the same as for a `PageMap`.
pub struct PackedPages {
    /// The text, without the zeros at its end.
    pub(crate) text: Words,
    pub(crate) initial: Words,
    pub(crate) table: [bool; PAGES],
    /// The words of the pages that have a frame, page by page.
    pub(crate) words: Words,
    pub(crate) lent: [bool; CONTEXTS],
}

impl Model for PackedPages {
    ghost use Rattle.std.specs.Prelude.{take};
    ghost use Rattle.machine_defs.specs.Views.PageMap.{PageMap};
    ghost use Rattle.nook_data.specs.declared.memory_map.TheConstants.{OWN_PAGES};
    ghost use Rattle.domain_pages.specs.Frames.{shown};
    ghost use Rattle.domain_pages.specs.Packed.{IsPacked, unpacked};

    ghost Value = { PageMap };

    ghost view = { λ s. record {
      words = shown s.table (unpacked s.table s.words) s.text s.initial;
      lent = s.lent;
      own = take OWN_PAGES s.table;
    } };

    ghost invariant = { λ s. IsPacked s.table s.words s.text s.initial };
}

impl Drop for PackedPages {
    /// Written by hand, so that it is proved once and not in each function that owns packed pages.
    fn drop(self) {
        let PackedPages {
            text: _,
            initial: _,
            table: _,
            words: _,
            lent: _,
        } = self;
    }
}

impl PackedPages {
    /// Whether the other map is the same. It may return false for an equal map, but not for one that was made by the
    /// same writes since the same load.
    #[tactic(auto, using(crate::proofs::Packs::maps_same))]
    pub fn is_same(&self, other: &PackedPages) -> bool
        ensures { result ≡ true → self.now ≡ other.now }
    {
        are_same_flags(&self.lent, &other.lent)
            && are_same_flags(&self.table, &other.table)
            && are_same_words(self.words.as_slice(), other.words.as_slice())
            && are_same_words(self.initial.as_slice(), other.initial.as_slice())
            && are_same_words(self.text.as_slice(), other.text.as_slice())
    }

    /// Extends a digest by the words of the driver's pages in which one was written since the last load. Equal maps
    /// give the same number.
    pub fn digest(&self, digest: u64) -> u64 {
        let words = self.words.as_slice();
        let end = words.len().saturating_sub(OBJECTS_LEN);
        mixed_words(digest, &words[..end])
    }
}

/// The words of the pages that have a frame, page by page.
pub fn packed_frames(
    alloc: Global,
    table: &[bool; PAGES],
    frames: &[Word],
) -> Result<Vec<Word>, NoMemory>
    requires { length frames.now ≡ MEMORY_WORDS }
    ensures words { IfOk result (λ made. made.items ≡ packed table.now frames.now) }
    ensures pages { length table.now ≡ PAGES }
{
    let mut made = Vec::with_capacity(alloc, PAGE_LEN * count_frames(table))?;
    for page in 0..PAGES {
        if table[page] {
            made.extend_from_slice(frame_of(frames, page))?;
        }
    }
    Ok(made)
}

/// The number of pages that have a frame.
fn count_frames(table: &[bool; PAGES]) -> usize
    ensures { result ≤ PAGES }
{
    let mut count = 0;
    for page in 0..PAGES {
        if table[page] {
            count += 1;
        }
    }
    count
}

/// Puts the words of the pages that have a frame into their frames.
pub fn unpack_frames(table: &[bool; PAGES], words: &[Word], frames: &mut [Word])
    requires words { length words.now ≡ frame_words table.now }
    requires frames { length frames.old ≡ MEMORY_WORDS }
    ensures size { length frames.new ≡ MEMORY_WORDS }
    ensures same { (k : ℕ) → k < MEMORY_WORDS
        → slice_index_or table.now (k / PAGE_WORDS) false ≡ true
        → slice_index frames.new k ≡ slice_index (unpacked table.now words.now) k }
{
    let mut rest = words;
    for page in 0..PAGES {
        if table[page] {
            let (own, more) = rest.split_at(PAGE_LEN);
            put_frame(frames, page, own);
            rest = more;
        }
    }
}

/// Whether two lists have the same words. It compares many at once.
fn are_same_words(words: &[Word], others: &[Word]) -> bool
    ensures { Decides result (words.now ≡ others.now) }
{
    words == others
}

/// Whether two lists of flags are the same.
fn are_same_flags<const N: usize>(flags: &[bool; N], others: &[bool; N]) -> bool
    ensures { Decides result (flags.now ≡ others.now) }
{
    flags == others
}

/// Copies a page's words into its frame.
fn put_frame(frames: &mut [Word], page: usize, words: &[Word])
    requires page { page < PAGES }
    requires frames { length frames.old ≡ MEMORY_WORDS }
    requires words { length words.now ≡ PAGE_WORDS }
    ensures size { length frames.new ≡ MEMORY_WORDS }
    ensures inside { (k : ℕ) → page * PAGE_WORDS ≤ k → k < page * PAGE_WORDS + PAGE_WORDS
        → slice_index frames.new k ≡ slice_index words.now (k - page * PAGE_WORDS) }
    ensures outside { (k : ℕ) → (k < page * PAGE_WORDS) ⊎ (page * PAGE_WORDS + PAGE_WORDS ≤ k)
        → slice_index frames.new k ≡ slice_index frames.old k }
{
    write_all(frames, page * PAGE_LEN, words, PAGE_LEN);
}
