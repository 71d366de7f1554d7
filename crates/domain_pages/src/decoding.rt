//! The decoded words of the text.

ghost use Rattle.std.specs.Prelude.{◌≡◌, ◌+◌, ◌<◌, ◌≤◌, ◌⊎◌, ℕ, List, length, slice_index, slice_set};
ghost use Rattle.domain_pages.specs.Decoding.{IsDecoded, IsDecodedAt};

use crate::frames::word_or_zero;
use driver_isa::{Decoded, entry_of};
use nook_data::lists::Word;
use nook_data::memory_map::TEXT_WORDS;

/// The words of text, as a length.
const TEXT_LEN: usize = TEXT_WORDS as usize;

/// Decodes a word that was written; does nothing at an address past the text.
pub fn put_decoded(decoded: &mut [Decoded], address: usize, word: Word)
    requires { length decoded.old ≡ TEXT_WORDS + 1 }
    ensures { (text : List ℕ) → length text ≡ TEXT_WORDS → IsDecoded decoded.old text
        → IsDecoded decoded.new (slice_set text address word) }
{
    if address < TEXT_LEN {
        decoded[address] = entry_of(word);
    }
}

/// Decodes the words of text from one address up to another; the entries of the others are right already.
pub fn decode_range(decoded: &mut [Decoded], text: &[Word], start: usize, end: usize)
    requires size { length decoded.old ≡ TEXT_WORDS + 1 }
    requires text { length text.now ≡ TEXT_WORDS }
    requires within { end ≤ TEXT_WORDS }
    requires outside { (k : ℕ) → (k < start) ⊎ (end ≤ k) → IsDecodedAt decoded.old text.now k }
    ensures { IsDecoded decoded.new text.now }
{
    for address in start..end {
        decoded[address] = entry_of(text[address]);
    }
}

/// Writes these words to the text, then zeros, up to an address, and decodes those that change.
pub fn put_text(text: &mut [Word], decoded: &mut [Decoded], words: &[Word], end: usize)
    requires text { length text.old ≡ TEXT_WORDS }
    requires within { end ≤ TEXT_WORDS }
    requires decoded { IsDecoded decoded.old text.old }
    ensures size { length text.new ≡ TEXT_WORDS }
    ensures inside { (k : ℕ) → k < end → slice_index text.new k ≡ slice_index words.now k }
    ensures outside { (k : ℕ) → end ≤ k → slice_index text.new k ≡ slice_index text.old k }
    ensures decoded { IsDecoded decoded.new text.new }
{
    for address in 0..end {
        let word = word_or_zero(words, address);
        if text[address] != word {
            text[address] = word;
            put_decoded(decoded, address, word);
        }
    }
}
