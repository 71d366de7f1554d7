//! Digests: equal values have equal digests. No result depends on them: they show which values are worth
//! comparing.

use crate::lists::Word;

/// The digest of no numbers.
pub const NO_DIGEST: u64 = 0;

/// The factor for each number, so that its low bits affect the high ones.
const SPREAD: u64 = 0x517c_c1b7_2722_0a95;

/// The digest after one more number.
pub fn mixed(digest: u64, number: u64) -> u64 {
    (digest.rotate_left(5) ^ number).wrapping_mul(SPREAD)
}

/// The digest after more words.
pub fn mixed_words(digest: u64, words: &[Word]) -> u64 {
    let mut digest = digest;
    for word in words {
        digest = mixed(digest, u64::from(*word));
    }
    digest
}
